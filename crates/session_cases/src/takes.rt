//! What is taken from a channel above zero.

use beep_session::Session;
use beep_session::beep_inbox::Part;
use session_lines::{Answer, Stop, kind_name, push_number, push_numbered};

/// The most octets that are taken at once.
const ROOM: usize = 64;

/// Takes from a channel, open or closing, and notes what was taken: kind and position, the
/// answer's number, the octets, and `.` with the end or `*` without it.
pub(crate) fn take(session: &mut Session, number: u32, notes: &mut String) -> Result<(), Stop> {
    let mut buf = [0u8; ROOM];
    match taken(session, number, &mut buf) {
        Ok(part) => note_part(notes, &part, &buf),
        Err(answer) => answer.note(notes),
    }
}

/// Takes into `buf`, and answers the part or why there is none.
fn taken(session: &mut Session, number: u32, buf: &mut [u8]) -> Result<Part, Answer> {
    if session.zero_waits() || buf.is_empty() || ROOM < buf.len() {
        return Err(Answer::usage());
    }
    let part = if let Some(mut channel) = session.open_channel(number) {
        channel.take(buf)
    } else if let Some(mut channel) = session.closing_channel(number) {
        channel.take(buf)
    } else {
        return Err(Answer::Word("NoChannel"));
    };
    match part {
        Some(part) => Ok(part),
        None => Err(Answer::Word("nothing")),
    }
}

fn note_part(notes: &mut String, part: &Part, buf: &[u8]) -> Result<(), Stop> {
    push_numbered(notes, kind_name(part.tag.kind), part.tag.request)?;
    if part.tag.kind.is_ans() {
        notes.push_str(" ")?;
        push_number(notes, u64::from(part.tag.ansno))?;
    }
    notes.push_str(" ")?;
    notes.push_str(text_of(part, buf))?;
    notes.push_str(if part.ended { " ." } else { " *" })?;
    Ok(())
}

/// The octets of a part as text, `-` where there are none.
fn text_of<'b>(part: &Part, buf: &'b [u8]) -> &'b str {
    let Some(octets) = buf.get(..part.len as usize) else {
        return "?";
    };
    match str::from_utf8(octets) {
        Ok("") => "-",
        Ok(text) => text,
        Err(_) => "?",
    }
}
