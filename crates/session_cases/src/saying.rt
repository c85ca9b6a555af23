//! What a session says next.

use beep_session::beep_octets::Octets;
use beep_session::beep_speaking::Emit;
use beep_session::{MAX_PIECE, Session};
use session_lines::{Answer, Stop};

/// Room for one frame of the greatest size, and some more.
const ROOM: usize = 8192;

/// What came of an emit.
#[derive(Clone, Copy, Debug)]
pub(crate) enum Said {
    /// A frame or a SEQ goes out.
    Something,
    /// Nothing is due.
    Nothing,
    /// The session didn't say what goes out, and why.
    Fault(Answer),
}

/// Puts what goes out next into `out`, of at most `most` octets of payload. `may_emit` has to know
/// it before.
pub(crate) fn say(session: &mut Session, most: u32, out: &mut Octets) -> Result<Said, Stop> {
    out.clear();
    out.reserve(ROOM)?;
    if session.zero_waits() || most == 0 || MAX_PIECE < most {
        return Ok(Said::Fault(Answer::usage()));
    }
    let may = session.may_emit();
    let went = match session.emit(most, out) {
        Emit::Nothing => false,
        Emit::Data(_) | Emit::Seq(_) => true,
    };
    Ok(of_emit(may, went, !out.is_empty()))
}

fn of_emit(may: bool, went: bool, octets: bool) -> Said {
    if may != went || went != octets {
        Said::Fault(Answer::Word("another answer of may_emit"))
    } else if went {
        Said::Something
    } else {
        Said::Nothing
    }
}

/// Notes the header or the SEQ that goes out, with the code of an ERR of channel zero.
pub(crate) fn note_said(out: &[u8], notes: &mut String) -> Result<(), Stop> {
    let said = str::from_utf8(out).unwrap_or("no text");
    let (header, payload) = match said.split_once("\r\n") {
        Some(parts) => parts,
        None => (said, ""),
    };
    notes.push_str(header)?;
    if header.starts_with("ERR 0 ") {
        notes.push_str(" ")?;
        notes.push_str(code_in(payload))?;
    }
    Ok(())
}

/// The code that an ERR of channel zero says.
fn code_in(payload: &str) -> &str {
    let Some((_before, code)) = payload.split_once("code='") else {
        return "no code";
    };
    match code.split_once("'") {
        Some((code, _after)) => code,
        None => "no code",
    }
}

/// Notes all octets that go out, and `|` for each CRLF.
pub(crate) fn note_whole(out: &[u8], notes: &mut String) -> Result<(), Stop> {
    let said = str::from_utf8(out).unwrap_or("no text");
    for (place, line) in said.split("\r\n").enumerate() {
        if place != 0 {
            notes.push_str("|")?;
        }
        notes.push_str(line)?;
    }
    Ok(())
}
