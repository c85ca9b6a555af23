//! What comes of a received stream.

use crate::ear::Session;
use beep_frame::{Head, Kind, Rule};
use beep_hearing::Heard;
use beep_octets::Octets;
use case_lines::{Bad, Fields, octets_of, put_number, put_word};
use std::alloc::Global;

/// A stream that is fed whole: the last answer, how many octets were used, and how many of them
/// since the last whole frame or SEQ.
pub(crate) fn hear(alloc: Global, fields: &mut Fields<'_>, out: &mut Octets) -> Result<(), Bad> {
    let stream = octets_of(alloc, fields.next()?)?;
    let mut session = Session::new(alloc)?;
    session.feed(stream.as_slice());
    put_session(&session, out)
}

/// The same of a stream that is fed octet by octet.
pub(crate) fn octets(alloc: Global, fields: &mut Fields<'_>, out: &mut Octets) -> Result<(), Bad> {
    let stream = octets_of(alloc, fields.next()?)?;
    let mut session = Session::new(alloc)?;
    for octet in stream.as_slice() {
        session.feed(&[*octet]);
    }
    put_session(&session, out)
}

fn put_session(session: &Session, out: &mut Octets) -> Result<(), Bad> {
    put_heard(session.last(), out)?;
    put_number(session.used(), out)?;
    put_number(session.left(), out)?;
    Ok(())
}

fn put_heard(heard: Heard, out: &mut Octets) -> Result<(), Bad> {
    match heard {
        Heard::More => put_word("more", out)?,
        Heard::Arrived(_) => put_word("arrived", out)?,
        Heard::Zero(head) => put_head(&head, out)?,
        Heard::Broken(rule, at) => put_broken(rule, at, out)?,
        Heard::NoMemory => return Err(Bad::NoMemory),
    }
    Ok(())
}

/// Keyword, number, flag, sequence number and size of a message's last frame.
fn put_head(head: &Head, out: &mut Octets) -> Result<(), Bad> {
    put_word(
        if head.kind == Kind::Rpy {
            "RPY"
        } else {
            "zero"
        },
        out,
    )?;
    put_number(head.msgno as u64, out)?;
    put_word(if head.more { "*" } else { "." }, out)?;
    put_number(head.seqno as u64, out)?;
    put_number(head.size as u64, out)?;
    Ok(())
}

fn put_broken(rule: Rule, at: u64, out: &mut Octets) -> Result<(), Bad> {
    let name = format!(in out.alloc(); "{rule:?}")?;
    put_word(name.as_str(), out)?;
    put_number(at, out)?;
    Ok(())
}
