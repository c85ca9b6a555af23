//! What a status but 0 means, in words (docs/COMMANDS.md).

use beep_cmd::status;
use std::fmt::{self, Display, Formatter};
use std::io;

/// What more is known of why a run ended than its status says.
#[derive(Clone, Copy)]
pub(crate) enum Why<'a> {
    /// Nothing.
    Unknown,
    /// What the system said of the call that failed.
    Error(io::Error),
    /// It in words.
    Text(&'a str),
}

impl<'a> Why<'a> {
    /// What the system said, if it did.
    pub(crate) fn of_error(why: Option<io::Error>) -> Why<'a> {
        match why {
            Some(why) => Why::Error(why),
            None => Why::Unknown,
        }
    }

    /// Words, if there are any.
    pub(crate) fn of_text(why: Option<&'a str>) -> Why<'a> {
        match why {
            Some(why) => Why::Text(why),
            None => Why::Unknown,
        }
    }
}

impl<'a> Display for Why<'a> {
    fn fmt<W: fmt::Write>(&self, f: &mut Formatter<W>) -> fmt::Result {
        match self {
            Why::Unknown => Ok(()),
            Why::Error(why) => write!(f, ": {why}"),
            Why::Text(why) => write!(f, ": {why}"),
        }
    }
}

/// What a status but 0 means of a command, which has written what ends so.
pub(crate) fn meaning_of(status: u8, command: &str, tail: &[u8]) -> &'static str {
    match status {
        status::BAD => meaning_of_bad(command, tail),
        status::BROKEN =>
            "what was read breaks a rule of BEEP, at the octet that the last line names, or the last \
              line of the record's replay",
        status::READ_FAULT => "the input couldn't be read",
        status::WRITE_FAULT => "the output couldn't be written",
        status::WIRE_FAULT => "the link failed",
        status::NO_MEMORY => "out of memory",
        status::REFUSED =>
            "the peer refused, with the code in the last line, unless a record was written",
        status::CUT => "what was read ended within a frame, or before the session was released",
        status::IDLE => "the peer was silent for as many reads as --idle says",
        status::SPENT => "as many octets were read as --octets says, and one more read was needed",
        _ => "the run failed",
    }
}

/// What status 2 means, likewise.
fn meaning_of_bad(command: &str, tail: &[u8]) -> &'static str {
    match command {
        "send" =>
            "a line of the input has more than 8,192 octets, or the input more than 16,777,216: the \
              last line names the line",
        "pair" =>
            "the input is no schedule, or has more than 16,777,216 octets: the last line names the \
              line",
        "replay" if says_written(tail) =>
            "what was written breaks a rule of BEEP, at the octet of it that the last line names",
        "replay" =>
            "the input is no record, from the octet on that the last line names, or has more than \
              16,777,216 octets",
        _ => "the input isn't what the command reads",
    }
}

/// Whether the last line says that what was written breaks a rule.
fn says_written(tail: &[u8]) -> bool {
    let line: &[u8] = b"\n! written ";
    tail.starts_with(&line[1..]) || tail.windows(11).any(|part| part == line)
}
