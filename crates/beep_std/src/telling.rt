//! What is told of a session on standard error, while it lasts and at its end. A line that can't be
//! written is left out: nothing depends on it.

use crate::fault::{Call, Side};
use crate::socket::Notes;
use beep_wires::Account;
use std::fmt::{self, Display, Formatter};
use std::io::{self, Eprint};
use std::time::{Clock, Duration};

/// How often the line of progress is written anew at most, in milliseconds.
pub const PROGRESS_MILLIS: u64 = 500;

/// The line that says how far a session has come, on a terminal.
#[derive(Drop)]
pub(crate) struct Progress {
    shows: bool,
    /// When it was last written, or the first octets went.
    last: Option<Duration>,
    has_line: bool,
}

impl Progress {
    /// No line yet, and none ever where nothing is to be shown.
    pub(crate) fn new(shows: bool) -> Progress {
        Progress {
            shows,
            last: None,
            has_line: false,
        }
    }

    /// Whether the clock is to be asked at all.
    pub(crate) fn shows(&self) -> bool {
        self.shows
    }

    /// What the next line on standard error begins with, so that it stands in place of this one.
    fn lead(&self) -> &'static str {
        if self.has_line { "\r" } else { "" }
    }

    /// Writes the line anew where it is time for that.
    pub(crate) fn show<R: Clock + Eprint>(&mut self, rt: &R, octets: u64) {
        let Ok(now) = rt.monotonic() else {
            return;
        };
        let Some(last) = self.last else {
            self.last = Some(now);
            return;
        };
        if now.saturating_sub(last) >= Duration::from_millis(PROGRESS_MILLIS) {
            self.last = Some(now);
            self.has_line = true;
            let _ = rt.eprint(format_args!("\rbeep: {octets} octets written"));
        }
    }

    /// Writes the line of a session that has ended.
    pub(crate) fn tell<R: Clock + Eprint>(
        &self,
        rt: &R,
        session: u64,
        notes: Notes,
        account: Account,
    ) {
        let took = Took {
            from: notes.began,
            to: rt.monotonic().ok(),
        };
        let ending = Ending {
            status: account.status,
            failed: notes.failed,
        };
        let lead = self.lead();
        let peer = notes.peer;
        let octets = notes.octets;
        let lines = Counted {
            lines: account.lines,
            // How many of the lines that were sent were taken is known of a release alone.
            is_known: notes.side == Side::Accepted || account.status == 0,
        };
        let _ = eprintln!(rt;
            "{lead}beep: session {session} with {peer}: {lines}{octets} octets, \
            {took}, status {ending}"
        );
    }
}

/// How many lines there were, where that is known.
#[derive(Clone, Copy)]
struct Counted {
    lines: u64,
    is_known: bool,
}

impl Display for Counted {
    fn fmt<W: fmt::Write>(&self, f: &mut Formatter<W>) -> fmt::Result {
        if !self.is_known {
            return Ok(());
        }
        let lines = self.lines;
        write!(f, "{lines} lines, ")
    }
}

/// How long a session took, in seconds to three places, where the clock tells.
#[derive(Clone, Copy)]
struct Took {
    from: Option<Duration>,
    to: Option<Duration>,
}

impl Display for Took {
    fn fmt<W: fmt::Write>(&self, f: &mut Formatter<W>) -> fmt::Result {
        let (Some(from), Some(to)) = (self.from, self.to) else {
            return f.write_str("? s");
        };
        let took = to.saturating_sub(from);
        write!(f, "{}.{:03} s", took.as_secs(), took.subsec_millis())
    }
}

/// The status of a session, and in words what it means where it isn't 0.
#[derive(Clone, Copy)]
struct Ending {
    status: u8,
    failed: Option<(Call, io::Error)>,
}

impl Display for Ending {
    fn fmt<W: fmt::Write>(&self, f: &mut Formatter<W>) -> fmt::Result {
        let status = self.status;
        if status == 0 {
            return write!(f, "{status}");
        }
        let words = words_of(status);
        write!(f, "{status}: {words}")?;
        match self.failed {
            Some((call, why)) => write!(f, ": {call}: {why}"),
            None => Ok(()),
        }
    }
}

/// What a status but 0 means of a session, by its number (docs/COMMANDS.md).
fn words_of(status: u8) -> &'static str {
    match status {
        3 => "the peer broke a rule of BEEP",
        5 => "the output couldn't be written",
        6 => "the link failed",
        7 => "out of memory",
        8 => "the peer refused",
        9 => "the link ended too soon",
        10 => "the peer was silent for too long",
        11 => "as many octets came as are read",
        _ => "the session failed",
    }
}
