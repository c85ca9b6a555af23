//! Why a run stops early.

use beep_frame::Rule;
use beep_lawful::Breach;
use beep_octets::NoMemory;
use std::io;

/// Why a run stops early.
#[derive(Clone, Copy, Debug)]
pub enum Stop {
    /// The words are no run.
    Words,
    /// A call was refused that is never refused here.
    Refused,
    /// A session, the book or a text found no memory, which is no finding.
    NoMemory,
    /// The output couldn't be written.
    Output,
    /// A session did what it must not do.
    Found(Fault),
}

/// What a session must not do.
#[derive(Clone, Copy, Debug)]
pub enum Fault {
    /// An end heard a broken rule, at this octet.
    Broken(Rule, u64),
    /// A message of channel zero that waits wasn't settled.
    Unsettled,
    /// An ERR came in place of a greeting.
    Denied,
    /// A feed used no octet where some were left, or answered that all were used where some
    /// weren't.
    Unused,
    /// `may_emit` and `emit` don't agree.
    MayEmit,
    /// Something was given or taken where no life is known.
    NoLife,
    /// A request was given another position than its own, or an answer another number.
    Position,
    /// A duty is there, or isn't, or has begun, or hasn't, against what was given and taken.
    Duty,
    /// What was taken isn't what was given next.
    NotGiven,
    /// A life ended with something untaken.
    EndedUntaken,
    /// What was emitted or fed is no stream of frames.
    NoStream,
    /// What arrived breaks this rule by the plain programs.
    PlainRule(Rule),
    /// The journal of an end isn't lawful.
    Unlawful(Breach),
    /// Nothing moves, and something given isn't taken.
    Untaken,
    /// Nothing moves, and the peer's greeting or the reply to an own request of channel zero hasn't
    /// come.
    Unanswered,
    /// Nothing moves, and the ends don't agree on what lives or whether the session is over.
    Disagree,
    /// Nothing moves, and something is left on a wire or within a frame.
    Left,
    /// A drain doesn't end.
    Endless,
    /// Something that is counted never happened.
    Idle,
}

impl From<NoMemory> for Stop {
    fn from(_: NoMemory) -> Stop {
        Stop::NoMemory
    }
}

impl From<io::Error> for Stop {
    fn from(_: io::Error) -> Stop {
        Stop::Output
    }
}
