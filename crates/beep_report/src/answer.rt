//! What an act of a schedule is answered.

use beep_peer::beep_channel::AskError;
use beep_peer::beep_outbox::GiveError;
use beep_peer::{CloseError, ReleaseError, StartError};

/// What an act is answered. Nothing there is out of memory.
#[derive(Clone, Copy, Debug, PartialEq, Eq)]
pub enum Answer {
    /// It is done.
    Done,
    /// It is done: the position of the request, or the number of the answer.
    Numbered(u64),
    /// There is no such channel.
    NoChannel,
    /// No request is owed a reply.
    NotOwed,
    /// Answers to the request were given.
    Answering,
    /// A start is refused.
    Start(StartError),
    /// A request is refused.
    Ask(AskError),
    /// A reply, or one answer, is refused.
    Give(GiveError),
    /// A close of a channel is refused.
    Close(CloseError),
    /// A close of the session is refused.
    Release(ReleaseError),
}
