//! Why a request of the program on channel zero is refused: after each the session is as it was.

/// Why a channel isn't started, in the order in which causes are tried.
#[derive(Clone, Copy, Debug, PartialEq, Eq)]
pub enum StartError {
    /// The session is over.
    Ended,
    /// The peer's greeting isn't settled.
    NoGreeting,
    /// An own close of 0 waits, or one of the peer has come.
    Closing,
    /// The number is live or starting.
    NumberTaken,
    /// As many channels as there may be are live or starting.
    ChannelsFull,
    /// As many own requests of channel zero as there may be wait.
    TooManyAsked,
    /// The message has this many octets, more than are read.
    TooLong { size: u32 },
    /// The start or its channel found no memory; a later call may succeed.
    NoMemory,
}

/// Why the session isn't released, in the order in which causes are tried.
#[derive(Clone, Copy, Debug, PartialEq, Eq)]
pub enum ReleaseError {
    /// The session is over.
    Ended,
    /// The peer's greeting isn't settled.
    NoGreeting,
    /// An own close of 0 waits.
    Closing,
    /// This is the lowest number that is live or starting.
    Busy(u32),
    /// The own request of channel zero with this number waits.
    Unanswered(u32),
    /// The close of 0 found no memory; a later call may succeed.
    NoMemory,
}

/// Why a channel isn't closed, in the order in which causes are tried.
#[derive(Clone, Copy, Debug, PartialEq, Eq)]
pub enum CloseError {
    /// The own request with this number has no wholly taken reply.
    Busy(u32),
    /// As many own requests of channel zero as there may be wait.
    TooManyAsked,
    /// The close found no memory; a later call may succeed.
    NoMemory,
}
