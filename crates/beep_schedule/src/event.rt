//! What an event says.

/// One end of a session.
#[derive(Clone, Copy, Debug, PartialEq, Eq)]
pub enum End {
    /// The end that opened the link.
    A,
    /// The end that accepted it.
    B,
}

/// What an end is asked to do with a channel, or with its session.
#[derive(Clone, Copy, Debug, PartialEq, Eq)]
pub enum Act {
    /// Start the channel.
    Start,
    /// Give a request.
    Ask,
    /// Give a positive reply to the oldest request that is owed one.
    Reply,
    /// Give a negative reply to it.
    Refuse,
    /// Give one answer to it.
    Answer,
    /// End its answers.
    Done,
    /// Close the channel.
    Close,
    /// Close the session.
    Release,
}

/// One event of a schedule. What an act doesn't use is 0.
#[derive(Clone, Copy, Debug, PartialEq, Eq)]
pub enum PairEvent {
    /// An end does something.
    Do {
        /// Which end.
        at: End,
        /// What it does.
        act: Act,
        /// The number of the channel, 0 where the act is one on the session.
        channel: u32,
        /// How many octets its message has.
        len: u32,
        /// The first octet of the message; each other is one more than the one before, modulo 256.
        fill: u8,
    },
    /// An end sends one frame.
    Send {
        /// Which end sends.
        at: End,
        /// The most octets of its payload.
        max: u32,
    },
    /// An end reads the next octets that the other sent.
    Get {
        /// Which end reads.
        at: End,
        /// How many, or all where there are fewer.
        count: u32,
    },
    /// An end takes what arrived on a channel.
    Take {
        /// Which end takes.
        at: End,
        /// The number of the channel.
        channel: u32,
        /// How many octets, at most.
        count: u32,
    },
    /// Both ends send, read and take until neither has something to send.
    Drain {
        /// The most octets of a frame's payload.
        max: u32,
        /// How many octets are read at once, at most.
        piece: u32,
    },
}
