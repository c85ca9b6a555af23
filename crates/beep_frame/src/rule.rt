//! The rules that a peer can break.

/// A rule of the protocol, in the order in which rules are answered.
#[derive(Clone, Copy, Debug, PartialEq, Eq)]
pub enum Rule {
    /// The stream can't go on as a header, or as a SEQ.
    Header,
    /// An octet in a trailer's place isn't the trailer's.
    Trailer,
    /// The payload is larger than this end takes.
    Size,
    /// The first frame isn't a greeting.
    NoGreeting,
    /// The channel isn't open.
    NoSuchChannel,
    /// A frame came while a tuning start waits for its reply.
    NotAlone,
    /// A NUL has a payload, or more to come.
    NulShape,
    /// Another message came before the last one was complete.
    NotContinued,
    /// A message or a reply goes on with another kind.
    KindChanged,
    /// A request has the number of one that isn't answered.
    NumberInUse,
    /// A reply names no request.
    NeverAsked,
    /// A reply came before its request was wholly sent.
    EarlyReply,
    /// A reply names a request that was answered.
    AlreadyAnswered,
    /// A reply came before the reply to an earlier request.
    OutOfTurn,
    /// A NUL ends a reply that isn't made of answers.
    NulNotAfterAns,
    /// A NUL came before each answer was complete.
    NulTooSoon,
    /// The sequence number isn't the next one.
    Sequence,
    /// The message is longer than a message may be.
    Long,
    /// The payload passes the window's end.
    Window,
    /// An answer is complete and has no octet.
    EmptyAnswer,
    /// Too many requests wait for their reply.
    TooManyRequests,
    /// Too many answers of a reply are unfinished.
    TooManyAnswers,
    /// A SEQ acknowledges what wasn't sent, or less than an earlier one.
    BadAck,
    /// A reply on channel zero hasn't the form that its request asks for.
    ZeroReply,
}
