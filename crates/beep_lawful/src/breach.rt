//! What a thing that an end sends may break (RFC 3080, sections 2.1 to 2.3; RFC 3081, section 3.1).

/// What a header, a whole frame or a SEQ breaks that goes out.
#[derive(Clone, Copy, Debug, PartialEq, Eq)]
pub enum Breach {
    /// Something goes out while a frame of this end is under way, something happened between its
    /// header and its end, or its payload has another size.
    Apart,
    /// The peer would find a broken rule.
    Rule,
    /// The payload is larger than this end's piece, or than what the peer left open.
    Room,
    /// An own request has another number than its position.
    OwnNumber,
    /// `ok` to the peer's close, whose life has not ended nor was drained since it came.
    OkTooSoon,
    /// An own close of a life with an own request that isn't answered.
    CloseUnanswered,
    /// An own request in a life whose own close waits.
    AskedClosing,
    /// A SEQ that says what isn't so, or that nothing calls for.
    SeqNotDue,
    /// Beside an own tuning start something else goes out.
    BesideTuning,
    /// The session is over.
    AfterEnd,
    /// An own start of a number that isn't this end's or isn't free.
    StartNumber,
    /// A start is granted whose number isn't the peer's or isn't free, or while an own close of 0
    /// waits.
    GrantNumber,
    /// An own close of a number whose own start waits.
    CloseStarting,
    /// `ok` to the peer's close, in whose life an own request has begun since it was drained.
    AskedDrained,
    /// A SEQ of a channel that isn't there.
    SeqOfNoLife,
}
