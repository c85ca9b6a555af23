//! What a decoder answers of a stream (RFC 3080, section 2.2.1; RFC 3081, section 3.1).

use crate::head::Head;
use crate::rule::Rule;
use crate::seq::Seq;

/// What a feed found.
#[derive(Clone, Copy, Debug, PartialEq, Eq)]
pub enum Step {
    /// All octets were used, and no step is due.
    More,
    /// The last octet used is a header's LF.
    Head(Head),
    /// The last octet used ends a data frame.
    Frame,
    /// The last octet used ends a SEQ.
    Seq(Seq),
    /// The stream broke this rule at the octet of this number, counted from 0, modulo 2^64.
    Broken(Rule, u64),
}
