//! What an octet of a message is marked with.

use crate::kind::Kind;

/// Which message of a life an octet belongs to: the position of its request, its answer, its kind.
#[derive(Clone, Copy, Debug, PartialEq, Eq)]
pub struct Tag {
    /// The place of the request among the requests of its direction, from 0, modulo 2^64.
    pub request: u64,
    /// The answer number of an ANS, 0 to 2147483647, and 0 for each other kind.
    pub ansno: u32,
    /// The kind of the message.
    pub kind: Kind,
}
