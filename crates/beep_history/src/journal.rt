//! What happens in a session, item by item.

use beep_frame::{Head, Seq};
use beep_octets::Octets;

/// Which way a frame went, as one end sees it.
#[derive(Clone, Copy, Debug, PartialEq, Eq)]
pub enum Side {
    /// From the peer to this end.
    Received,
    /// From this end to the peer.
    Sent,
}

impl Side {
    ghost use Rattle.std.specs.Prelude.{◌≡◌};
    ghost use Rattle.beep_history.specs.Journal.{same_side, other};

    /// Whether it is this side.
    pub fn is_same(self, side: Side) -> bool
        ensures { result ≡ same_side self side }
    {
        match self {
            Side::Received => matches!(side, Side::Received),
            Side::Sent => matches!(side, Side::Sent),
        }
    }

    /// The side that answers this one.
    pub fn other(self) -> Side
        ensures { result ≡ other self }
    {
        match self {
            Side::Received => Side::Sent,
            Side::Sent => Side::Received,
        }
    }
}

/// One thing that happened, at the octet that completes it.
#[derive(Debug, Drop)]
pub enum JournalItem {
    /// The LF of a header: a data frame is begun.
    Began(Side, Head),
    /// The LF of a trailer: a data frame has passed, with its payload.
    Passed(Side, Head, Octets),
    /// The LF of a SEQ.
    Told(Side, Seq),
}
