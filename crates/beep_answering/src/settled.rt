//! What a message of channel zero was settled as.

use beep_management::beep_octets::Octets;

/// What the message that waited says, once it is settled (RFC 3080, section 2.3.1).
#[derive(Debug, Drop)]
pub enum Settled {
    /// The peer's greeting.
    Greeted,
    /// An ERR in place of the peer's greeting, with this code.
    Denied(u16),
    /// An own start was granted: a life of this number has begun, with the profile at this place
    /// among those that were listed, from 0, and what came with it.
    Begun {
        number: u32,
        chosen: u32,
        content: Octets,
    },
    /// An own start was refused.
    NotBegun {
        number: u32,
        code: u16,
    },
    /// The peer starts a channel, which is granted with the offer at this place, from 0.
    PeerStarts {
        number: u32,
        offer: u32,
    },
    /// A request of the peer that is refused.
    PeerRefused {
        code: u16,
    },
    /// The peer closes a channel, or the session by 0: the `ok` goes out once nothing is owed.
    PeerCloses {
        number: u32,
        code: u16,
    },
    /// An own close was granted: the life of this number has ended.
    Closed {
        number: u32,
    },
    /// An own close was refused.
    NotClosed {
        number: u32,
        code: u16,
    },
    /// The reply to an own close whose life had ended: the code of an ERR, none of an `ok`.
    Stale(Option<u16>),
    /// An own close of 0 was granted: the session is released.
    Released,
}
