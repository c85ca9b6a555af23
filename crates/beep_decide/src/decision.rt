//! What the answer to a request of channel zero depends on, and the answer (RFC 3080, section
//! 2.3.1).

use beep_chars::Text;
use beep_journal::Role;
use beep_octets::Octets;

/// A profile that an end offers.
#[derive(Debug, Drop)]
pub struct Offer {
    /// What names the profile.
    pub uri: Text,
    /// Whether a start of it is tuning.
    pub tuning: bool,
}

/// A profile among those that an end offers.
#[derive(Clone, Copy, Debug)]
pub struct Placed {
    /// Its place, from 0.
    pub place: usize,
    /// Whether a start of it is tuning.
    pub tuning: bool,
}

/// What an answer depends on beside the request, as the request has come whole.
#[derive(Debug, Drop)]
pub struct Standing {
    /// Which end of the link this is.
    pub role: Role,
    /// What it offers, in order.
    pub offers: Vec<Offer>,
    /// The channels above zero that are live.
    pub live: Vec<u32>,
    /// The channels above zero of which a start was asked or is to be granted, and that are not yet
    /// live or refused.
    pub starting: Vec<u32>,
    /// The channels whose live life a close of the peer names that waits, 0 for one of 0.
    pub closing: Vec<u32>,
    /// Whether an own close of 0 waits, or one of the peer has come.
    pub leaving: bool,
}

/// What a request of channel zero is answered.
#[derive(Debug, Drop)]
pub enum Answer {
    /// ERR with this code.
    Refuse(u16),
    /// RPY with the URI of the offer at this place, from 0, and no content.
    Choose(usize),
    /// What the caller says, for the tuning offer at this place, from 0, and the content of the
    /// start.
    Tune(usize, Octets),
    /// RPY with `ok`, once nothing is owed.
    GrantClose,
}
