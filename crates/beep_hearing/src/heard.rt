//! What a feed answers.

use beep_standing::beep_frame::{Head, Rule};

/// What came of the octets that a feed used.
#[derive(Clone, Copy, Debug, PartialEq, Eq)]
pub enum Heard {
    /// All octets were used.
    More,
    /// A frame of this channel, above zero, has arrived, also where its life has ended meanwhile.
    Arrived(u32),
    /// The last frame of a message of channel zero is whole and waits. Until it has passed, each
    /// feed answers this again and uses nothing.
    Zero(Head),
    /// The last octet used broke this rule. Its number is the place, counted from 0, modulo 2^64.
    /// Each later feed answers the same and uses nothing.
    Broken(Rule, u64),
    /// Out of memory: the octets before the count were used, and the rest can be fed again.
    NoMemory,
}

impl Heard {
    ghost use Rattle.std.specs.Prelude.{◌≡◌, ◌↔◌, true};
    ghost use Rattle.beep_hearing.specs.declared.heard.Heard.{Heard as HeardValue};

    /// Whether all octets were used.
    pub(crate) fn is_more(&self) -> bool
        ensures { (result ≡ true) ↔ (self.now ≡ HeardValue.More) }
    {
        match self {
            Heard::More => true,
            Heard::Arrived(_) | Heard::Zero(_) | Heard::Broken(..) | Heard::NoMemory => false,
        }
    }
}
