//! Why a message was not given.
ghost use Rattle.std.specs.Prelude.{◌≡◌};

use beep_octets::NoMemory;

/// Why a message was not given. The messages before it stay.
#[derive(Clone, Copy, Debug, PartialEq, Eq)]
pub enum GiveError {
    /// With its octets there would be more than the limit. It may find room after a cut.
    Full {
        /// How many octets are unsent.
        queued: u32,
        /// How many there may be.
        limit: u32,
    },
    /// Out of memory; a later call may succeed.
    NoMemory,
}

impl From<NoMemory> for GiveError {
    ghost use Rattle.beep_outbox.specs.declared.give_error.GiveError.{GiveError};

    ghost from_gives = { λ _ e. e ≡ GiveError.NoMemory };

    fn from(_error: NoMemory) -> GiveError {
        GiveError::NoMemory
    }
}
