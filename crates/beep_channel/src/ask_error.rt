//! Why a request was not given.

ghost use Rattle.std.specs.Prelude.{◌≡◌};

use beep_outbox::GiveError;

/// Why a request was not given. What was given before it stays.
#[derive(Clone, Copy, Debug, PartialEq, Eq)]
pub enum AskError {
    /// The life is being closed. A channel alone never answers it.
    Closing,
    /// 1,024 own requests lack a wholly taken reply. It may be given after a take.
    TooManyAsked,
    /// With its octets there would be more unsent than the limit. It may find room after a cut.
    Full {
        /// How many octets are unsent.
        queued: u32,
        /// How many there may be.
        limit: u32,
    },
    /// Out of memory; a later call may succeed.
    NoMemory,
}

impl AskError {
    ghost use Rattle.beep_channel.specs.Held.{ask_error};

    /// The like of what an outbox refuses.
    pub(crate) fn of(error: GiveError) -> AskError
        ensures { result ≡ ask_error error }
    {
        match error {
            GiveError::Full { queued, limit } => AskError::Full { queued, limit },
            GiveError::NoMemory => AskError::NoMemory,
        }
    }
}
