//! Why a run stops early.
use beep_session::beep_octets::NoMemory;

/// Why a run stops early.
#[derive(Clone, Copy, Debug)]
pub(crate) enum Stop {
    /// The words are no run.
    Words,
    /// A call was refused that is never refused here.
    Refused,
    /// A session or a text found no memory.
    NoMemory,
}

impl From<NoMemory> for Stop {
    fn from(_: NoMemory) -> Stop {
        Stop::NoMemory
    }
}
