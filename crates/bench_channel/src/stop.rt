//! Why a run stops early.
use beep_octets::NoMemory;
use std::alloc::AllocError;

/// Why a run stops early.
#[derive(Clone, Copy, Debug)]
pub(crate) enum Stop {
    /// The words are no run.
    Words,
    /// A call was refused.
    Refused,
    /// A channel or a text found no memory.
    NoMemory,
}

impl From<NoMemory> for Stop {
    fn from(_: NoMemory) -> Stop {
        Stop::NoMemory
    }
}

impl From<AllocError> for Stop {
    fn from(_: AllocError) -> Stop {
        Stop::NoMemory
    }
}
