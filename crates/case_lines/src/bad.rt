//! Why a case isn't tried.

use beep_octets::NoMemory;
use std::alloc::AllocError;

/// Why a case isn't tried.
#[derive(Clone, Copy, Debug, PartialEq, Eq)]
pub enum Bad {
    /// A field is missing, or isn't what is to stand at its place.
    Field,
    /// Out of memory.
    NoMemory,
}

impl From<NoMemory> for Bad {
    fn from(_error: NoMemory) -> Bad {
        Bad::NoMemory
    }
}

impl From<AllocError> for Bad {
    fn from(_error: AllocError) -> Bad {
        Bad::NoMemory
    }
}
