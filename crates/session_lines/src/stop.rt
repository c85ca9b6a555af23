//! Why a run stops before its end.

use beep_session::beep_octets::NoMemory;
use std::alloc::AllocError;
use std::io;

/// Why a run stops before its end. No case is wrong then.
#[derive(Clone, Copy, Debug)]
pub enum Stop {
    /// Out of memory.
    NoMemory,
    /// The cases couldn't be read, or what came of them couldn't be written.
    Streams,
    /// What a session is begun with isn't what it may have.
    NoSession,
}

impl From<NoMemory> for Stop {
    fn from(_: NoMemory) -> Stop {
        Stop::NoMemory
    }
}

impl From<AllocError> for Stop {
    fn from(_: AllocError) -> Stop {
        Stop::NoMemory
    }
}

impl From<io::Error> for Stop {
    fn from(_: io::Error) -> Stop {
        Stop::Streams
    }
}
