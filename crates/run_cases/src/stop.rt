//! Why the cases aren't run to their end.

use beep_cmd::beep_octets::NoMemory;
use std::alloc::AllocError;
use std::{fmt, io};

/// Why the cases aren't run to their end.
#[derive(Clone, Copy, Debug)]
pub enum Stop {
    /// A line of the cases isn't understood.
    Line,
    /// A case or a run found no memory.
    NoMemory,
    /// The cases couldn't be read, or what is said of them couldn't be written.
    Channel,
}

impl From<AllocError> for Stop {
    fn from(_: AllocError) -> Stop {
        Stop::NoMemory
    }
}

impl From<NoMemory> for Stop {
    fn from(_: NoMemory) -> Stop {
        Stop::NoMemory
    }
}

impl From<fmt::Error> for Stop {
    fn from(_: fmt::Error) -> Stop {
        Stop::NoMemory
    }
}

impl From<io::Error> for Stop {
    fn from(_: io::Error) -> Stop {
        Stop::Channel
    }
}
