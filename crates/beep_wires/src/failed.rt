//! The failure of a read or a write.

/// A read or a write failed. A later call may succeed.
#[derive(Clone, Copy, Debug, PartialEq, Eq)]
pub struct Failed;
