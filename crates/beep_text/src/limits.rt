//! What this project takes of elements, where the standard sets no bound.

use beep_chars::MAX_NAME;

/// The most elements that stand within one another, so that a peer sets no depth of calls.
pub const MAX_NESTED: usize = 16;

/// The most octets of a body that is read: those of one message on channel zero.
pub const MAX_TEXT: usize = 65536;

/// The octets of a name that has room for one more alone.
pub(crate) const LONG_NAME: usize = MAX_NAME - 1;
