//! What one take gives.

use beep_frame::Tag;

/// Octets of one message that were taken together.
#[derive(Clone, Copy, Debug, PartialEq, Eq)]
pub struct Part {
    /// What the octets are marked with.
    pub tag: Tag,
    /// How many octets, 0 to 4294967295.
    pub len: u32,
    /// Whether the end of the message was taken with them.
    pub ended: bool,
}
