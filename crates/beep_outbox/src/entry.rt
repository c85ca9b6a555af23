//! What an outbox keeps of a message beside its octets.

use beep_frame::Tag;

/// What is left of one message.
#[derive(Clone, Copy, Debug)]
pub struct Entry {
    /// What its octets are marked with.
    pub tag: Tag,
    /// How many octets are left.
    pub len: u32,
}
