//! What an end sets for itself.

/// The greatest size in octets that a refusal names: a message that has more is said to have so
/// many.
pub const GREATEST_SIZE: u32 = u32::MAX;

/// What an end sets for itself.
#[derive(Clone, Copy, Debug)]
pub struct Limits {
    /// The own window of each channel, in octets.
    pub window: u32,
    /// The most octets of payload in one frame that is sent, from 1 to `MAX_PIECE`.
    pub piece: u32,
}
