//! The number that bounds the pieces in which an end sends.

/// The most octets of payload in one frame that is sent.
pub const MAX_PIECE: u32 = 4096;
