//! The number that bounds what one frame brings.

/// The most octets of payload in one received frame, and of one message on channel zero.
pub const MAX_PAYLOAD: u32 = 65536;
