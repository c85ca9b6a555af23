//! The limits of windows (RFC 3081, section 3.1).

/// The octets that each direction of a channel may carry before the first SEQ: RFC 3081 sets it.
pub const INITIAL_WINDOW: u32 = 4096;

/// The least window of an end, in octets: a smaller one could not keep the initial window.
pub const MIN_WINDOW: u32 = 4096;

/// The greatest window of an end, in octets: it bounds what a peer can make this end hold.
pub const MAX_WINDOW: u32 = 65536;
