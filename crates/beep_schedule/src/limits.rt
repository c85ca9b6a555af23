//! The ranges of what an event says.

/// The most octets of a message: twice what a channel keeps.
pub const MAX_LEN: u32 = 2097152;

/// The greatest fill: an octet.
pub const MAX_FILL: u32 = 255;

/// The most octets in one piece of a wire, or in one take.
pub const MAX_COUNT: u32 = 65536;

/// The requests of a schedule that is made from a number.
pub const REQUESTS: u32 = 1000;

/// The channels of a schedule that is made from a number.
pub const CHANNELS: u32 = 8;

/// How many lengths a request of such a schedule may have, each a third of its octets.
pub const LENGTHS: u32 = 1000;

/// How far the next request's length is from the last, modulo `LENGTHS`.
pub const LENGTH_STEP: u32 = 617;

/// How many events such a schedule has.
pub const EVENTS: usize = 9027;

/// The octets of each reply of such a schedule.
pub const REPLY_LEN: u32 = 16;

/// The longest piece of the wire to B in such a schedule, and how far the next one's length is from
/// the last, modulo that.
pub const B_PIECE: u32 = 4096;

pub const B_STEP: u32 = 811;

/// The same of the wire to A.
pub const A_PIECE: u32 = 512;

pub const A_STEP: u32 = 409;
