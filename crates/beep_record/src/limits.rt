//! The limits of a record.

/// The most octets that one line of a record has. A longer piece has several lines.
pub const MAX_ENTRY: usize = 4096;

/// The greatest status that a record ends with.
pub const MAX_STATUS: u8 = 11;
