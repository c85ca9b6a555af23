//! What this project takes of the elements of channel zero, where the standard sets no bound.

/// The most octets of a profile's content that are kept, so that profiles take little memory.
pub const MAX_CONTENT: usize = 4096;

/// The greatest code, which has three digits.
pub const MAX_CODE: u16 = 999;

/// The most digits of a number of 32 bits.
pub const MAX_DIGITS: usize = 10;

/// The digits of a code (RFC 3080, section 8).
pub const CODE_DIGITS: usize = 3;
