//! What this project takes of names, where the standard sets no bound.

/// The most octets that a name has, so that a name is held in little memory.
pub const MAX_NAME: usize = 64;

/// The most characters of a URI that is offered. Choice: RFC 3080 sets none (docs/DECISIONS.md).
pub const MAX_URI: usize = 255;
