//! The numbers that bound what one end takes on in one life of a channel.

/// The most octets of one message on a channel above zero. It bounds what an end assembles.
pub const MAX_MESSAGE: u32 = 1048576;

/// The most requests of one direction of a life that wait for their reply. An end keeps that many
/// numbers.
pub const MAX_REQUESTS: u32 = 1024;

/// The most unfinished answers of one reply. An end keeps that many answer numbers.
pub const MAX_ANSWERS: u32 = 64;
