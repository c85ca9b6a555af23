//! The reply codes that have a text of this project's (RFC 3080, section 8).

/// The request is granted.
pub const SUCCESS: u16 = 200;

/// The request isn't granted now, since something else goes on.
pub const BUSY: u16 = 450;

/// What the request began was given up.
pub const ABORTED: u16 = 451;

/// The request can't be read.
pub const BAD_SYNTAX: u16 = 500;

/// A value in the request can't stand there.
pub const BAD_PARAMETERS: u16 = 501;

/// What the request asks for isn't offered.
pub const NOT_IMPLEMENTED: u16 = 504;

/// The peer may not ask this.
pub const NOT_AUTHORIZED: u16 = 537;

/// The request isn't granted.
pub const NOT_TAKEN: u16 = 550;

/// A number in the request can't stand there.
pub const INVALID: u16 = 553;
