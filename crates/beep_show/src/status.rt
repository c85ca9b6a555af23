//! The statuses with which `beep` ends (docs/COMMANDS.md).

/// All went well.
pub const FINE: u8 = 0;

/// The words are no command.
pub const USAGE: u8 = 1;

/// The input isn't what the command reads, or what was written breaks a rule.
pub const BAD: u8 = 2;

/// What was read breaks a rule.
pub const BROKEN: u8 = 3;

/// The input couldn't be read.
pub const READ_FAULT: u8 = 4;

/// The output couldn't be written.
pub const WRITE_FAULT: u8 = 5;

/// The link failed, or none was given.
pub const WIRE_FAULT: u8 = 6;

/// Memory ran out.
pub const NO_MEMORY: u8 = 7;

/// The peer refused.
pub const REFUSED: u8 = 8;

/// What was read ended within a frame, or before the session was released.
pub const CUT: u8 = 9;

/// As many reads in a row were quiet as may be.
pub const IDLE: u8 = 10;

/// As many octets were read as may be.
pub const SPENT: u8 = 11;
