//! What an end was made with (RFC 3080, section 2.1; RFC 3081, section 3.1).

use beep_journal::Role;

/// What an end was made with, as far as what it may send depends on it.
#[derive(Clone, Copy, Debug)]
pub struct Terms {
    /// Which end of the link it is.
    pub role: Role,
    /// The octets of its receive window, 4096 to 65536.
    pub window: u32,
    /// The most octets of payload in a frame that it sends, 1 to 4096.
    pub piece: u32,
}
