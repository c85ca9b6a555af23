//! How a stream ended at which a rule was broken.

use beep_standing::beep_frame::Rule;

/// The rule that was broken, the number of its octet, and how many octets were used since the last
/// whole frame or SEQ, both modulo 2^64.
#[derive(Clone, Copy, Debug)]
pub struct Stopped {
    pub rule: Rule,
    pub place: u64,
    pub left: u64,
}
