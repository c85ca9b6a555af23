//! Why a message of channel zero isn't settled.

use beep_upright::beep_frame::Rule;

/// Why a message of channel zero isn't settled.
#[derive(Clone, Copy, Debug, PartialEq, Eq)]
pub enum SettleError {
    /// A reply has not the form that its request asks for: this rule is broken, at the last octet
    /// of its last frame. The session is over.
    Broken(Rule, u64),
    /// Out of memory. The message still waits, and may be settled again.
    NoMemory,
}
