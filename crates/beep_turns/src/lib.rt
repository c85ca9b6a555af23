//! Whose turn it is among the channels of a session (RFC 3081, section 3.1.4).
#![tactic(auto)]

mod flags;
mod turns;

pub use flags::first;
pub use turns::{MAX_CHANNELS, Turns};
