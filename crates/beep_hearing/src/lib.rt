//! What a session does with the octets that it is fed (RFC 3080, sections 2.2.1 and 2.3.1; RFC
//! 3081, section 3.1).
#![tactic(auto)]

mod ear;
mod hear;
mod heard;
pub mod laws;
mod stopped;
mod text;

pub use ear::Ear;
pub use heard::Heard;
pub use text::ZeroText;
