//! One life of a channel: the messages that are given and taken, and the frames and SEQs that carry
//! them (RFC 3080, sections 2.1 and 2.2; RFC 3081, section 3.1).
#![tactic(auto)]

mod ask_error;
mod channel;
pub mod laws;

pub use ask_error::AskError;
pub use channel::Channel;
