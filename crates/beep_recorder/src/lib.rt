//! A recorder: links that are passed on, while the log of one of them is kept.
//!
//! What the links do stays theirs. What is kept is the link's log, and its record the record of
//! that link, as long as memory is there.
#![tactic(auto)]

mod keep;
mod known;
pub mod laws;
mod recorder;

pub use known::Known;
pub use recorder::Recorder;

// Crates below, which are named through this one.
pub use beep_record;
