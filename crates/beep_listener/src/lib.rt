//! The end of a session over one link that listens: it takes lines of syslog, by the profile RAW
//! (RFC 3195, section 3).
#![tactic(auto)]

mod asking;
mod listener;
mod listening;
mod pruning;

pub use beep_lines::{CountedSink, Counting};
pub use beep_steps::are_fit;
pub use beep_steps::beep_link::Ended;
pub use listening::listen_end;

// Crates below, which are named through this one.
pub use beep_steps::{beep_frame, beep_memory, beep_octets, beep_settings, beep_wires, prof_raw};
