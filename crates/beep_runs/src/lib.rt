//! Runs of an end over one link that is recorded: the link is asked for, the session held and the
//! link shut, and the record of its log is made (docs/FORMATS.md, "Records").
#![tactic(auto)]

pub mod laws;
mod recorded;
mod told;

pub use recorded::{listen_recorded, send_recorded};
pub use told::{taken_lines, tell_session};

// Crates below, which are named through this one.
pub use beep_listener;
pub use beep_listener::{beep_memory, beep_octets, beep_settings, beep_wires, prof_raw};
pub use beep_recorder::beep_record;
pub use beep_sender;
