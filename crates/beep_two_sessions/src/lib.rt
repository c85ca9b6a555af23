//! Two sessions and the octets between them: what the calls of each do is a step of one relation,
//! and in no world that is reached does an end find a broken rule (RFC 3080, sections 2.1 to 2.3;
//! RFC 3081, section 3).
//!
//! Definitions and laws alone: nothing here runs.
#![tactic(auto)]

pub mod laws;

// Crates below, which are named through this one.
pub use beep_session;
pub use beep_session::{
    beep_answering, beep_channel, beep_chars, beep_decide, beep_frame, beep_inbox, beep_journal,
    beep_octets, beep_outbox, beep_speaking,
};
