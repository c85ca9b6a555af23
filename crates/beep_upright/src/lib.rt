//! What an end has still to say on channel zero, and that it may say it as its turn comes (RFC
//! 3080, sections 2.3.1.2 and 2.3.1.3).
//!
//! Definitions and laws alone: nothing here runs.
#![tactic(auto)]

pub mod laws;

// Crates below, which are named through this one.
pub use beep_lawful;
pub use beep_management;
pub use beep_management::{
    beep_asked, beep_channel, beep_chars, beep_decide, beep_frame, beep_history, beep_inbox,
    beep_journal, beep_lives, beep_mgmt, beep_octets, beep_outbox, beep_seq, beep_text, beep_turns,
};
pub use beep_speaking;
