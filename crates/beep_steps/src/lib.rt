//! The steps of a session over a link, which both ends of it take (RFC 3080, section 2.2.1; RFC
//! 3081, section 3.1).
//!
//! What goes out, what comes, what is taken and what is settled: each step leaves the session
//! standing for what the log of its link shows.
#![tactic(auto)]

mod fit;
mod hearing;
pub mod laws;
mod refusing;

pub use fit::{are_fit, limits_of, reads_of};
pub use hearing::{Came, hear_next, is_open, say_next, settle_message, take_part};
pub use refusing::denial;

// Crates below, which are named through this one.
pub use beep_desk::prof_raw;
pub use beep_link;
pub use beep_link::{beep_memory, beep_wires};
pub use beep_session;
pub use beep_session::{
    beep_answering, beep_channel, beep_chars, beep_decide, beep_frame, beep_inbox, beep_journal,
    beep_mgmt, beep_octets, beep_outbox, beep_settings, beep_speaking,
};
