//! The requests of channel zero that wait for their reply, as a session keeps them of each side
//! (RFC 3080, section 2.3.1).
//!
//! Of each it keeps what it says, whether it is the implied one, and of a close above 0 whether
//! the life that it names is live. What that means is said over the history of channel zero, in
//! specs/; the laws say what each item of it makes of both queues.
#![tactic(auto)]

pub mod laws;
mod request;
mod waiting;

pub use request::Request;
pub use waiting::Waiting;

// Crates below, which are named through this one.
pub use beep_decide;
pub use beep_standing::{
    beep_channel, beep_chars, beep_frame, beep_history, beep_inbox, beep_journal, beep_lives,
    beep_mgmt, beep_octets, beep_outbox, beep_seq, beep_text, beep_turns,
};
