//! What an end keeps of channel zero beside the channel itself (RFC 3080, section 2.3.1): the
//! requests of both sides that wait, the own requests that aren't sent, the answers that aren't
//! given, and the channels that are starting.
#![tactic(auto)]

mod answers;
pub mod laws;
mod management;
mod naming;
mod starting;
mod wait;

pub use answers::Answer;
pub use management::{Answered, Management};
pub use wait::Wait;

// Crates below, which are named through this one.
pub use beep_asked;
pub use beep_asked::{
    beep_channel, beep_chars, beep_decide, beep_frame, beep_history, beep_inbox, beep_journal,
    beep_lives, beep_mgmt, beep_octets, beep_outbox, beep_seq, beep_text, beep_turns,
};
