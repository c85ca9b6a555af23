//! When the live channels of a session stand for its journal (RFC 3080, section 2.3.1).
#![tactic(auto)]

pub mod laws;

// Crates below, which are named through this one.
pub use beep_channel;
pub use beep_chars;
pub use beep_frame;
pub use beep_history;
pub use beep_inbox;
pub use beep_journal;
pub use beep_lives;
pub use beep_mgmt;
pub use beep_octets;
pub use beep_outbox;
pub use beep_seq;
pub use beep_text;
pub use beep_turns;
