//! What a program gives and takes in a live life above zero, and what each call makes of the
//! journal for which a peer stands (RFC 3080, sections 2.1 and 2.6.1).
#![tactic(auto)]

mod giving;
mod looks;
mod taking;

pub use giving::{ask, give_reply};
pub use looks::{begun_answers, has_untaken, owes};
pub use taking::take;

// Crates below, which are named through this one.
pub use beep_peer;
pub use beep_peer::{
    beep_answering, beep_channel, beep_chars, beep_decide, beep_frame, beep_hearing, beep_history,
    beep_inbox, beep_journal, beep_lawful, beep_lives, beep_mgmt, beep_octets, beep_outbox,
    beep_seq, beep_speaking, beep_text,
};
