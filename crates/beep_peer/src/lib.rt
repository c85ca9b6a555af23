//! A peer: what was heard, the live channels and what is kept of channel zero, and what each step
//! makes of the journal for which they stand (RFC 3080, sections 2.2.1 and 2.3.1; RFC 3081, section
//! 3.1).
#![tactic(auto)]

mod acts;
mod beginning;
mod grant;
mod letting;
mod peer;
mod refusals;
mod room;
mod settle;
mod settle_error;
mod speech;
mod standing;
mod went;

pub use acts::start_of;
pub use letting::let_go;
pub use peer::Peer;
pub use refusals::{CloseError, ReleaseError, StartError};
pub use settle::{settle_reply, settle_request};
pub use settle_error::SettleError;
pub use speech::speak;
pub use standing::stand;

// Crates below, which are named through this one.
pub use beep_answering;
pub use beep_hearing;
pub use beep_upright::{
    beep_channel, beep_chars, beep_decide, beep_frame, beep_history, beep_inbox, beep_journal,
    beep_lawful, beep_lives, beep_management, beep_mgmt, beep_octets, beep_outbox, beep_seq,
    beep_speaking, beep_text,
};
