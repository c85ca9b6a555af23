//! One peer of a session: what it keeps, what it does with the octets that it is fed, what it sends
//! next, and what a program may do with its channels (RFC 3080, sections 2.1 to 2.3; RFC 3081,
//! section 3.1).
#![tactic(auto)]

mod event;
mod handles;
mod limits;
mod listing;
mod session;

pub use beep_giving::beep_answering::{MAX_OFFERS, Offers, Settled};
pub use beep_giving::beep_chars::MAX_URI;
pub use beep_giving::beep_peer::{CloseError, ReleaseError, SettleError, StartError};
pub use beep_settings::MAX_PIECE;
pub use event::Event;
pub use handles::{Answering, ClosingChannel, Duty, OpenChannel, Owed};
pub use limits::{GREATEST_SIZE, Limits};
pub use listing::{is_uri, one_profile};
pub use session::Session;

// Crates below, which are named through this one.
pub use beep_giving::{
    beep_answering, beep_channel, beep_chars, beep_decide, beep_frame, beep_history, beep_inbox,
    beep_journal, beep_lawful, beep_mgmt, beep_octets, beep_outbox, beep_seq, beep_speaking,
};
pub use beep_settings;
