//! The messages of one life of a channel that were given and not wholly sent, as a list that is cut
//! into frames (RFC 3080, sections 2.1 and 2.2.1.1).
#![tactic(auto)]

mod entry;
mod give_error;
pub mod laws;
mod outbox;
mod ring;

pub use give_error::GiveError;
pub use outbox::{MAX_UNLIMITED, Outbox};
