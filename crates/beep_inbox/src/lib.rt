//! What arrived in one life of a channel and was not taken, as a list of marks (RFC 3080, sections
//! 2.1 and 2.2.1.1).
#![tactic(auto)]

mod inbox;
pub mod laws;
mod part;
mod queue;

pub use inbox::Inbox;
pub use part::Part;
