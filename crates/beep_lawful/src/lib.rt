//! What an end of a session may send, and what is due (RFC 3080, sections 2.1 to 2.3; RFC 3081,
//! section 3).
//!
//! The definitions stand in specs/, over the journal of one end, the latest item first, and know no
//! session's state. Beside them stands a plain, slow program whose contract they are.
#![tactic(auto)]

mod breach;
mod closing;
mod frames;
mod heads;
mod lawful;
pub mod laws;
mod limits;
mod outgoing;
mod seqs;
mod terms;
mod tuning;
mod windows;

pub use breach::Breach;
pub use lawful::{is_lawful, unlawful_item};
pub use limits::MESSAGE_NUMBERS;
pub use outgoing::{due, open_octets};
pub use terms::Terms;
