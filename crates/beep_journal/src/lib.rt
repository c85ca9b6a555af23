//! What happens in a session of BEEP, as its two ends see it: the log of a link, the journal of a
//! session, what channel zero says, the lives of channels, and which rule is the first that a peer
//! breaks (RFC 3080, sections 2.1 to 2.3; RFC 3081, section 3).
//!
//! The definitions stand in specs/, over the journal of one end, the latest item first, and know no
//! session's state. Beside them stands a plain, slow program whose contract they are.
#![tactic(auto)]

mod event;
mod form;
mod item;
pub mod laws;
mod of_life;
mod of_lives;
mod role;
mod verdict;
mod zero;

pub use event::LifeEvent;
pub use form::has_form;
pub use of_life::{history, is_released, is_there, life, life_now};
pub use of_lives::{has_ended, is_live, life_named, lives};
pub use role::Role;
pub use verdict::{StartPlace, broken_content, broken_head, broken_seq};
pub use zero::{asked, completed, completes_form, events, message_said, said_at, zero_history};
