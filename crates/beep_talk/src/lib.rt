//! What an end of a link is to do, what it says in each life of a channel above zero, and what its
//! messages of channel zero are (RFC 3080, section 2.3.1; RFC 3195, section 3).
//!
//! The definitions stand in specs/, over the journal of one end, the latest item first, and know no
//! session's state. Beside them stands a plain, slow program whose contract they are.
#![tactic(auto)]

mod at_zero;
mod look;
mod message;
mod plan;
mod talking;
mod words;

pub use at_zero::{Desk, OwedAnswer, ZeroMessage, answer_message, kind_of, zero_message};
pub use look::{
    gathered, is_drained, life_under_way, mark_count, message_count, position_of, tag_of,
};
pub use message::{Message, put_last};
pub use plan::{Command, Plan};
pub use talking::{has_profile, line_at, talk};
pub use words::Words;
