//! What an end says on channel zero: its greeting, and what it answers a request (RFC 3080, section
//! 2.3.1); and what a reply to its own request is settled as.
#![tactic(auto)]

mod answer;
mod offers;
mod preparing;
mod settled;
mod settling;

pub use answer::{close_of, close_text, greeting_text, message_of};
pub use offers::{MAX_OFFERS, Offers};
pub use preparing::{Prepared, prepare};
pub use settled::Settled;
pub use settling::settled_as;
