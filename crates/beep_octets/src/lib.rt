//! A list of octets with room after it. Messages, texts and what links carry are such lists. And a
//! short text that is put together from its end.
#![tactic(auto)]

mod front;
mod octets;

pub use front::{FRONT_MAX, Front};
pub use octets::{NoMemory, Octets};
