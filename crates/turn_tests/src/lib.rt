//! Turns of two ends in one loop, proved by the contract of one turn, in a crate of their own:
//! nothing of beep_link is proved again for several links.
#![tactic(auto)]

mod two;

pub use two::{Linked, Which, take_turns};
