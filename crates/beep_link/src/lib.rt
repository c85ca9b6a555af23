//! The turns of an end over one link.
//!
//! A turn says all that is due, then looks whether the session has ended, and then reads once. All
//! octets of a read are used before anything more is said. What is said, and what the octets mean,
//! is a matter of the end.
#![tactic(auto)]

mod buffers;
mod end;
mod ended;
mod left;
mod read;
mod say;
mod turns;

pub use buffers::{BUFFER, Buffers, PART, takes_more};
pub use end::{End, FRAME_ROOM};
pub use ended::{Ended, Stop};
pub use left::{Left, Reads};
pub use say::ROUNDS;
pub use turns::{run_turns, turn};

// Crates below, which are named through this one.
pub use beep_memory;
pub use beep_wires;
