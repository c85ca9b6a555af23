//! Links in memory, whose gifts and failures are planned, for tests and for plain programs. They
//! keep what happened, so a contract sees the log of each link and of all.
#![tactic(auto)]

mod asks;
mod events;
mod gives;
mod giving;
mod mem_link;
mod mem_wires;

pub use gives::{Give, Gives};
pub use mem_wires::{LINKS_MAX, MemWires};
