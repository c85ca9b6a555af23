//! The commands of `beep`, over any source, sink and links: words, statuses and last lines.
#![tactic(auto)]

mod closing;
mod counting;
mod listen;
mod pair;
mod recorded;
mod replay;
mod run;
mod send;

pub use run::beep_run;

// Crates below, which are named through this one.
pub use beep_runs::{beep_memory, beep_octets, beep_wires};
pub use beep_show::{beep_input, beep_words, status};
