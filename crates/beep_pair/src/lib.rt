//! Two sessions and the two wires between them, driven by a schedule: what each event did, and what
//! was given and taken in each life.
#![tactic(auto)]

mod acts;
mod command;
mod deed;
mod drain;
mod hear;
mod lives;
mod message;
mod pair;
mod speak;
mod take;
mod uri;
mod wire;

pub use beep_report::Answer;
pub use beep_two_sessions::beep_session::Limits;
pub use command::{Outcome, report, summary};
pub use pair::Pair;

// Crates below, which are named through this one.
pub use beep_schedule;
pub use beep_two_sessions::{beep_journal, beep_octets, beep_session};
