//! What two ends gave and took in each life of each channel, as counts.
#![tactic(auto)]

mod account;
mod accounts;

pub use account::{Account, Count, Flow, Stage};
pub use accounts::{Accounts, note_lives};
