//! The words of a command line: which words are a command, and what its options say.
#![tactic(auto)]

mod command;
mod faults;
mod form;
pub mod laws;
mod options;
mod reading;
mod texts;

pub use command::{Command, PairSettings, ShowSettings, Topic, command_of};
pub use faults::{Fault, fault_of};
pub use form::Form;
pub use texts::{VERSION_TEXT, help_text};
