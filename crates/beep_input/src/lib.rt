//! An input that is read whole: its octets, or its lines, which are listed as they come.
#![tactic(auto)]

pub mod laws;
mod lines;
mod listing;
mod whole;

pub use lines::{Unlisted, line_past, read_lines};
pub use whole::{MAX_INPUT, Unread, read_input};
