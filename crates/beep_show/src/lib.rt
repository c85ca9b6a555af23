//! `beep show`: the frames of an input, one a line, and the words of the last line that each
//! command ends with.
#![tactic(auto)]

mod ending;
mod listing;
mod showing;
pub mod status;
mod text;
mod zero;

pub use showing::show;
pub use text::{
    LAST_ROOM, append_broken, append_idle, append_numbered, append_refused, append_written,
};

// Crates below, which are named through this one.
pub use beep_input;
pub use beep_words;
