//! What the log of a link shows, and whether an end waited there only where nothing of its script
//! was due, by plain look-back over the log (RFC 3080, section 2; RFC 3081, section 3.1).
//!
//! The definitions stand below, in specs/ of `beep_journal` and `beep_script`. No session runs
//! this: it is they in code, slow, so that they can be tried on short logs.
#![tactic(auto)]

mod prompt;
mod shown;

pub use prompt::{is_idle, is_prompt};
pub use shown::Shown;
