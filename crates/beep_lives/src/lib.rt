//! Channel zero and the live channels of a session (RFC 3080, sections 2.2.1 and 2.3.1).
#![tactic(auto)]

mod flags;
mod lives;

pub use lives::Lives;
