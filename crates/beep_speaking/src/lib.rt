//! What a session sends next (RFC 3080, section 2.6.1; RFC 3081, section 3.1.4).
#![tactic(auto)]

mod emit;
pub mod laws;

pub use emit::{Emit, emit_next};
