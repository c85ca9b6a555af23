//! What a session keeps of channel zero, and what its script lists there: a request is decided
//! alike by both (RFC 3080, section 2.3.1).
//!
//! Definitions and laws alone: nothing here runs.
#![tactic(auto)]

pub mod laws;

// Crates below, which are named through this one.
pub use beep_script::prof_raw;
