//! What a listener serves: each frame that it hears above channel zero is of a life that began with
//! its profile (RFC 3080, section 2.3.1.2; RFC 3195, section 3).
//!
//! Definitions and laws alone: nothing here runs.
#![tactic(auto)]

pub mod laws;
