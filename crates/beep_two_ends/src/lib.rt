//! Two ends of one life of a channel: what each may send, and that nothing of it breaks a rule
//! where it arrives (RFC 3080, section 2.2.1; RFC 3081, section 3).
//!
//! Definitions and laws alone: nothing here runs.
#![tactic(auto)]

pub mod laws;
