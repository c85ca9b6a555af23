//! Two ends of a session: what each may send, and that nothing of it breaks a rule where it arrives
//! (RFC 3080, sections 2.2 and 2.3; RFC 3081, section 3).
//!
//! Definitions and laws alone: nothing here runs.
#![tactic(auto)]

pub mod laws;
