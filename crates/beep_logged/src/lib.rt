//! A session on the log of its link: what the log shows, and that what was written on it was lawful
//! (RFC 3080, section 2.2.1; RFC 3081, section 3.1).
//!
//! Definitions and laws alone: nothing here runs.
#![tactic(auto)]

pub mod laws;
