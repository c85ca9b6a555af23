//! What an end says in a life above channel zero is what it asks there first, and then a reply to
//! each request of the peer (RFC 3080, section 2.1; RFC 3195, section 3).
//!
//! Definitions and laws alone: nothing here runs.
#![tactic(auto)]

pub mod laws;
