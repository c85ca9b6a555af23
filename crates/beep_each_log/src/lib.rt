//! That each log shows a session: whatever its octets are, the definitions leave none without one
//! (RFC 3080, section 2.2.1).
//!
//! A law alone: nothing here runs.
#![tactic(auto)]

pub mod laws;
