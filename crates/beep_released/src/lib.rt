//! A sender that was released, and that the peer refused nothing, had its close of channel 1
//! granted (RFC 3080, section 2.3.1.3; RFC 3195, section 3.1).
//!
//! Laws alone: nothing here runs.
#![tactic(auto)]

pub mod laws;
