//! What an end gave to channel zero, and what its frames therefore say (RFC 3080, section 2.3.1).
#![tactic(auto)]

pub mod laws;
