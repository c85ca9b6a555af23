//! A message's MIME header: where the body of a message begins, and the header that is written
//! (RFC 3080, section 2.2).
#![tactic(auto)]

mod header;
pub mod laws;
mod split;

pub use header::write_header;
pub use split::{body, split_entity};
