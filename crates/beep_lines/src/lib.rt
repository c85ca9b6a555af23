//! What a listener keeps of answers that have come in part, and the lines that it writes of those
//! that are whole (RFC 3195, section 3).
#![tactic(auto)]

mod bodies;
mod counted;
mod counting;
mod lines;

pub use bodies::{Bodies, Body};
pub use counted::CountedSink;
pub use counting::Counting;
pub use lines::Lines;
