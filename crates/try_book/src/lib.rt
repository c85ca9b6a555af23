//! What a run over two sessions in memory keeps beside them: what was given and taken, life by
//! life, the journals of both ends, and why it stops.
//!
//! It is the bookkeeping of `try_session`, and has no contract.
#![tactic(auto)]

mod book;
mod counts;
mod log;
mod stop;

pub use book::{Book, Who, octet_of};
pub use counts::Counts;
pub use log::Log;
pub use stop::{Fault, Stop};
