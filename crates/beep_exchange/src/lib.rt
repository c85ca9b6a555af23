//! The rules of one life of a channel on requests and replies, judged from a bounded memory
//! (RFC 3080, sections 2.1 and 2.2.1).
//!
//! What each rule means is said in beep_history, over the whole history of the life. An `Exchange`
//! keeps
//! a few counts and answers exactly that.
#![tactic(auto)]

mod answer;
mod exchange;
mod given;
pub mod laws;
mod way;

pub use exchange::Exchange;
