//! A judge of both directions of a session, as one end saw it: the first rule that each header, SEQ
//! and frame breaks (RFC 3080, section 2.2.1; RFC 3081, section 3.1).
//!
//! What each rule means is said in beep_journal, over the whole journal of the session. A `Judge`
//! keeps the live lives and the requests of channel zero that wait, and answers exactly that.
#![tactic(auto)]

mod begin;
mod channels;
mod flow;
mod grant;
mod half;
mod judge;
mod life;
mod pass;
mod said;
mod seq;
mod session;

pub use judge::Judge;
