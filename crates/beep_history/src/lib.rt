//! The history of one life of a channel: what its frames mean as messages, requests, replies and
//! answers,
//! and which rule an arriving frame is the first to break (RFC 3080, sections 2.1 and 2.2; RFC
//! 3081, section 3).
//!
//! Each word is stated in specs/ over the whole history, the latest item first. Beside the
//! definitions stands
//! a plain, slow program whose contract they are. `journal_cases` has a table of short histories
//! on which it is run.
#![tactic(auto)]

mod history;
mod journal;
pub mod laws;
mod limits;
mod verdict;
mod windows;

pub use history::{
    has_answer, has_passed_whole, is_new_request, last_frame, latest_request, request_count,
};
pub use journal::{JournalItem, Side};
pub use limits::{MAX_ANSWERS, MAX_MESSAGE, MAX_REQUESTS};
pub use verdict::{broken_rule, broken_within, exchange_rule, is_limit, with_octets};
pub use windows::{octets_acked, octets_passed};
