//! The plain, slow program that decides what a text is: one that says an element, or one that is
//! refused, and then where (RFC 3080, section 6.4).
//!
//! It is a use of the reader in `beep_text`, and no second opinion beside it. What is independent
//! of the reader is the definition that both answer, and the tables of texts in the tests, which
//! were worked out by hand.
#![tactic(auto)]

mod outcome;

pub use outcome::{Outcome, decide};
