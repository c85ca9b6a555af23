//! Cases as lines of text: the fields of a line, the octets and the numbers that they stand for,
//! the words of an answer, and a run over all cases of a standard input.
#![tactic(auto)]

mod bad;
mod escapes;
mod fields;
mod tries;
mod words;

pub use bad::Bad;
pub use escapes::octets_of;
pub use fields::{Fields, number_of};
pub use tries::{Answers, try_cases};
pub use words::{begin, put_number, put_word, put_yes};
