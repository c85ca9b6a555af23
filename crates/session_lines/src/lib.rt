//! A session as lines of text: the words for what it answers, and what a peer says to it, by a line
//! for each frame.
#![tactic(auto)]

mod answer;
mod speech;
mod stop;
mod words;

pub use answer::{
    Answer, kind_name, number_in, of_ask, of_close, of_give_error, of_release, of_settled,
    of_start, push_number, push_numbered, rule_name,
};
pub use speech::{Speech, URI};
pub use stop::Stop;
pub use words::Words;
