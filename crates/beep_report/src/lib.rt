//! What is written of two ends that a schedule drives: a line for each event, the totals of all
//! lives, and the summary of a run.
#![tactic(auto)]

mod answer;
mod put;
mod summary;
mod words;

pub use answer::Answer;
pub use summary::put_summary;
pub use words::{
    put_act_line, put_drain_line, put_get_line, put_send_line, put_still, put_take_line, put_totals,
};

// Crates below, which are named through this one.
pub use beep_tally;
