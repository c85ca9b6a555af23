//! Schedules of what two ends of a session do and what their wires bring, as a text.
//!
//! The text of a schedule is that of its events, in specs/. The reader is proved to answer it, with
//! the first line that is none.
#![tactic(auto)]

mod event;
mod field;
mod generate;
pub mod laws;
mod limits;
mod line;
mod read;
mod schedule;

pub use event::{Act, End, PairEvent};
pub use generate::generated;
pub use limits::{CHANNELS, EVENTS, MAX_COUNT, MAX_FILL, MAX_LEN, REQUESTS};
pub use line::is_event;
pub use read::{ScheduleError, read_schedule};
pub use schedule::Schedule;
