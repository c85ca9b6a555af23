//! Records of a session: the log of a link as a text, and what a session that was recorded at one
//! end shows.
//!
//! The text of a record is a relation between logs and texts, in specs/. The reader is proved to
//! answer it, with the place of a fault. It takes at once a run of octets that stand for
//! themselves, and `replay` the octets up to the next step of a decoder.
#![tactic(auto)]

pub mod laws;
mod limits;
mod lines;
mod log;
mod mode;
mod octet;
mod read;
mod reader;
mod replayer;
mod report;
mod step;
mod text;
mod text_replayer;
mod verdict;
mod wire;
mod write;

pub use beep_journal::Role;
pub use limits::{MAX_ENTRY, MAX_STATUS};
pub use log::{Entry, Log, LogEntries};
pub use read::{RecordError, read_record};
pub use report::replay;
pub use text::replay_text;
pub use verdict::Verdict;
pub use write::write_record;
