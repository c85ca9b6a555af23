//! The RAW profile of syslog over BEEP: the entries of a body, and the body of entries (RFC 3195,
//! section 3).
#![tactic(auto)]

pub mod laws;
mod line;
mod list;
mod plain;
mod read;
mod write;

pub use line::{ENTRY_MAX, line_room, write_line};
pub use list::Entries;
pub use plain::plain_entry;
pub use read::{Place, entries, next_entry};
pub use write::{body_len, body_of, entry_body};
