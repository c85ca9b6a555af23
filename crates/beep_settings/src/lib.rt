//! What a caller sets for an end of a session: the values of the options of `send` and `listen`,
//! and what holds where none is set.
#![tactic(auto)]

mod limits;
mod settings;

pub use limits::MAX_PIECE;
pub use settings::{BIND, HOST, IDLE, OCTETS, PIECE, PORT, RAW_URI, SESSIONS, Settings};
