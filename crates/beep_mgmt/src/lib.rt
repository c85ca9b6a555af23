//! The elements of channel zero: which value an element says, a reader of their messages, and the
//! one message that is written of a value (RFC 3080, section 2.3.1).
//!
//! What a message says is a relation between payloads and values, in specs/. The reader and the
//! writer are proved to answer it.
#![tactic(auto)]

mod build;
mod canonical;
mod codes;
mod form;
pub mod laws;
mod limits;
mod mgmt;
mod number;
mod profile;
mod profiles;
mod read;
mod said;
mod sized;
mod text;
mod write;

pub use codes::{
    ABORTED, BAD_PARAMETERS, BAD_SYNTAX, BUSY, INVALID, NOT_AUTHORIZED, NOT_IMPLEMENTED, NOT_TAKEN,
    SUCCESS,
};
pub use limits::{MAX_CODE, MAX_CONTENT};
pub use mgmt::Mgmt;
pub use profile::{Encoding, Profile};
pub use profiles::Profiles;
pub use read::{MgmtError, read_mgmt};
pub use write::{write_mgmt, write_mgmt_element};
