//! The elements of BEEP's messages: what an element is, the texts that say one, a reader that names
//! the place of a fault, and one text to write (RFC 3080, section 2.2 and section 6.4).
//!
//! The grammar is a relation between values and texts, in specs/. The reader takes one octet at a
//! time, and is proved to answer it.
#![tactic(auto)]

mod attr;
mod element;
mod ending;
pub mod laws;
mod level;
mod limits;
mod mode;
mod octet;
mod read;
mod reader;
mod write;

pub use beep_chars::{MAX_NAME, Text};
pub use beep_mime::split_entity;
pub use element::{Element, Item};
pub use limits::{MAX_NESTED, MAX_TEXT};
pub use read::{TextError, read_element};
pub use write::write_element;
