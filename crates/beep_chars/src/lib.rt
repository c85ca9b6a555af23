//! The characters of BEEP's elements: which a text may have, which are white space, which make a
//! name, and a text as a list of them (RFC 3080, section 6.4).
#![tactic(auto)]

mod characters;
mod limits;
mod text;

pub use characters::{are_allowed, is_allowed, is_name_char, is_name_start, is_space};
pub use limits::{MAX_NAME, MAX_URI};
pub use text::Text;
