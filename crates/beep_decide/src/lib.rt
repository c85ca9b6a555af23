//! The requests of channel zero: what they say, which of them wait, which channels an end may
//! start, and what each request is answered (RFC 3080, sections 2.3.1.2 and 2.3.1.3).
//!
//! The definitions stand in specs/ and know no session's state. Beside them stands a plain, slow
//! program whose contract they are.
#![tactic(auto)]

mod asks;
mod decision;
pub mod laws;
mod note;
mod numbers;
mod table;

pub use asks::{
    has_own_close, has_own_release, has_own_start, is_close_of, is_greeted, is_start, is_start_of,
};
pub use decision::{Answer, Offer, Standing};
pub use note::note_of;
pub use numbers::{may_start, other_role};
pub use table::decide;
