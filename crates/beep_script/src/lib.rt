//! What an end of a link has to say and to write, said of its journal and log alone (RFC 3080,
//! section 2; RFC 3195, section 3).
//!
//! The definitions stand in specs/, over the journal of one end, the latest item first, and know no
//! session's state. Beside them stands a plain, slow program whose contract they are.
#![tactic(auto)]

mod asking;
mod clearing;
mod deciding;
mod desks;
pub mod laws;
mod lines_heard;
mod refusals;
mod scripts;
mod settled;
mod standing_now;

pub use desks::desk;
pub use lines_heard::{entries, lines};
pub use refusals::refusal;
pub use scripts::script;
pub use settled::is_settled;

// Crates below, which are named through this one.
pub use prof_raw;
