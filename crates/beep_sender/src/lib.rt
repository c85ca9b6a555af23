//! The end of a session over one link that sends: it gives lines of syslog, by the profile RAW (RFC
//! 3195, section 3).
#![tactic(auto)]

mod sender;
mod sending;

pub use beep_steps::are_fit;
pub use beep_steps::beep_link::Ended;
pub use sending::send_end;
