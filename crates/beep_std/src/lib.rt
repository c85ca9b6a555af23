//! Standard input as a source, standard output as a sink and TCP as links: the edge of a program,
//! whose octets no contract knows.
#![tactic(auto)]

mod accepts;
mod dials;
mod fault;
mod listeners;
mod sink;
mod socket;
mod source;
mod std_wires;
mod streams;
mod telling;
mod tries;

pub use accepts::{PEERS, WAIT_MILLIS, WAITS};
pub use sink::StdSink;
pub use socket::READ_MILLIS;
pub use source::StdSource;
pub use std_wires::StdWires;
pub use streams::{Streams, hold_streams};
pub use telling::PROGRESS_MILLIS;
pub use tries::{TRIES, WRITE_SECONDS};
