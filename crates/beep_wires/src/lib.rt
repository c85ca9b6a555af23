//! What BEEP reads from and writes to: the traits of a source, of a sink and of links, and forms of
//! the first two in memory whose failures are planned, for tests and for the plain programs.
//!
//! A source, a sink or a link fails only where its count of faults rises. What it leads to, a
//! file or a wire, is shown where it is known, and nothing is claimed of it elsewhere.
#![tactic(auto)]

mod count;
mod failed;
mod fails;
mod link_transfer;
mod links;
mod mem_sink;
mod mem_source;
mod null_sink;
mod sink;
mod source;
mod transfer;

pub use count::{COUNT_MAX, next_count};
pub use failed::Failed;
pub use fails::Fails;
pub use link_transfer::write_link;
pub use links::{Account, Got, WireError, Wires};
pub use mem_sink::MemSink;
pub use mem_source::MemSource;
pub use null_sink::NullSink;
pub use sink::Sink;
pub use source::Source;
pub use transfer::write_all;
