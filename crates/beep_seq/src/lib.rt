//! The numbers of octets on the wire and the windows of one life: how much may be sent, and when a
//! SEQ is due (RFC 3080, section 2.2.1; RFC 3081, section 3.1).
//!
//! What a window answers is stated in specs/ over the calls that were made, in counts that never
//! wrap. The code keeps numbers modulo 2^32 and small differences, so a life may have any length.
#![tactic(auto)]

mod laws;
mod limits;
mod recv_window;
mod send_window;
mod seq_no;
mod wire;

pub use laws::{bad_ack_is_no_count_between, count_from_is_the_first, edge_never_moves_left};
pub use limits::{INITIAL_WINDOW, MAX_WINDOW, MIN_WINDOW};
pub use recv_window::RecvWindow;
pub use send_window::{BadAck, SendWindow};
pub use seq_no::SeqNo;
pub use wire::{SEQ_NUMBERS, count_from, wire_number};
