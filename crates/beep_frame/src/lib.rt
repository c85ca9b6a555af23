//! The frames of BEEP: their values, their one spelling, and a decoder that finds them in a stream
//! of octets (RFC 3080, section 2.2.1; RFC 3081, section 3).
//!
//! What a stream means is stated in specs/, over the whole stream, and the decoder is proved to
//! answer it however the stream is cut into reads.
#![tactic(auto)]

mod decoder;
mod finder;
mod head;
mod kind;
pub mod laws;
mod limits;
mod line;
mod outline;
mod rule;
mod seq;
mod spelling;
mod step;
mod tag;
mod tracker;
mod whole;

pub use beep_octets::{NoMemory, Octets};
pub use decoder::{Decoder, FrameRef};
pub use head::{Head, MAX_NUMBER};
pub use kind::Kind;
pub use limits::MAX_PAYLOAD;
pub use outline::{Outline, PlainFrame};
pub use rule::Rule;
pub use seq::Seq;
pub use spelling::{
    MAX_HEADER, MAX_HEADER_LINE, MAX_SEQ_LINE, SEQ_ROOM, SPELL_ROOM, spell, spell_header_line,
    spell_seq, spell_seq_line,
};
pub use step::Step;
pub use tag::Tag;
