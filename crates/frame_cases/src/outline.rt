//! What a short list of octets is.

use crate::steps::{put_broken, put_count, put_head, put_payload, put_seq};
use beep_frame::{Outline, PlainFrame};
use beep_octets::Octets;
use case_lines::{Bad, Fields, octets_of};
use std::alloc::Global;

/// Octets: their whole frames, how many octets are left, and where they die.
pub(crate) fn outline(alloc: Global, fields: &mut Fields<'_>, out: &mut Octets) -> Result<(), Bad> {
    let octets = octets_of(alloc, fields.next()?)?;
    let outline = Outline::of(alloc, octets.as_slice())?;
    for frame in outline.frames.as_slice() {
        put_frame(frame, out)?;
    }
    put_count("left", outline.rest, out)?;
    match outline.dead {
        Some((rule, at)) => put_broken("dead", rule, at, out),
        None => Ok(()),
    }
}

fn put_frame(frame: &PlainFrame, out: &mut Octets) -> Result<(), Bad> {
    match frame {
        PlainFrame::Seq(seq) => put_seq(seq, out),
        PlainFrame::Data(head, payload) => {
            put_head(head, out)?;
            put_payload(payload.as_slice(), out)
        }
    }
}
