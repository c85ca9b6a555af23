//! What a decoder finds in a stream.
ghost use Rattle.std.specs.Prelude.{◌≤◌, length, IfOk};

use crate::steps::{put_broken, put_count, put_head, put_payload, put_seq};
use beep_frame::{Decoder, MAX_PAYLOAD, Step};
use beep_octets::Octets;
use case_lines::{Bad, Fields, octets_of};
use std::alloc::Global;

/// Pieces of a stream, with `,` between each two: the steps, and how many octets are left.
pub(crate) fn feed(alloc: Global, fields: &mut Fields<'_>, out: &mut Octets) -> Result<(), Bad> {
    let mut decoder = Decoder::new(alloc, MAX_PAYLOAD)?;
    for piece in fields.next()?.split(',') {
        let piece = octets_of(alloc, piece)?;
        feed_all(&mut decoder, false, piece.as_slice(), out)?;
    }
    put_count("left", decoder.left(), out)
}

/// Pieces of a stream, in which payloads that stand whole after their header are taken so: the
/// same.
pub(crate) fn whole(alloc: Global, fields: &mut Fields<'_>, out: &mut Octets) -> Result<(), Bad> {
    let mut decoder = Decoder::new(alloc, MAX_PAYLOAD)?;
    for piece in fields.next()?.split(',') {
        let piece = octets_of(alloc, piece)?;
        feed_all(&mut decoder, true, piece.as_slice(), out)?;
    }
    put_count("left", decoder.left(), out)
}

/// A stream that is fed octet by octet: the same.
pub(crate) fn octets(alloc: Global, fields: &mut Fields<'_>, out: &mut Octets) -> Result<(), Bad> {
    let mut decoder = Decoder::new(alloc, MAX_PAYLOAD)?;
    let stream = octets_of(alloc, fields.next()?)?;
    for octet in stream.as_slice() {
        feed_all(&mut decoder, false, &[*octet], out)?;
    }
    put_count("left", decoder.left(), out)
}

/// Feeds a piece up to its end or to a broken rule. With `whole` payloads that stand whole are
/// taken so.
fn feed_all(decoder: &mut Decoder, whole: bool, piece: &[u8], out: &mut Octets) -> Result<(), Bad> {
    let mut rest = piece;
    for _ in 0..=piece.len() {
        let (count, more) = feed_once(decoder, whole, rest, out)?;
        rest = &rest[count..];
        if !more {
            break;
        }
    }
    Ok(())
}

/// Feeds octets up to a step, and writes it: how many were used, and whether another step may come
/// of the others.
fn feed_once(
    decoder: &mut Decoder,
    whole: bool,
    bytes: &[u8],
    out: &mut Octets,
) -> Result<(usize, bool), Bad>
    ensures { IfOk result (λ answer. answer.0 ≤ length bytes.now) }
{
    if whole {
        if let Some((count, payload)) = decoder.take_whole(bytes) {
            put_payload(payload, out)?;
            return Ok((count, true));
        }
    }
    let (count, step) = decoder.feed(bytes);
    match step {
        Step::More => return Ok((count, false)),
        Step::Head(head) => put_head(&head, out)?,
        Step::Frame => put_payload(decoder.frame().payload, out)?,
        Step::Seq(seq) => put_seq(&seq, out)?,
        Step::Broken(rule, at) => {
            put_broken("broken", rule, at, out)?;
            put_count("used", count as u64, out)?;
            return Ok((count, false));
        }
    }
    Ok((count, true))
}
