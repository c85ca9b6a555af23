//! Sinks in memory.

use crate::fails::fails_of;
use beep_octets::Octets;
use beep_wires::{Failed, MemSink, NullSink, Sink, write_all};
use case_lines::{Bad, Fields, begin, octets_of, put_number, put_word};
use std::alloc::Global;

/// A sink, and texts: what a write of each answers, and at last what was written.
pub(crate) fn sink(alloc: Global, fields: &mut Fields<'_>, out: &mut Octets) -> Result<(), Bad> {
    let mut sink = sink_of(alloc, fields)?;
    for text in fields.next()?.split(' ') {
        put_taken(written(&mut sink, text.as_bytes()), out)?;
    }
    put_octets(sink.written(), out)
}

/// A sink and a text: whether the text was written whole, and what was written.
pub(crate) fn whole(alloc: Global, fields: &mut Fields<'_>, out: &mut Octets) -> Result<(), Bad> {
    let mut sink = sink_of(alloc, fields)?;
    let text = octets_of(alloc, fields.next()?)?;
    match write_all(&mut sink, text.as_slice()) {
        Ok(()) => put_word("ok", out)?,
        Err(Failed) => put_word("failed", out)?,
    }
    put_octets(sink.written(), out)
}

/// The room of a sink, how many octets it takes at a write, and the calls that fail.
fn sink_of(alloc: Global, fields: &mut Fields<'_>) -> Result<MemSink, Bad> {
    let room = fields.number()? as usize;
    let piece = fields.number()? as usize;
    let fails = fails_of(alloc, fields.next()?)?;
    if piece == 0 {
        return Err(Bad::Field);
    }
    Ok(MemSink::new(alloc, room, piece, fails)?)
}

/// What a write of some octets answers. None are no write.
fn written<S: Sink>(sink: &mut S, bytes: &[u8]) -> Result<usize, Failed> {
    if bytes.is_empty() {
        return Err(Failed);
    }
    sink.write(bytes)
}

fn put_taken(answer: Result<usize, Failed>, out: &mut Octets) -> Result<(), Bad> {
    match answer {
        Ok(count) => put_number(count as u64, out)?,
        Err(Failed) => put_word("failed", out)?,
    }
    Ok(())
}

fn put_octets(octets: &[u8], out: &mut Octets) -> Result<(), Bad> {
    begin(out)?;
    out.extend(octets)?;
    Ok(())
}

/// Octets: what a write of them to a sink that keeps nothing answers.
pub(crate) fn null(alloc: Global, fields: &mut Fields<'_>, out: &mut Octets) -> Result<(), Bad> {
    let octets = octets_of(alloc, fields.next()?)?;
    put_taken(written(&mut NullSink, octets.as_slice()), out)
}
