//! A source in memory.
ghost use Rattle.std.specs.Prelude.{◌≡◌, false, IfOk};

use crate::fails::fails_of;
use beep_octets::Octets;
use beep_wires::{Failed, MemSource, Source};
use case_lines::{Bad, Fields, begin, octets_of};
use std::alloc::Global;

/// A text, how many octets of it a read gives, the calls that fail, and the size of the buffer:
/// what the reads give up to the end.
pub(crate) fn source(alloc: Global, fields: &mut Fields<'_>, out: &mut Octets) -> Result<(), Bad> {
    let mut source = source_of(alloc, fields)?;
    let size = fields.number()? as usize;
    read_all(&mut source, size, out)
}

/// A text, how many octets of it a read gives, and the calls that fail.
pub(crate) fn source_of(alloc: Global, fields: &mut Fields<'_>) -> Result<MemSource, Bad>
    ensures { IfOk result (λ source. source.ended ≡ false) }
{
    let text = octets_of(alloc, fields.next()?)?;
    let piece = fields.number()? as usize;
    let fails = fails_of(alloc, fields.next()?)?;
    Ok(MemSource::new(text, piece.max(1), fails))
}

/// Reads to the end, by at most nine reads.
fn read_all<S: Source>(source: &mut S, size: usize, out: &mut Octets) -> Result<(), Bad>
    requires { (S.state source.old).ended ≡ false }
{
    let mut buf = [0; 8];
    if size == 0 || buf.len() < size {
        return Err(Bad::Field);
    }
    for _ in 0..9 {
        match source.read(&mut buf[..size]) {
            Ok(0) => return put(b"end", out),
            Ok(n) => put_front(&buf, n, out)?,
            Err(Failed) => put(b"failed", out)?,
        }
    }
    Err(Bad::Field)
}

fn put_front(buf: &[u8], n: usize, out: &mut Octets) -> Result<(), Bad> {
    match buf.get(..n) {
        Some(front) => put(front, out),
        None => Err(Bad::Field),
    }
}

fn put(octets: &[u8], out: &mut Octets) -> Result<(), Bad> {
    begin(out)?;
    out.extend(octets)?;
    Ok(())
}
