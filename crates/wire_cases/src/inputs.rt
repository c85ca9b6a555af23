//! The lines of an input.

use crate::sources::source_of;
use beep_input::{Unlisted, read_lines};
use beep_octets::Octets;
use beep_wires::{Fails, MemSource};
use case_lines::{Bad, Fields, octets_of, put_number, put_word};
use prof_raw::Entries;
use std::alloc::Global;

/// An input, how many octets of it a read gives, and the calls that fail: its lines with `|`
/// between each two, or why they aren't listed.
pub(crate) fn lines(alloc: Global, fields: &mut Fields<'_>, out: &mut Octets) -> Result<(), Bad> {
    let mut source = source_of(alloc, fields)?;
    match read_lines(alloc, &mut source) {
        Ok(lines) => put_lines(&lines, out),
        Err(why) => put_why(why, out),
    }
}

fn put_lines(lines: &Entries, out: &mut Octets) -> Result<(), Bad> {
    for i in 0..lines.len() {
        if 0 < i {
            out.extend(b"|")?;
        }
        if let Some(line) = lines.get(i) {
            out.extend(line)?;
        }
    }
    Ok(())
}

fn put_why(why: Unlisted, out: &mut Octets) -> Result<(), Bad> {
    match why {
        Unlisted::Bad(number) => {
            put_word("bad", out)?;
            put_number(number, out)?;
        }
        Unlisted::Fault => put_word("fault", out)?,
        Unlisted::NoMemory => return Err(Bad::NoMemory),
    }
    Ok(())
}

/// So many of an octet, and what comes after them: how many lines there are, or why they aren't
/// listed.
pub(crate) fn long(alloc: Global, fields: &mut Fields<'_>, out: &mut Octets) -> Result<(), Bad> {
    let count = fields.number()?;
    let octet = octets_of(alloc, fields.next()?)?;
    let mut input = repeated(alloc, count, octet.as_slice())?;
    input.extend(octets_of(alloc, fields.next()?)?.as_slice())?;
    let mut source = MemSource::new(input, 65536, Fails::new(alloc));
    match read_lines(alloc, &mut source) {
        Ok(lines) => put_number(lines.len() as u64, out)?,
        Err(why) => put_why(why, out)?,
    }
    Ok(())
}

fn repeated(alloc: Global, count: u32, octets: &[u8]) -> Result<Octets, Bad> {
    let mut all = Octets::new(alloc);
    for _ in 0..count {
        all.extend(octets)?;
    }
    Ok(all)
}
