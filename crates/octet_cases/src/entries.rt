//! The entries of syslog: the body of a message, and the line of an entry.

use beep_octets::{NoMemory, Octets};
use case_lines::{Bad, Fields, begin, octets_of, put_number};
use prof_raw::{Entries, body_len, body_of, entries, entry_body, line_room, write_line};
use std::alloc::Global;

/// A body: how many entries it has, and these with `|` after each.
pub(crate) fn entries_in(
    alloc: Global,
    fields: &mut Fields<'_>,
    out: &mut Octets,
) -> Result<(), Bad> {
    let body = octets_of(alloc, fields.next()?)?;
    let list = entries(alloc, body.as_slice())?;
    put_number(list.len() as u64, out)?;
    for i in 0..list.len() {
        put_entry(list.get(i), out)?;
    }
    Ok(())
}

fn put_entry(entry: Option<&[u8]>, out: &mut Octets) -> Result<(), NoMemory> {
    begin(out)?;
    if let Some(octets) = entry {
        out.extend(octets)?;
    }
    out.extend(b"|")
}

/// Entries with `,` between each two, or `none`: how long their body is, and the body.
pub(crate) fn body(alloc: Global, fields: &mut Fields<'_>, out: &mut Octets) -> Result<(), Bad> {
    let list = list_of(alloc, fields.next()?)?;
    put_number(body_len(&list) as u64, out)?;
    begin(out)?;
    body_of(&list, out)?;
    Ok(())
}

fn list_of(alloc: Global, field: &str) -> Result<Entries, NoMemory> {
    let mut list = Entries::new(alloc);
    if field == "none" {
        return Ok(list);
    }
    for entry in field.split(',') {
        list.push(entry.as_bytes())?;
    }
    Ok(list)
}

/// An entry: the body of it alone.
pub(crate) fn entry(alloc: Global, fields: &mut Fields<'_>, out: &mut Octets) -> Result<(), Bad> {
    let entry = octets_of(alloc, fields.next()?)?;
    entry_body(entry.as_slice(), out)?;
    Ok(())
}

/// An entry: its line.
pub(crate) fn line(alloc: Global, fields: &mut Fields<'_>, out: &mut Octets) -> Result<(), Bad> {
    let entry = octets_of(alloc, fields.next()?)?;
    out.reserve(line_room(entry.len()))?;
    write_line(entry.as_slice(), out);
    Ok(())
}
