//! Short logs as text.
//!
//! An entry is `R.` or `W.` and the names of frames that were read or written at once, with `+`
//! between them, `Q` for a quiet read, or `E` for the link's end. `name:N` is the first N octets of
//! a frame, and `name~N` what follows them. `-` is the empty log.

use crate::frames::octets_of;
use beep_octets::Octets;
use beep_record::Entry;
use case_lines::{Bad, number_of};
use std::alloc::Global;

/// The entries that a text names, the latest first.
pub(crate) fn log_of(alloc: Global, text: &str) -> Result<Vec<Entry>, Bad> {
    let mut log = Vec::new(alloc);
    if text == "-" {
        return Ok(log);
    }
    for word in text.split(' ') {
        let entry = entry_of(alloc, word)?;
        match log.insert(0, entry) {
            Ok(()) => {}
            Err(_) => return Err(Bad::NoMemory),
        }
    }
    Ok(log)
}

fn entry_of(alloc: Global, word: &str) -> Result<Entry, Bad> {
    if let Some(names) = word.strip_prefix("R.") {
        return Ok(Entry::Read(joined(alloc, names)?));
    }
    if let Some(names) = word.strip_prefix("W.") {
        return Ok(Entry::Wrote(joined(alloc, names)?));
    }
    match word {
        "Q" => Ok(Entry::Quiet),
        "E" => Ok(Entry::Ended),
        _ => Err(Bad::Field),
    }
}

fn joined(alloc: Global, names: &str) -> Result<Octets, Bad> {
    let mut out = Octets::new(alloc);
    for name in names.split('+') {
        put_part(alloc, name, &mut out)?;
    }
    Ok(out)
}

/// Appends the octets of a name, or a part of them.
fn put_part(alloc: Global, word: &str, out: &mut Octets) -> Result<(), Bad> {
    if let Some((name, count)) = word.split_once(':') {
        let octets = octets_named(alloc, name)?;
        let count = (number_of(count)? as usize).min(octets.len());
        out.extend(&octets.as_slice()[..count])?;
        return Ok(());
    }
    if let Some((name, count)) = word.split_once('~') {
        let octets = octets_named(alloc, name)?;
        let count = (number_of(count)? as usize).min(octets.len());
        out.extend(&octets.as_slice()[count..])?;
        return Ok(());
    }
    let octets = octets_named(alloc, word)?;
    out.extend(octets.as_slice())?;
    Ok(())
}

fn octets_named(alloc: Global, name: &str) -> Result<Octets, Bad> {
    match octets_of(alloc, name)? {
        Some(octets) => Ok(octets),
        None => Err(Bad::Field),
    }
}
