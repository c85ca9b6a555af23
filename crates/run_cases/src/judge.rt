//! What came out of a run, beside what is wanted.

use crate::case::{Said, Times, Wanted};
use crate::spelling::spell;
use crate::stop::Stop;
use beep_cmd::beep_memory::MemWires;
use std::alloc::Global;
use std::fmt::Write;

/// What came out of a run.
#[derive(Drop)]
pub(crate) struct Answers<'a> {
    pub(crate) status: u64,
    pub(crate) reads: u64,
    pub(crate) output: &'a [u8],
    pub(crate) wires: &'a MemWires,
}

/// What came out otherwise than it is wanted, in words; nothing where all did.
pub(crate) fn judge(alloc: Global, wanted: &Wanted, came: &Answers<'_>) -> Result<String, Stop> {
    let mut notes = String::new(alloc);
    note_number(&mut notes, "status", wanted.status, came.status)?;
    if let Some(reads) = wanted.reads {
        note_number(&mut notes, "reads", reads, came.reads)?;
    }
    if wanted.times.is_empty() {
        note_octets(&mut notes, "output", wanted.output.as_slice(), came.output)?;
    }
    note_times(&mut notes, wanted.times.as_slice(), came.output)?;
    note_said(&mut notes, wanted.said.as_slice(), came.wires)?;
    Ok(notes)
}

fn note_number(notes: &mut String, what: &str, wanted: u64, came: u64) -> Result<(), Stop> {
    if wanted != came {
        write!(notes, "\n  {what}: wanted {wanted}, came {came}")?;
    }
    Ok(())
}

fn note_octets(notes: &mut String, what: &str, wanted: &[u8], came: &[u8]) -> Result<(), Stop> {
    if wanted != came {
        note_text(notes, what, "wanted", wanted)?;
        note_text(notes, what, "came", came)?;
    }
    Ok(())
}

fn note_text(notes: &mut String, what: &str, which: &str, octets: &[u8]) -> Result<(), Stop> {
    write!(notes, "\n  {what}, {which}:\n    ")?;
    spell(notes, octets)
}

/// Each text that isn't so often in the output.
fn note_times(notes: &mut String, times: &[Times], output: &[u8]) -> Result<(), Stop> {
    for wanted in times {
        let came = count(output, wanted.text.as_slice());
        if came != wanted.count {
            note_number(notes, "times", wanted.count, came)?;
            note_text(notes, "output", "text", wanted.text.as_slice())?;
        }
    }
    Ok(())
}

/// How often a text stands in the octets; never where either is none.
fn count(octets: &[u8], text: &[u8]) -> u64 {
    match (str::from_utf8(octets), str::from_utf8(text)) {
        (Ok(octets), Ok(text)) => octets.matches(text).count() as u64,
        _ => 0,
    }
}

/// Each link on which something else was said.
fn note_said(notes: &mut String, said: &[Said], wires: &MemWires) -> Result<(), Stop> {
    for wanted in said {
        note_octets(
            notes,
            "said",
            wanted.octets.as_slice(),
            wires.written(wanted.link),
        )?;
    }
    Ok(())
}
