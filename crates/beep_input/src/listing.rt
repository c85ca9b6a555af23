//! The lines of an input, listed as its octets come.
ghost use Rattle.std.specs.Prelude.{◌≡◌, ◌+◌, ◌≤◌, ◌<◌, ℕ, List, None, ◌∷◌, [], ◌++◌, ◌==◌, if◌then◌else◌, drop, take, length, IfOk, IfErr, OnOk};
ghost use Rattle.beep_octets.specs.Numbers.{numbers_32};
ghost use Rattle.std.specs.List.{filter};
ghost use Rattle.std.specs.Option.{option_or};
ghost use Rattle.prof_raw.specs.Entries.{has_some};
ghost use Rattle.beep_input.specs.Lines.{first_long, lines_of, pieces_at_lf, without_cr};
ghost use Rattle.beep_input.specs.Listing.{Holds, long_at};
ghost use Rattle.beep_input.specs.Walk.{lf_len, Stops};

use crate::lines::Unlisted;
use beep_octets::{NoMemory, Octets};
use memchr::memchr;
use prof_raw::{ENTRY_MAX, Entries};
use std::alloc::Global;

/// The lines that an LF ended.
#[derive(Drop)]
pub(crate) struct Listing {
    lines: Entries,

    /// The number, from 1, of the line that comes next.
    pub(crate) number: u64,

    /// The number of the first line that is too long. No line is listed from there on.
    long: Option<u64>,
}

/// The lines that an LF ended, and the octets after the last LF.
#[derive(Drop)]
pub(crate) struct Gathered {
    pub(crate) listing: Listing,
    begun: Octets,
}

impl Gathered {
    /// Of an input of which nothing came. It takes no memory.
    pub(crate) fn new(alloc: Global) -> Gathered
        ensures held { Holds [] result }
    {
        let listing = Listing {
            lines: Entries::new(alloc),
            number: 1,
            long: None,
        };
        Gathered {
            listing,
            begun: Octets::new(alloc),
        }
    }

    /// Lists the lines that these octets end, and keeps those after the last LF.
    pub(crate) fn feed(&mut self, octets: &[u8]) -> Result<(), NoMemory>
        requires few { self.old.listing.number + length octets.now ≤ numbers_32 }
        ensures held { (before : List ℕ) → Holds before self.old
            → OnOk result (Holds (before ++ octets.now) self.new) }
    {
        let mut at = 0;
        while at < octets.len() {
            let end = lf_place(octets, at);
            if end == octets.len() {
                return self.begun.extend(&octets[at..]);
            }
            self.end_line(&octets[at..end])?;
            at = end + 1;
        }
        Ok(())
    }

    /// Lists the line that was begun and ends with these octets.
    fn end_line(&mut self, part: &[u8]) -> Result<(), NoMemory>
        requires few { self.old.listing.number < numbers_32 }
        ensures held { (before : List ℕ) → Holds before self.old
            → lf_len part.now ≡ length part.now
            → OnOk result (Holds (before ++ (part.now ++ 10 ∷ [])) self.new) }
        ensures counted { OnOk result (self.new.listing.number ≡ self.old.listing.number + 1) }
    {
        if self.begun.is_empty() {
            return put(&mut self.listing, part);
        }
        self.begun.extend(part)?;
        put(&mut self.listing, self.begun.as_slice())?;
        self.begun.clear();
        Ok(())
    }

    /// The lines of an input of which nothing more comes: the last one may have no LF.
    pub(crate) fn finish(mut self) -> Result<Entries, Unlisted>
        requires few { self.listing.number < numbers_32 }
        ensures ok { (octets : List ℕ) → Holds octets self → IfOk result (λ lines.
            (first_long 1 (pieces_at_lf octets) ≡ None) × (lines ≡ lines_of octets)) }
        ensures err { (octets : List ℕ) → Holds octets self
            → IfErr result (λ why. Stops why octets) }
    {
        let Ok(()) = put(&mut self.listing, self.begun.as_slice()) else {
            return Err(Unlisted::NoMemory);
        };
        match self.listing.long {
            Some(number) => Err(Unlisted::Bad(number)),
            None => Ok(self.listing.lines),
        }
    }
}

/// Lists the line of a piece, where it and those before it aren't too long.
fn put(listing: &mut Listing, piece: &[u8]) -> Result<(), NoMemory>
    requires few { listing.old.number < numbers_32 }
    ensures counted { OnOk result (listing.new.number ≡ listing.old.number + 1) }
    ensures long { OnOk result (listing.new.long
        ≡ option_or listing.old.long (long_at listing.old.number piece.now)) }
    ensures listed { OnOk result (listing.new.long ≡ None → listing.new.lines
        ≡ listing.old.lines ++ filter has_some (without_cr piece.now ∷ [])) }
{
    let line = without_cr(piece);
    listing.long = listing.long.or(if_long(listing.number, line));
    if listing.long.is_none() {
        put_line(&mut listing.lines, line)?;
    }
    listing.number += 1;
    Ok(())
}

/// The number of a line that is too long.
fn if_long(number: u64, line: &[u8]) -> Option<u64>
    ensures { (piece : List ℕ) → line.now ≡ without_cr piece → result ≡ long_at number piece }
{
    if line.len() > ENTRY_MAX {
        Some(number)
    } else {
        None
    }
}

/// Appends a line, but for an empty one.
fn put_line(lines: &mut Entries, line: &[u8]) -> Result<(), NoMemory>
    ensures { OnOk result (lines.new ≡ lines.old ++ filter has_some (line.now ∷ [])) }
{
    if line.is_empty() {
        return Ok(());
    }
    lines.push(line)
}

/// The place of the first LF from `from` on, or the end.
fn lf_place(octets: &[u8], from: usize) -> usize
    requires { from ≤ length octets.now }
    ensures value { result ≡ from + lf_len (drop from octets.now) }
    ensures place { (from ≤ result) × (result ≤ length octets.now) }
{
    match memchr(b'\n', &octets[from..]) {
        Some(count) => from + count,
        None => octets.len(),
    }
}

fn without_cr(line: &[u8]) -> &[u8]
    ensures { result.now ≡ without_cr line.now }
{
    let count = line.len();
    if 0 < count && line[count - 1] == b'\r' {
        &line[..count - 1]
    } else {
        line
    }
}
