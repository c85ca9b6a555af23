//! The lines of an input: what stands between its LFs.
ghost use Rattle.std.specs.Prelude.{◌≡◌, ◌+◌, ◌≤◌, ◌<◌, false, ◌==◌, [], take, length, if◌then◌else◌, IfOk, IfErr};
ghost use Rattle.beep_octets.specs.Numbers.{numbers_32};
ghost use Rattle.beep_wires.specs.States.{SourceState};
ghost use Rattle.beep_input.specs.Lines.{GivesLines, IsUnlisted, line_after};
ghost use Rattle.beep_input.specs.Listing.{Gathers, Holds, unlisted_by};
ghost use Rattle.beep_input.specs.declared.whole.TheConstants.{MAX_INPUT, PIECE};

use crate::listing::Gathered;
use crate::whole::{MAX_INPUT, PIECE, Unread, read_at};
use beep_wires::Source;
use prof_raw::Entries;
use std::alloc::{AllocError, Global};

/// Why the lines of an input aren't listed.
#[derive(Clone, Copy, Debug, PartialEq, Eq)]
pub enum Unlisted {
    /// The line of this number, from 1, is too long, or has the first octet past `MAX_INPUT`.
    Bad(u64),
    /// A read failed, and the octets that were read before it are dropped.
    Fault,
    /// The input or the list of its lines found no memory, and what was read is dropped.
    NoMemory,
}

impl Unlisted {
    fn of(why: Unread) -> Unlisted
        ensures { result ≡ unlisted_by why }
    {
        match why {
            Unread::Fault => Unlisted::Fault,
            Unread::NoMemory => Unlisted::NoMemory,
        }
    }
}

/// Reads an input to its end, and lists its lines. Each has 1 to 8,192 octets and no LF.
pub fn read_lines<I: Source>(alloc: Global, input: &mut I) -> Result<Entries, Unlisted>
    requires going { (I.state input.old).ended ≡ false }
    ensures ok { IfOk result (λ lines.
        GivesLines lines (I.state input.old) (I.state input.new)) }
    ensures err { IfErr result (λ why. IsUnlisted why (I.state input.old) (I.state input.new)) }
    ensures reads { (I.state input.new).reads ≤ (I.state input.old).reads + (MAX_INPUT + 1) }
{
    let mut gathered = Gathered::new(alloc);
    let mut piece = Vec::new(alloc);
    if let Err(AllocError) = piece.resize(PIECE, 0) {
        return Err(Unlisted::NoMemory);
    }
    match gather(input, piece.as_mut_slice(), &mut gathered) {
        Ok(true) => gathered.finish(),
        Ok(false) => end_or_past(input, piece.as_mut_slice(), gathered),
        Err(why) => Err(why),
    }
}

/// Reads an input to its end, and answers true there, or as much as is kept.
fn gather<I: Source>(
    input: &mut I,
    piece: &mut [u8],
    gathered: &mut Gathered,
) -> Result<bool, Unlisted>
    requires going { (I.state input.old).ended ≡ false }
    requires room { length piece.old ≡ PIECE }
    requires none { Holds [] gathered.old }
    ensures ok { IfOk result (λ ended. Gathers ended gathered.new
        (I.state input.old) (I.state input.new)) }
    ensures err { IfErr result (λ why. IsUnlisted why (I.state input.old) (I.state input.new)) }
    ensures reads { (I.state input.new).reads ≤ (I.state input.old).reads + MAX_INPUT }
    ensures room { length piece.new ≡ PIECE }
{
    let mut left = MAX_INPUT;
    while 0 < left {
        // The last reads have less room, at the end of the buffer.
        let at = PIECE - PIECE.min(left);
        match read_at(input, piece, at) {
            Ok(0) => return Ok(true),
            Ok(n) => {
                let Ok(()) = gathered.feed(&piece[at..at + n]) else {
                    return Err(Unlisted::NoMemory);
                };
                left -= n;
            }
            Err(why) => return Err(Unlisted::of(why)),
        }
    }
    Ok(false)
}

/// Looks whether an input of which as much was read as is kept has ended.
fn end_or_past<I: Source>(
    input: &mut I,
    piece: &mut [u8],
    gathered: Gathered,
) -> Result<Entries, Unlisted>
    requires going { (I.state input.old).ended ≡ false }
    requires room { length piece.old ≡ PIECE }
    requires few { gathered.listing.number < numbers_32 }
    ensures ok { (from : SourceState) → Gathers false gathered from (I.state input.old)
        → IfOk result (λ lines. GivesLines lines from (I.state input.new)) }
    ensures err { (from : SourceState) → Gathers false gathered from (I.state input.old)
        → IfErr result (λ why. IsUnlisted why from (I.state input.new)) }
    ensures reads { (I.state input.new).reads ≤ (I.state input.old).reads + 1 }
{
    match read_at(input, piece, PIECE - 1) {
        Ok(0) => gathered.finish(),
        Ok(_) => Err(Unlisted::Bad(gathered.listing.number)),
        Err(why) => Err(Unlisted::of(why)),
    }
}

/// The number, from 1, of the line in which the first octet past `MAX_INPUT` stands.
pub fn line_past(octets: &[u8]) -> u64
    requires { MAX_INPUT ≤ length octets.now }
    ensures { result ≡ line_after (take MAX_INPUT octets.now) }
{
    line_after(&octets[..MAX_INPUT])
}

/// The number, from 1, of the line in which the octet after these stands.
fn line_after(octets: &[u8]) -> u64
    ensures { result ≡ line_after octets.now }
{
    let mut number = 1;
    for i in 0..octets.len() {
        number += lines_ended(octets[i]);
    }
    number
}

fn lines_ended(octet: u8) -> u64
    ensures { result ≡ (if octet == 10 then 1 else 0) }
{
    if octet == b'\n' { 1 } else { 0 }
}
