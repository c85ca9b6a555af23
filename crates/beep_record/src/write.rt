//! Writing a record.
ghost use Rattle.std.specs.Prelude.{◌≡◌, ◌++◌, [], ◌∷◌, codes, OnOk, OnErr};
ghost use Rattle.beep_record.specs.Record.{IsOrdered, entry_text, octets_text, piece_of};
ghost use Rattle.beep_record.specs.Written.{HasLines, Writes};
ghost use Rattle.beep_record.specs.Logged.{entry_of};

use crate::limits::MAX_ENTRY;
use crate::log::{Entry, Log};
use crate::octet::put_octet;
use crate::reader::first_line;
use beep_history::Side;
use beep_octets::{NoMemory, Octets};

/// Appends the record of a log, without a status. A piece that is longer than a line stands in
/// several, and an
/// empty one in none.
pub fn write_record(log: &Log, out: &mut Octets) -> Result<(), NoMemory>
    requires ordered { IsOrdered log.now.entries }
    ensures appended { OnOk result (
        Writes log.now.role log.now.entries out.old.octets out.new.octets) }
    ensures err { OnErr result (out.new.octets ≡ out.old.octets) }
{
    let mut text = Octets::new(out.alloc());
    text.extend(first_line(log.role))?;
    for entry in log.entries.as_slice() {
        put_entry(entry, &mut text)?;
    }
    out.extend(text.as_slice())
}

/// Appends the lines of an entry.
fn put_entry(entry: &Entry, out: &mut Octets) -> Result<(), NoMemory>
    ensures { OnOk result (HasLines (entry_of entry.now) out.old.octets out.new.octets) }
{
    match entry {
        Entry::Read(octets) => put_piece(Side::Received, octets.as_slice(), out),
        Entry::Wrote(octets) => put_piece(Side::Sent, octets.as_slice(), out),
        Entry::Quiet => out.extend(b"Q\n"),
        Entry::Ended => out.extend(b"E\n"),
    }
}

/// Appends the lines of a piece.
fn put_piece(side: Side, octets: &[u8], out: &mut Octets) -> Result<(), NoMemory>
    ensures { OnOk result (HasLines (piece_of side octets.now) out.old.octets out.new.octets) }
{
    let mut rest = octets;
    while !rest.is_empty() {
        let count = rest.len().min(MAX_ENTRY);
        put_line(side, &rest[..count], out)?;
        rest = &rest[count..];
    }
    Ok(())
}

/// Appends one line of a piece.
fn put_line(side: Side, octets: &[u8], out: &mut Octets) -> Result<(), NoMemory>
    ensures { OnOk result (out.new.octets
        ≡ out.old.octets ++ entry_text (piece_of side octets.now)) }
{
    match side {
        Side::Received => out.extend(b"R ")?,
        Side::Sent => out.extend(b"W ")?,
    }
    put_octets(octets, out)?;
    out.extend(b"\n")
}

/// Appends octets as they are written.
fn put_octets(octets: &[u8], out: &mut Octets) -> Result<(), NoMemory>
    ensures { OnOk result (out.new.octets ≡ out.old.octets ++ octets_text octets.now) }
{
    for octet in octets {
        put_octet(*octet, out)?;
    }
    Ok(())
}
