//! The line that a listener writes of an entry.
ghost use Rattle.std.specs.Prelude.{◌≡◌, ℕ, ◌+◌, ◌-◌, ◌*◌, ◌<◌, ◌≤◌, ◌++◌, true, false, drop, get_or, length};
ghost use Rattle.memchr.specs.Find.{is_byte3};
ghost use Rattle.std.specs.List.{slice_range};
ghost use Rattle.prof_raw.specs.Line.{line_of, line_room, bang_mark, more_mark, octet_written, octets_written};

use beep_octets::Octets;
use memchr::memchr3;

/// The most octets of an entry that its line shows: so many has the longest entry that is sent.
pub const ENTRY_MAX: usize = 8192;

/// The room for the line of an entry of this length: at most 16,388 octets.
pub fn line_room(count: usize) -> usize
    ensures { result ≡ line_room count }
{
    count.min(ENTRY_MAX) * 2 + 4
}

/// Appends the line of an entry, in room that is there. It goes over the octets once.
pub fn write_line(entry: &[u8], out: &mut Octets)
    requires { line_room (length entry.now) ≤ out.old.spare }
    ensures appended { out.new.octets ≡ out.old.octets ++ line_of entry.now }
    ensures room { out.old.spare ≤ out.new.spare + line_room (length entry.now) }
{
    put_bang_mark(entry, out);
    put_octets(&entry[..entry.len().min(ENTRY_MAX)], out);
    put_more_mark(entry, out);
    out.push_spare(b'\n');
}

fn put_bang_mark(entry: &[u8], out: &mut Octets)
    requires { 1 ≤ out.old.spare }
    ensures appended { out.new.octets ≡ out.old.octets ++ bang_mark entry.now }
    ensures room { out.old.spare ≤ out.new.spare + 1 }
{
    if !entry.is_empty() && entry[0] == b'!' {
        out.push_spare(b'\\');
    }
}

fn put_more_mark(entry: &[u8], out: &mut Octets)
    requires { 2 ≤ out.old.spare }
    ensures appended { out.new.octets ≡ out.old.octets ++ more_mark entry.now }
    ensures room { out.old.spare ≤ out.new.spare + 2 }
{
    if entry.len() > ENTRY_MAX {
        out.extend_spare(b"\\+");
    }
}

/// Appends octets as they are written. Octets that are written as they are go at once.
fn put_octets(octets: &[u8], out: &mut Octets)
    requires { 2 * length octets.now ≤ out.old.spare }
    ensures appended { out.new.octets ≡ out.old.octets ++ octets_written octets.now }
    ensures room { out.old.spare ≤ out.new.spare + 2 * length octets.now }
{
    let mut at = 0;
    while at < octets.len() {
        let end = plain_end(octets, at);
        out.extend_spare(&octets[at..end]);
        at = end;
        if at < octets.len() {
            put_octet(octets[at], out);
            at += 1;
        }
    }
}

/// The place from which on the first octet isn't written as it is, or the end.
#[inline(always)]
pub(crate) fn plain_end(octets: &[u8], from: usize) -> usize
    requires { from ≤ length octets.now }
    ensures none { (k : ℕ) → k < result - from
        → is_byte3 10 13 92 (get_or (drop from octets.now) k 0) ≡ false }
    ensures place { (from ≤ result) × (result ≤ length octets.now) }
    ensures stops { result < length octets.now
        → is_byte3 10 13 92 (get_or (drop from octets.now) (result - from) 0) ≡ true }
    ensures plain { octets_written (slice_range octets.now from result)
        ≡ slice_range octets.now from result }
{
    match memchr3(b'\n', b'\r', b'\\', &octets[from..]) {
        Some(count) => from + count,
        None => octets.len(),
    }
}

fn put_octet(octet: u8, out: &mut Octets)
    requires { 2 ≤ out.old.spare }
    ensures appended { out.new.octets ≡ out.old.octets ++ octet_written octet }
    ensures room { out.old.spare ≤ out.new.spare + 2 }
{
    match octet {
        b'\n' => out.extend_spare(b"\\n"),
        b'\r' => out.extend_spare(b"\\r"),
        b'\\' => out.extend_spare(b"\\\\"),
        _ => out.push_spare(octet),
    }
}
