//! The body of entries (RFC 3195, section 3).
ghost use Rattle.std.specs.Prelude.{◌≡◌, ◌+◌, ◌≤◌, [], ◌∷◌, ◌++◌, length, OnOk, OnErr};
ghost use Rattle.prof_raw.specs.Entries.{body_of, line_end};

use crate::list::Entries;
use beep_octets::{NoMemory, Octets};

/// What ends a line.
const LINE_END: &[u8] = b"\r\n";

/// Appends the body of entries: an empty MIME header, and then each entry, all ended by CR LF.
pub fn body_of(list: &Entries, out: &mut Octets) -> Result<(), NoMemory>
    ensures appended { OnOk result (out.new.octets ≡ out.old.octets ++ body_of list.now) }
    ensures err { OnErr result (out.new.octets ≡ out.old.octets) }
{
    out.reserve(list.body_len())?;
    out.push_few(LINE_END);
    for i in 0..list.len() {
        put_line(list.entry(i), out);
    }
    Ok(())
}

/// Appends the body of one entry alone. It takes memory only where `entry.len() + 4` octets of
/// room aren't there.
pub fn entry_body(entry: &[u8], out: &mut Octets) -> Result<(), NoMemory>
    ensures appended { OnOk result (out.new.octets ≡ out.old.octets ++ body_of (entry.now ∷ [])) }
    ensures err { OnErr result (out.new.octets ≡ out.old.octets) }
{
    out.reserve(entry.len() + 4)?;
    out.push_few(LINE_END);
    put_line(entry, out);
    Ok(())
}

/// How many octets the body of these entries has.
pub fn body_len(list: &Entries) -> usize
    ensures { result ≡ length (body_of list.now) }
{
    list.body_len()
}

fn put_line(entry: &[u8], out: &mut Octets)
    requires { length entry.now + 2 ≤ out.old.spare }
    ensures appended { out.new.octets ≡ out.old.octets ++ (entry.now ++ line_end) }
    ensures room { out.old.spare ≤ out.new.spare + (length entry.now + 2) }
{
    out.extend_spare(entry);
    out.push_few(LINE_END);
}
