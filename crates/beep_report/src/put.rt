//! Words and numbers of a report.
ghost use Rattle.std.specs.Prelude.{◌≡◌, ◌++◌, OnOk};
ghost use Rattle.beep_schedule.specs.Events.{field, end_text};

use beep_peer::beep_octets::{NoMemory, Octets};
use beep_schedule::End;
use itoa::Buffer;

/// Appends a space and a number.
pub(crate) fn put_field(out: &mut Octets, n: u64) -> Result<(), NoMemory>
    ensures { OnOk result (out.new.octets ≡ out.old.octets ++ field n) }
{
    let mut buffer = Buffer::new();
    out.extend(b" ")?;
    out.extend(buffer.format(n).as_bytes())
}

pub(crate) fn put_word(out: &mut Octets, word: &str) -> Result<(), NoMemory>
    ensures { OnOk result (out.new.octets ≡ out.old.octets ++ word.now) }
{
    out.extend(word.as_bytes())
}

pub(crate) fn put_end(out: &mut Octets, at: End) -> Result<(), NoMemory>
    ensures { OnOk result (out.new.octets ≡ out.old.octets ++ end_text at) }
{
    match at {
        End::A => put_word(out, "A"),
        End::B => put_word(out, "B"),
    }
}
