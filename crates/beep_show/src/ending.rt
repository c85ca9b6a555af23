//! How a reading ends, and the last line and the status that it then has (docs/COMMANDS.md).
ghost use Rattle.std.specs.Prelude.{◌≡◌, ◌≤◌, ◌++◌};
ghost use Rattle.beep_show.specs.LastLine.{status_of, last_line};

use crate::status;
use crate::text::{LAST_ROOM, append_broken, append_numbered, append_totals};
use beep_frame::Rule;
use beep_octets::Octets;

/// What ended the reading.
#[derive(Clone, Copy, Debug, PartialEq, Eq)]
pub(crate) enum Ending {
    /// The input ended after so many octets.
    Ended(u64),
    /// As many octets came as are read at most.
    Spent(u32),
    /// A read failed, so that more octets may follow than were read.
    ReadFault,
    /// A write failed, so that there is no last line.
    WriteFault,
    /// An element found no memory.
    NoMemory,
    /// The stream broke this rule at this octet.
    Broken(Rule, u64),
}

/// Appends the last line of an ending, where it finds room, and answers its status.
pub(crate) fn append_last(out: &mut Octets, ending: Ending, frames: u64, left: u64) -> u8
    ensures status { result ≡ status_of ending left }
    ensures appended { LAST_ROOM ≤ out.old.spare
        → out.new.octets ≡ out.old.octets ++ last_line ending frames left }
{
    match ending {
        Ending::Ended(octets) if left == 0 => {
            append_totals(out, frames, octets);
            status::FINE
        }
        Ending::Ended(_) => {
            append_numbered(out, b"! cut ", left);
            status::CUT
        }
        Ending::Spent(octets) => {
            append_numbered(out, b"! spent ", u64::from(octets));
            status::SPENT
        }
        Ending::ReadFault => {
            out.extend_within(b"! read fault\n");
            status::READ_FAULT
        }
        Ending::WriteFault => status::WRITE_FAULT,
        Ending::NoMemory => status::NO_MEMORY,
        Ending::Broken(rule, place) => {
            append_broken(out, rule, place);
            status::BROKEN
        }
    }
}
