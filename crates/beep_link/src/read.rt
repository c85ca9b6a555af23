//! One read of a link.
ghost use Rattle.std.specs.Prelude.{◌≡◌, ◌≤◌, ◌<◌, ◌+◌, ℕ, true, false, length, IfOk, OnOk, OnErr};
ghost use Rattle.beep_wires.specs.Got.{gives_end, read_entries};
ghost use Rattle.beep_wires.specs.Log.{Logs};
ghost use Rattle.beep_link.specs.Causes.{CountsQuiet, CountsReads, Keeps, Moves, fits_buffer};
ghost use Rattle.beep_link.specs.declared.buffers.TheConstants.{BUFFER};

use crate::buffers::BUFFER;
use crate::left::{Left, Reads};
use beep_wires::{Failed, Got, Wires};

/// Reads once, as much as the buffer holds and may still be read, and notes what came.
pub(crate) fn read_once<W: Wires>(
    coming: &mut [u8],
    wires: &mut W,
    link: u32,
    reads: Reads,
    left: &mut Left,
) -> Result<Got, Failed>
    requires open { (W.state wires.old link).is_open ≡ true }
    requires going { (W.state wires.old link).has_ended ≡ false }
    requires unfailed { (W.state wires.old link).faults ≡ 0 }
    requires buffer { length coming.old ≡ BUFFER }
    requires some { 0 < left.old.octets }
    requires few { left.old.quiets < reads.idle }
    ensures within { IfOk result (λ got. fits_buffer got) }
    ensures logged { Logs (W.state wires.old link).log (W.state wires.new link).log
        (read_entries result coming.new) }
    ensures end { (W.state wires.new link).has_ended ≡ gives_end result }
    ensures failed { OnErr result ((W.state wires.new link).faults ≡ 1) }
    ensures unfailed { OnOk result
        ((W.state wires.new link).faults ≡ (W.state wires.old link).faults) }
    ensures moves { IfOk result (λ got. Moves got reads left.old left.new
        (W.state wires.old link).log (W.state wires.new link).log) }
    ensures counted { (before : ℕ) → CountsQuiet before left.old (W.counts wires.old).quiets
        → OnOk result (CountsQuiet before left.new (W.counts wires.new).quiets) }
    ensures came { (before : ℕ) → CountsReads reads before left.old (W.state wires.old link).reads
        → OnOk result (CountsReads reads before left.new (W.state wires.new link).reads) }

    // What stays.
    ensures keeps { Keeps link
        (record {
          state = W.state wires.old;
          counts = W.counts wires.old;
          asked = W.asked wires.old;
          lent = W.lent wires.old;
        })
        (record {
          state = W.state wires.new;
          counts = W.counts wires.new;
          asked = W.asked wires.new;
          lent = W.lent wires.new;
        }) }
    ensures reads { (W.state wires.new link).reads ≤ (W.state wires.old link).reads + 1 }
    ensures buffer { length coming.new ≡ BUFFER }
{
    let room = BUFFER.min(left.octets as usize);
    let got = wires.read(link, &mut coming[..room]);
    match got {
        Ok(Got::Bytes(n)) => {
            left.octets -= n as u32;
            left.quiets = 0;
        }
        Ok(Got::Quiet) => left.quiets += 1,
        Ok(Got::End) | Err(Failed) => {}
    }
    got
}
