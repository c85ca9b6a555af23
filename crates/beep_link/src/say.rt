//! Writing all that is due.
ghost use Rattle.std.specs.Prelude.{◌≡◌, ◌⊎◌, [], ℕ, List, false, true, IfErr, IfOk, OnOk};
ghost use Rattle.beep_wires.specs.Log.{Entry};
ghost use Rattle.beep_link.specs.Causes.{GrewByWrites, Keeps, SameReads, WhereKnown};
ghost use Rattle.beep_link.specs.declared.ended.Ended.{Ended as EndedValue};

use crate::buffers::BUFFER;
use crate::end::End;
use crate::ended::Ended;
use beep_octets::{NoMemory, Octets};
use beep_wires::{Failed, Wires, write_link};

/// How many buffers are written at most between two reads. An end holds in memory what it says, and
/// no memory has so much: one that has still more to say ends as where memory ran out.
pub const ROUNDS: u64 = u64::MAX;

/// Writes all that is due, as much at once as is gathered, until the end rests.
pub(crate) fn say<E: End, W: Wires>(
    end: &mut E,
    going: &mut Octets,
    wires: &mut W,
    link: u32,
) -> Result<(), Ended>
    requires open { (W.state wires.old link).is_open ≡ true }
    requires unfailed { (W.state wires.old link).faults ≡ 0 }
    requires empty { going.old.octets ≡ [] }
    ensures said { (text : List ℕ)
        → WhereKnown (λ log. E.stands end.old log [] text) (W.state wires.old link).log
        → OnOk result
        (WhereKnown (λ log. E.stands end.new log [] text) (W.state wires.new link).log) }
    ensures rested { (text : List ℕ)
        → WhereKnown (λ log. E.stands end.old log [] text) (W.state wires.old link).log
        → OnOk result (WhereKnown (λ log. E.rests end.new) (W.state wires.new link).log) }
    ensures stopped { (text : List ℕ)
        → WhereKnown (λ log. E.stands end.old log [] text) (W.state wires.old link).log
        → IfErr result (λ ended. WhereKnown (λ log. E.tells (E.terms end.old) ended log text)
        (W.state wires.new link).log) }
    ensures failed { IfErr result (λ ended. ((ended ≡ EndedValue.NoMemory)
        × ((W.state wires.new link).faults ≡ (W.state wires.old link).faults))
        ⊎ ((ended ≡ EndedValue.WireFault) × ((W.state wires.new link).faults ≡ 1))) }
    ensures unfailed { OnOk result
        ((W.state wires.new link).faults ≡ (W.state wires.old link).faults) }

    // What stays.
    ensures empty { going.new.octets ≡ [] }
    ensures terms { E.terms end.new ≡ E.terms end.old }
    ensures keeps { Keeps link
        (record {
          state = W.state wires.old;
          counts = W.counts wires.old;
          asked = W.asked wires.old;
          lent = W.lent wires.old;
        })
        (record {
          state = W.state wires.new;
          counts = W.counts wires.new;
          asked = W.asked wires.new;
          lent = W.lent wires.new;
        }) }
    ensures writes { GrewByWrites (W.state wires.old link).log (W.state wires.new link).log }
    ensures same_counts { W.counts wires.new ≡ W.counts wires.old }
    ensures same_reads { SameReads (W.state wires.old link) (W.state wires.new link) }
{
    for _ in 0..ROUNDS {
        let Ok(is_more) = gather_some(end, going) else {
            going.clear();
            return Err(Ended::NoMemory);
        };
        let written = write_link(wires, link, going.as_slice());
        going.clear();
        match written {
            Ok(()) => {}
            Err(Failed) => return Err(Ended::WireFault),
        }
        if !is_more {
            return Ok(());
        }
    }
    Err(Ended::NoMemory)
}

/// Gathers what is due, as far as the buffer goes.
fn gather_some<E: End>(end: &mut E, going: &mut Octets) -> Result<bool, NoMemory>
    ensures said { (log : List Entry) (text : List ℕ) → E.stands end.old log going.old.octets text
        → OnOk result (E.stands end.new log going.new.octets text) }
    ensures rested { (log : List Entry) (text : List ℕ)
        → E.stands end.old log going.old.octets text
        → IfOk result (λ more. more ≡ false → E.rests end.new) }
    ensures terms { E.terms end.new ≡ E.terms end.old }
{
    // It takes memory only where the room isn't there.
    going.reserve(BUFFER)?;
    end.gather(going)
}
