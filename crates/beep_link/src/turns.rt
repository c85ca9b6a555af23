//! The turns over a link.
ghost use Rattle.std.specs.Prelude.{◌≡◌, ◌≤◌, ◌<◌, ◌+◌, ◌*◌, ◌++◌, ℕ, min, [], List, true, false, OnOk, IfErr};
ghost use Rattle.beep_wires.specs.Links.{Link};
ghost use Rattle.beep_wires.specs.declared.count.TheConstants.{COUNT_MAX};
ghost use Rattle.beep_link.specs.Between.{IsBetween};
ghost use Rattle.beep_link.specs.Causes.{CountsQuiet, CountsReads, Grows, IsBounded, IsCaused, IsUnused, IsWritten, Keeps, reads_left, ReadsWhere, TellsLeft, WhereKnown, WithText};
ghost use Rattle.beep_link.specs.declared.ended.Ended.{Ended as EndedValue};

use crate::buffers::Buffers;
use crate::end::End;
use crate::ended::Ended;
use crate::left::{Left, Reads};
use crate::read::read_once;
use crate::say::say;
use beep_octets::NoMemory;
use beep_wires::{Failed, Got, Sink, Wires};
use std::alloc::Global;

/// Turns of an end over a link, until its session has ended.
pub fn run_turns<E: End, W: Wires, O: Sink>(
    alloc: Global,
    end: &mut E,
    wires: &mut W,
    link: u32,
    reads: Reads,
    output: &mut O,
) -> Ended
    requires unused { IsUnused (W.state wires.old link) }
    ensures caused { IsCaused result reads
        (record { link = W.state wires.old link; quiets = (W.counts wires.old).quiets })
        (record { link = W.state wires.new link; quiets = (W.counts wires.new).quiets }) }
    ensures written { IsWritten result (O.state output.old).faults (O.state output.new).faults }
    ensures grew { Grows (O.state output.old).written (O.state output.new).written }
    ensures shown { E.stands end.old [] [] [] → WhereKnown (λ log.
        WithText (O.state output.old).written (O.state output.new).written
        (E.tells (E.terms end.old) result log)) (W.state wires.new link).log }

    // Wherever it read, its session wasn't over and it had nothing more to say: the settings may
    // have ended it there.
    ensures waits { E.stands end.old [] [] [] → WhereKnown (ReadsWhere (λ log. (text : List ℕ)
        × E.tells (E.terms end.old) (EndedValue.Idle 0) log text)) (W.state wires.new link).log }

    // What stays, and how often is read.
    ensures keeps { Keeps link
        (record {
          state = W.state wires.old;
          counts = W.counts wires.old;
          asked = W.asked wires.old;
          lent = W.lent wires.old;
        })
        (record {
          state = W.state wires.new;
          counts = W.counts wires.new;
          asked = W.asked wires.new;
          lent = W.lent wires.new;
        }) }
    ensures kept { (O.state output.old).faults ≤ (O.state output.new).faults }
    ensures reads { (W.state wires.new link).reads
        ≤ (W.state wires.old link).reads + reads.octets * reads.idle }
    ensures exact { (W.state wires.old link).reads ≡ 0
        → (W.state wires.new link).reads < COUNT_MAX }
    ensures bounded { IsBounded reads (W.state wires.new link).log }
{
    let Ok(mut buffers) = Buffers::new(alloc) else {
        return Ended::NoMemory;
    };
    let mut left = Left::of(reads);
    loop {
        match turn(end, &mut buffers, wires, link, reads, &mut left, output) {
            Ok(()) => {}
            Err(ended) => return ended,
        }
    }
}

/// Says what is due, looks whether the session has ended, and reads once.
///
/// One loop may take turns of several ends, each over a link of its own, with one pair of buffers
/// and one output. Each turn tells what its own end wrote to the output, whatever was written there
/// before, and leaves what is known of the other links.
pub fn turn<E: End, W: Wires, O: Sink>(
    end: &mut E,
    buffers: &mut Buffers,
    wires: &mut W,
    link: u32,
    reads: Reads,
    left: &mut Left,
    output: &mut O,
) -> Result<(), Ended>
    requires open { (W.state wires.old link).is_open ≡ true }
    requires going { (W.state wires.old link).has_ended ≡ false }
    requires unfailed { (W.state wires.old link).faults ≡ 0 }
    requires shown { TellsLeft reads left.old (W.state wires.old link).log }
    requires between { IsBetween buffers.old }
    ensures stands { (text : List ℕ)
        → WhereKnown (λ log. E.stands end.old log [] text) (W.state wires.old link).log
        → OnOk result (WithText (O.state output.old).written (O.state output.new).written
        (λ more. WhereKnown (λ log. E.stands end.new log [] (text ++ more))
        (W.state wires.new link).log)) }
    ensures stopped { (text : List ℕ)
        → WhereKnown (λ log. E.stands end.old log [] text) (W.state wires.old link).log
        → IfErr result (λ ended.
        WithText (O.state output.old).written (O.state output.new).written
        (λ more. WhereKnown (λ log. E.tells (E.terms end.old) ended log (text ++ more))
        (W.state wires.new link).log)) }
    ensures waits { (text : List ℕ)
        → WhereKnown (λ log. E.stands end.old log [] text) (W.state wires.old link).log
        → WhereKnown (ReadsWhere (λ log. (text : List ℕ)
        × E.tells (E.terms end.old) (EndedValue.Idle 0) log text)) (W.state wires.old link).log
        → WhereKnown (ReadsWhere (λ log. (text : List ℕ)
        × E.tells (E.terms end.old) (EndedValue.Idle 0) log text)) (W.state wires.new link).log }
    ensures going { OnOk result ((W.state wires.new link).has_ended ≡ false) }
    ensures falls { OnOk result (reads_left reads left.new < reads_left reads left.old) }
    ensures shown { OnOk result (TellsLeft reads left.new (W.state wires.new link).log) }
    ensures bounded { IsBounded reads (W.state wires.old link).log
        → IsBounded reads (W.state wires.new link).log }
    ensures unfailed { OnOk result
        ((W.state wires.new link).faults ≡ (W.state wires.old link).faults) }
    ensures counted { (before : ℕ) → CountsQuiet before left.old (W.counts wires.old).quiets
        → OnOk result (CountsQuiet before left.new (W.counts wires.new).quiets) }
    ensures came { (before : ℕ) → CountsReads reads before left.old (W.state wires.old link).reads
        → OnOk result (CountsReads reads before left.new (W.state wires.new link).reads) }
    ensures caused { (before : Link) (quiets : ℕ) → before.faults ≡ (W.state wires.old link).faults
        → CountsQuiet quiets left.old (W.counts wires.old).quiets
        → CountsReads reads before.reads left.old (W.state wires.old link).reads
        → IfErr result (λ ended. IsCaused ended reads (record { link = before; quiets = quiets })
        (record { link = W.state wires.new link; quiets = (W.counts wires.new).quiets })) }
    ensures written { IfErr result (λ ended.
        IsWritten ended (O.state output.old).faults (O.state output.new).faults) }
    ensures grew { Grows (O.state output.old).written (O.state output.new).written }

    // What stays.
    ensures keeps { Keeps link
        (record {
          state = W.state wires.old;
          counts = W.counts wires.old;
          asked = W.asked wires.old;
          lent = W.lent wires.old;
        })
        (record {
          state = W.state wires.new;
          counts = W.counts wires.new;
          asked = W.asked wires.new;
          lent = W.lent wires.new;
        }) }
    ensures kept { (O.state output.old).faults ≤ (O.state output.new).faults }
    ensures reads { (W.state wires.new link).reads
        ≤ (W.state wires.old link).reads + min 1 (reads_left reads left.old) }
    ensures between { IsBetween buffers.new }
    ensures terms { E.terms end.new ≡ E.terms end.old }
{
    say(end, &mut buffers.going, wires, link)?;
    if let Some(stop) = end.over() {
        return Err(Ended::of(stop));
    }
    if let Some(ended) = left.is_spent(reads) {
        return Err(ended);
    }
    match read_once(buffers.coming.as_mut_slice(), wires, link, reads, left) {
        Ok(Got::Bytes(count)) => match end.hear(&buffers.coming[..count], output) {
            Ok(()) => Ok(()),
            Err(stop) => Err(Ended::of(stop)),
        },
        Ok(Got::Quiet) => Ok(()),
        Ok(Got::End) => Err(Ended::Cut(end.left())),
        Err(Failed) => Err(Ended::WireFault),
    }
}
