//! A session of `listen` whose lines are counted as they are written.
ghost use Rattle.std.specs.Prelude.{◌≡◌, ◌≤◌, ◌<◌, ◌+◌, ◌*◌, Some};
ghost use Rattle.beep_runs.specs.beep_journal.specs.declared.role.Role.{Role as RoleValue};
ghost use Rattle.beep_runs.specs.beep_link.specs.Causes.{Grows, IsBounded, IsCaused, IsUnused, IsWritten, Keeps, WhereKnown, WithText};
ghost use Rattle.beep_runs.specs.beep_listener.specs.Listening.{is_whole, listener_plan, AreLinesOf, HasLinesOf, KeepsWhere};
ghost use Rattle.beep_runs.specs.beep_steps.specs.EachEnd.{EachEndOn};
ghost use Rattle.beep_runs.specs.beep_steps.specs.Ends.{AreFit, reads_of};
ghost use Rattle.beep_runs.specs.beep_steps.specs.Logs.{moments, IsLawfulOn, Shows, terms_by};
ghost use Rattle.beep_runs.specs.beep_steps.specs.Refusing.{GoesUnrefused, ReadsOnlyGoing};
ghost use Rattle.beep_runs.specs.beep_steps.specs.Resting.{TellsIdle};
ghost use Rattle.beep_runs.specs.beep_wires.specs.declared.count.TheConstants.{COUNT_MAX};
ghost use Rattle.beep_runs.specs.Runs.{seen_by};

use beep_runs::beep_listener::{CountedSink, Counting, Ended, listen_end};
use beep_runs::beep_settings::Settings;
use beep_runs::beep_wires::{Sink, Wires};
use std::alloc::Global;

/// Listens on one link as [`listen_end`] does, by a sink that counts, and gives the sink back: in
/// proofs it is known to be of the same output, by a type that is of proofs alone.
pub(crate) fn listen_counted<'o, O: Sink, W: Wires, K: Counting>(
    alloc: Global,
    wires: &mut W,
    link: u32,
    settings: &Settings,
    sink: CountedSink<'o, O>,
) -> (Ended, CountedSink<'o, O>)
    requires known { K.known ≡ Some (record {
      output = sink.output.ghost_name;
      written = (O.state sink.output.now).written;
    }) }
    requires fit { AreFit settings.now }
    requires unused { IsUnused (W.state wires.old link) }
    ensures same_reference { result.1.output.ghost_name ≡ sink.entry.output.ghost_name }

    // What `listen_end` says.
    ensures caused { IsCaused result.0 (reads_of settings.now)
        (record { link = W.state wires.old link; quiets = (W.counts wires.old).quiets })
        (record { link = W.state wires.new link; quiets = (W.counts wires.new).quiets }) }
    ensures written { IsWritten result.0 (O.state sink.entry.output.now).faults
        (O.state result.1.output.now).faults }
    ensures grew { Grows (O.state sink.entry.output.now).written
        (O.state result.1.output.now).written }
    ensures lawful { WhereKnown (IsLawfulOn (terms_by RoleValue.Listener settings.now))
        (W.state wires.new link).log }
    ensures shown { WhereKnown (Shows (terms_by RoleValue.Listener settings.now) result.0)
        (W.state wires.new link).log }
    ensures unrefused { WhereKnown (GoesUnrefused (terms_by RoleValue.Listener settings.now)
        result.0) (W.state wires.new link).log }
    ensures waits { WhereKnown (ReadsOnlyGoing (terms_by RoleValue.Listener settings.now))
        (W.state wires.new link).log }
    ensures lines { WhereKnown (λ log. WithText (O.state sink.entry.output.now).written
        (O.state result.1.output.now).written
        (AreLinesOf (listener_plan settings.now) (is_whole result.0) (moments log)))
        (W.state wires.new link).log }
    ensures flushed { WhereKnown (λ log. WithText (O.state sink.entry.output.now).written
        (O.state result.1.output.now).written
        (λ text. KeepsWhere (HasLinesOf (listener_plan settings.now) text) result.0 log))
        (W.state wires.new link).log }
    ensures rested { WhereKnown (λ log.
        TellsIdle (listener_plan settings.now) result.0 (moments log))
        (W.state wires.new link).log }
    ensures each { WhereKnown (EachEndOn (listener_plan settings.now) result.0)
        (W.state wires.new link).log }
    ensures bounded { IsBounded (reads_of settings.now) (W.state wires.new link).log }
    ensures keeps { let seen = seen_by W.state W.counts W.asked W.lent in
        Keeps link (seen wires.old) (seen wires.new) }
    ensures kept { (O.state sink.entry.output.now).faults ≤ (O.state result.1.output.now).faults }
    ensures reads { (W.state wires.new link).reads
        ≤ (W.state wires.old link).reads + settings.now.octets * settings.now.idle }
    ensures exact { (W.state wires.old link).reads ≡ 0
        → (W.state wires.new link).reads < COUNT_MAX }
{
    let mut counted = sink.known::<K>();
    let ended = listen_end(alloc, wires, link, settings, &mut counted);
    (ended, counted.plain())
}
