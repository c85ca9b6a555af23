//! The command `pair`: a schedule, run between two ends in memory.
ghost use Rattle.std.specs.Prelude.{◌≡◌, ◌⊎◌, ◌+◌, ◌≤◌, None, false, [], length, IfOk, OnOk, OnErr};
ghost use Rattle.beep_runs.specs.beep_wires.specs.States.{SourceState};
ghost use Rattle.beep_show.specs.beep_input.specs.Whole.{ReadsFew};
ghost use Rattle.beep_show.specs.beep_input.specs.declared.whole.TheConstants.{MAX_INPUT};
ghost use Rattle.beep_runs.specs.beep_session.specs.Session.{AreLimits};
ghost use Rattle.beep_show.specs.beep_words.specs.declared.command.PairSettings.{PairSettings as settings_type};
ghost use Rattle.beep_pair.specs.Command.{Sums};
ghost use Rattle.beep_cmd.specs.Pair.{limits_of, Paired, IsPairing};
ghost use Rattle.beep_cmd.specs.Pairing.{TellsPair, TellsSchedule};
ghost use Rattle.beep_show.specs.Show.{run_of, run_by};

use beep_pair::{Limits, Outcome, report, summary};
use beep_runs::beep_octets::{NoMemory, Octets};
use beep_runs::beep_wires::{Failed, Sink, Source, write_all};
use beep_schedule::laws::a_schedule_has_no_bad_line;
use beep_show::beep_input::{MAX_INPUT, Unread, line_past, read_input};
use beep_show::beep_words::PairSettings;
use beep_show::{LAST_ROOM, append_numbered, status};
use std::alloc::Global;

/// Runs `pair`. It writes nothing before the whole report is made.
pub(crate) fn pair<I: Source, O: Sink>(
    alloc: Global,
    settings: PairSettings,
    input: &mut I,
    output: &mut O,
) -> u8
    requires going { (I.state input.old).ended ≡ false }
    requires fit { AreLimits (limits_of settings) }
    ensures paired { let run = run_by I.state O.state input.old output.old input.new output.new in
        Paired settings result run }
    ensures unwritten { result ≡ 7 → output.new ≡ output.old }
    ensures reads { (I.state input.new).reads ≤ (I.state input.old).reads + (MAX_INPUT + 1) }
    ensures unread { (settings.seed ≡ None) ⊎ (input.new ≡ input.old) }
{
    let mut out = Octets::new(alloc);
    match tell_pair(alloc, settings, input, &mut out) {
        Ok(status) => write_report(&out, status, output),
        Err(NoMemory) => status::NO_MEMORY,
    }
}

/// Writes a report, and answers its status.
fn write_report<O: Sink>(out: &Octets, status: u8, output: &mut O) -> u8
    ensures wrote { (settings : settings_type) (from to : SourceState)
        → TellsPair settings status out.now.octets from to
        → Paired settings result (run_of from to (O.state output.old) (O.state output.new)) }
    ensures memory { (settings : settings_type) (from to : SourceState)
        → TellsPair settings status out.now.octets from to → result ≡ 7
        → output.new ≡ output.old }
{
    match write_all(output, out.as_slice()) {
        Ok(()) => status,
        Err(Failed) => status::WRITE_FAULT,
    }
}

/// What both ends set for themselves.
fn limits_in(settings: PairSettings) -> Limits
    ensures { result ≡ limits_of settings }
{
    Limits {
        window: settings.window,
        piece: settings.piece,
    }
}

/// Makes the report of an input, or the summary of a number's schedule, and answers its status.
fn tell_pair<I: Source>(
    alloc: Global,
    settings: PairSettings,
    input: &mut I,
    out: &mut Octets,
) -> Result<u8, NoMemory>
    requires going { (I.state input.old).ended ≡ false }
    requires fit { AreLimits (limits_of settings) }
    requires empty { out.old.octets ≡ [] }
    ensures ok { IfOk result (λ status. TellsPair settings status out.new.octets
        (I.state input.old) (I.state input.new)) }
    ensures err { OnErr result (ReadsFew (I.state input.old) (I.state input.new)) }
    ensures reads { (I.state input.new).reads ≤ (I.state input.old).reads + (MAX_INPUT + 1) }
    ensures unread { (settings.seed ≡ None) ⊎ (input.new ≡ input.old) }
{
    match settings.seed {
        Some(seed) => {
            tell_made(alloc, settings, seed, out)?;
            Ok(status::FINE)
        }
        None => tell_input(alloc, settings, input, out),
    }
}

/// Runs the schedule that a number makes, and takes the summary of its report.
fn tell_made(
    alloc: Global,
    settings: PairSettings,
    seed: u32,
    out: &mut Octets,
) -> Result<(), NoMemory>
    requires fit { AreLimits (limits_of settings) }
    ensures { OnOk result (Sums (limits_of settings) seed out.new.octets) }
{
    let text = summary(alloc, limits_in(settings), seed)?;
    *out = text;
    Ok(())
}

/// Makes the report of an input, and answers its status.
fn tell_input<I: Source>(
    alloc: Global,
    settings: PairSettings,
    input: &mut I,
    out: &mut Octets,
) -> Result<u8, NoMemory>
    requires going { (I.state input.old).ended ≡ false }
    requires fit { AreLimits (limits_of settings) }
    requires empty { out.old.octets ≡ [] }
    ensures ok { IfOk result (λ status. TellsSchedule settings status out.new.octets
        (I.state input.old) (I.state input.new)) }
    ensures err { OnErr result (ReadsFew (I.state input.old) (I.state input.new)) }
    ensures reads { (I.state input.new).reads ≤ (I.state input.old).reads + (MAX_INPUT + 1) }
{
    out.reserve(LAST_ROOM)?;
    match read_input(alloc, input) {
        Ok(octets) if octets.len() > MAX_INPUT => {
            append_numbered(out, b"! bad ", line_past(octets.as_slice()));
            Ok(status::BAD)
        }
        Ok(octets) => tell_schedule(alloc, settings, octets.as_slice(), out),
        Err(Unread::Fault) => {
            out.extend_within(b"! read fault\n");
            Ok(status::READ_FAULT)
        }
        Err(Unread::NoMemory) => Err(NoMemory),
    }
}

/// Makes the report of a whole input, and answers its status.
fn tell_schedule(
    alloc: Global,
    settings: PairSettings,
    octets: &[u8],
    out: &mut Octets,
) -> Result<u8, NoMemory>
    requires fit { AreLimits (limits_of settings) }
    requires within { length octets.now ≤ MAX_INPUT }
    requires empty { out.old.octets ≡ [] }
    requires room { LAST_ROOM ≤ out.old.spare }
    ensures { IfOk result (λ status. IsPairing settings octets.now out.new.octets status) }
{
    a_schedule_has_no_bad_line();
    match report(alloc, limits_in(settings), octets)? {
        Outcome::Report(report) => {
            *out = report;
            Ok(status::FINE)
        }
        Outcome::Bad(number) => {
            append_numbered(out, b"! bad ", u64::from(number));
            Ok(status::BAD)
        }
    }
}
