//! The command `replay`: a recorded session, judged by the rules of both of its directions.
ghost use Rattle.std.specs.Prelude.{◌≡◌, ◌+◌, ◌≤◌, ◌++◌, false, [], length, IfOk, OnOk, OnErr};
ghost use Rattle.beep_runs.specs.beep_wires.specs.States.{SourceState, SinkState};
ghost use Rattle.beep_show.specs.beep_input.specs.Whole.{ReadsFew};
ghost use Rattle.beep_show.specs.beep_input.specs.declared.whole.TheConstants.{MAX_INPUT};
ghost use Rattle.beep_cmd.specs.Judging.{ReportsInput, verdict_status, verdict_line};
ghost use Rattle.beep_cmd.specs.Replay.{Replayed, IsJudgement};
ghost use Rattle.beep_show.specs.Show.{run_of, run_by};

use beep_runs::beep_octets::{NoMemory, Octets};
use beep_runs::beep_record::{RecordError, Verdict, replay_text};
use beep_runs::beep_wires::{Failed, Sink, Source, write_all};
use beep_show::beep_input::{MAX_INPUT, Unread, read_input};
use beep_show::{LAST_ROOM, append_broken, append_numbered, append_written, status};
use std::alloc::Global;

/// Runs `replay`. It writes nothing before the whole input is judged.
pub(crate) fn replay<I: Source, O: Sink>(alloc: Global, input: &mut I, output: &mut O) -> u8
    requires going { (I.state input.old).ended ≡ false }
    ensures replayed { let run = run_by I.state O.state input.old output.old input.new output.new in
        Replayed result run }
    ensures unwritten { result ≡ 7 → output.new ≡ output.old }
    ensures reads { (I.state input.new).reads ≤ (I.state input.old).reads + (MAX_INPUT + 1) }
{
    let mut out = Octets::new(alloc);
    match tell_input(alloc, input, &mut out) {
        Ok(status) => write_report(&out, status, output),
        Err(NoMemory) => status::NO_MEMORY,
    }
}

/// Writes a report, and answers its status.
fn write_report<O: Sink>(out: &Octets, status: u8, output: &mut O) -> u8
    ensures wrote { (from to : SourceState) → ReportsInput status out.now.octets from to
        → Replayed result (run_of from to (O.state output.old) (O.state output.new)) }
    ensures memory { (from to : SourceState) → ReportsInput status out.now.octets from to
        → result ≡ 7 → output.new ≡ output.old }
{
    match write_all(output, out.as_slice()) {
        Ok(()) => status,
        Err(Failed) => status::WRITE_FAULT,
    }
}

/// Makes the report of an input, and answers its status.
fn tell_input<I: Source>(alloc: Global, input: &mut I, out: &mut Octets) -> Result<u8, NoMemory>
    requires going { (I.state input.old).ended ≡ false }
    requires empty { out.old.octets ≡ [] }
    ensures ok { IfOk result (λ status.
        ReportsInput status out.new.octets (I.state input.old) (I.state input.new)) }
    ensures err { OnErr result (ReadsFew (I.state input.old) (I.state input.new)) }
    ensures reads { (I.state input.new).reads ≤ (I.state input.old).reads + (MAX_INPUT + 1) }
{
    out.reserve(LAST_ROOM)?;
    match read_input(alloc, input) {
        Ok(octets) if octets.len() > MAX_INPUT => {
            append_numbered(out, b"! bad ", MAX_INPUT as u64);
            Ok(status::BAD)
        }
        Ok(octets) => tell_record(octets, out),
        Err(Unread::Fault) => {
            out.extend_within(b"! read fault\n");
            Ok(status::READ_FAULT)
        }
        Err(Unread::NoMemory) => Err(NoMemory),
    }
}

/// Makes the report of a whole input. The octets are dropped once they are judged.
fn tell_record(octets: Vec<u8>, out: &mut Octets) -> Result<u8, NoMemory>
    requires empty { out.old.octets ≡ [] }
    requires room { LAST_ROOM ≤ out.old.spare }
    ensures { IfOk result (λ status. length octets.items ≤ MAX_INPUT
        → IsJudgement octets.items out.new.octets status) }
{
    let read = replay_text(out.alloc(), octets.as_slice());
    drop(octets);
    match read {
        Ok((verdict, report)) => {
            *out = report;
            tell_verdict(verdict, out)
        }
        Err(RecordError::BadRecord(place)) => {
            append_numbered(out, b"! bad ", place);
            Ok(status::BAD)
        }
        Err(RecordError::NoMemory) => Err(NoMemory),
    }
}

/// Appends the last line of a verdict, and answers its status.
fn tell_verdict(verdict: Verdict, out: &mut Octets) -> Result<u8, NoMemory>
    ensures status { IfOk result (λ status. status ≡ verdict_status verdict) }
    ensures appended { OnOk result (out.new.octets ≡ out.old.octets ++ verdict_line verdict) }
{
    out.reserve(LAST_ROOM)?;
    Ok(append_verdict(out, verdict))
}

/// Appends the last line of a verdict, where it finds room, and answers its status.
fn append_verdict(out: &mut Octets, verdict: Verdict) -> u8
    ensures status { result ≡ verdict_status verdict }
    ensures appended { LAST_ROOM ≤ out.old.spare
        → out.new.octets ≡ out.old.octets ++ verdict_line verdict }
{
    match verdict {
        Verdict::Fine => status::FINE,
        Verdict::Broken(rule, place) => {
            append_broken(out, rule, place);
            status::BROKEN
        }
        Verdict::Written(rule, place) => {
            append_written(out, rule, place);
            status::BAD
        }
    }
}
