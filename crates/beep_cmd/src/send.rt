//! The command `send`: the lines of an input go to a collector.
ghost use Rattle.std.specs.Prelude.{◌≡◌, ◌≢◌, ◌+◌, ◌≤◌, ℕ, false, [], IfErr};
ghost use Rattle.beep_runs.specs.beep_journal.specs.declared.role.Role.{Role as RoleValue};
ghost use Rattle.beep_runs.specs.beep_steps.specs.Ends.{AreFit};
ghost use Rattle.beep_show.specs.beep_input.specs.declared.whole.TheConstants.{MAX_INPUT};
ghost use Rattle.beep_runs.specs.beep_link.specs.declared.ended.Ended.{Ended as EndedValue};
ghost use Rattle.beep_runs.specs.beep_steps.specs.Resting.{AreShort};
ghost use Rattle.beep_runs.specs.Runs.{seen_by};
ghost use Rattle.beep_cmd.specs.Ends.{AreShut, DialsOnce, GivesAtMost, ReadsWithin, SendCause, SendsLines, Sent, WritesLawfully};
ghost use Rattle.beep_show.specs.Show.{run_by};

use crate::closing::{finish, finish_unlisted};
use crate::recorded::record_send;
use beep_runs::beep_octets::Octets;
use beep_runs::beep_sender::{Ended, send_end};
use beep_runs::beep_settings::Settings;
use beep_runs::beep_wires::{Sink, Source, WireError, Wires};
use beep_runs::prof_raw::Entries;
use beep_runs::{taken_lines, tell_session};
use beep_show::beep_input::read_lines;
use beep_show::{LAST_ROOM, status};
use std::alloc::Global;

/// Runs `send`. It reads the whole input before it dials.
pub(crate) fn send<I: Source, O: Sink, W: Wires>(
    alloc: Global,
    settings: &Settings,
    input: &mut I,
    output: &mut O,
    wires: &mut W,
) -> u8
    requires fit { AreFit settings.now }
    requires going { (I.state input.old).ended ≡ false }
    ensures sent { let run = run_by I.state O.state input.old output.old input.new output.new in
        let seen = seen_by W.state W.counts W.asked W.lent in
        Sent settings.now (seen wires.old) (seen wires.new) result run }
    ensures lawful { let seen = seen_by W.state W.counts W.asked W.lent in
        WritesLawfully RoleValue.Initiator settings.now (seen wires.old) (seen wires.new) }
    ensures shut { let seen = seen_by W.state W.counts W.asked W.lent in
        AreShut (seen wires.old) (seen wires.new) }
    ensures given { let seen = seen_by W.state W.counts W.asked W.lent in
        GivesAtMost 1 (seen wires.old) (seen wires.new) }
    ensures link_reads { let seen = seen_by W.state W.counts W.asked W.lent in
        ReadsWithin settings.now (seen wires.old) (seen wires.new) }
    ensures asks { let seen = seen_by W.state W.counts W.asked W.lent in
        DialsOnce settings.now (seen wires.old) (seen wires.new) }
    ensures reads { (I.state input.new).reads ≤ (I.state input.old).reads + (MAX_INPUT + 1) }
{
    let mut last = Octets::new(alloc);
    let Ok(()) = last.reserve(LAST_ROOM) else {
        return status::NO_MEMORY;
    };
    match read_lines(alloc, input) {
        Ok(lines) => {
            if settings.recording {
                return record_send(alloc, settings, &lines, &mut last, output, wires);
            }
            let ended = send_lines(alloc, settings, &lines, wires);
            finish(&mut last, ended, output)
        }
        Err(why) => finish_unlisted(&mut last, why, output),
    }
}

/// Dials, and sends lines.
fn send_lines<W: Wires>(alloc: Global, settings: &Settings, lines: &Entries, wires: &mut W) -> Ended
    requires fit { AreFit settings.now }
    ensures unwritten { result ≢ EndedValue.WriteFault }
    ensures caused { let seen = seen_by W.state W.counts W.asked W.lent in
        SendCause result settings.now (seen wires.old) (seen wires.new) }
    ensures sent { let seen = seen_by W.state W.counts W.asked W.lent in
        AreShort lines.now → SendsLines result settings.now lines.now (seen wires.old)
        (seen wires.new) }
    ensures lawful { let seen = seen_by W.state W.counts W.asked W.lent in
        WritesLawfully RoleValue.Initiator settings.now (seen wires.old) (seen wires.new) }
    ensures shut { let seen = seen_by W.state W.counts W.asked W.lent in
        AreShut (seen wires.old) (seen wires.new) }
    ensures given { let seen = seen_by W.state W.counts W.asked W.lent in
        GivesAtMost 1 (seen wires.old) (seen wires.new) }
    ensures link_reads { let seen = seen_by W.state W.counts W.asked W.lent in
        ReadsWithin settings.now (seen wires.old) (seen wires.new) }
    ensures asks { let seen = seen_by W.state W.counts W.asked W.lent in
        DialsOnce settings.now (seen wires.old) (seen wires.new) }
{
    let link = match wires.dial(settings.host.as_str(), settings.port) {
        Ok(link) => link,
        Err(WireError::Failed) => return Ended::WireFault,
        Err(WireError::NoMemory) => return Ended::NoMemory,
    };
    let ended = send_end(alloc, wires, link, settings, lines);
    tell_session(wires, link, settings, ended, taken_lines(ended, lines));
    wires.shut(link);
    ended
}
