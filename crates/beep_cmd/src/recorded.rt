//! Runs of `send` and `listen` whose link is recorded (docs/FORMATS.md, "Records").
ghost use Rattle.std.specs.Prelude.{◌≡◌, ◌≢◌, ◌≤◌, []};
ghost use Rattle.beep_runs.specs.beep_journal.specs.declared.role.Role.{Role as RoleValue};
ghost use Rattle.beep_runs.specs.beep_steps.specs.Ends.{AreFit};
ghost use Rattle.beep_runs.specs.beep_link.specs.declared.ended.Ended.{Ended as EndedValue};
ghost use Rattle.beep_runs.specs.beep_wires.specs.Links.{Link};
ghost use Rattle.beep_runs.specs.beep_record.specs.declared.limits.TheConstants.{MAX_STATUS};
ghost use Rattle.beep_runs.specs.beep_recorder.specs.Kept.{RecordsLink};
ghost use Rattle.beep_runs.specs.beep_steps.specs.Resting.{AreShort};
ghost use Rattle.beep_runs.specs.Runs.{seen_by};
ghost use Rattle.beep_cmd.specs.Ends.{AcceptsAtMost, AreShut, DialsOnce, ended_status, GivesAtMost, ListenCause, ReadsWithin, WritesLawfully};
ghost use Rattle.beep_cmd.specs.Recording.{ListenRecorded, SendRecorded, TellsRecord, TellsWhole};

use crate::closing::{finish, tell};
use beep_runs::beep_listener::Ended;
use beep_runs::beep_octets::Octets;
use beep_runs::beep_settings::Settings;
use beep_runs::beep_wires::{Sink, Wires};
use beep_runs::prof_raw::Entries;
use beep_runs::{listen_recorded, send_recorded};
use beep_show::{LAST_ROOM, append_numbered, status};
use std::alloc::Global;

/// Dials, sends lines over a link that is recorded, and writes its record.
pub(crate) fn record_send<O: Sink, W: Wires>(
    alloc: Global,
    settings: &Settings,
    lines: &Entries,
    last: &mut Octets,
    output: &mut O,
    wires: &mut W,
) -> u8
    requires fit { AreFit settings.now }
    requires empty { last.old.octets ≡ [] }
    requires room { LAST_ROOM ≤ last.old.spare }
    ensures recorded { let seen = seen_by W.state W.counts W.asked W.lent in
        AreShort lines.now → SendRecorded settings.now lines.now (seen wires.old) (seen wires.new)
        result (O.state output.old) (O.state output.new) }
    ensures lawful { let seen = seen_by W.state W.counts W.asked W.lent in
        WritesLawfully RoleValue.Initiator settings.now (seen wires.old) (seen wires.new) }
    ensures shut { let seen = seen_by W.state W.counts W.asked W.lent in
        AreShut (seen wires.old) (seen wires.new) }
    ensures given { let seen = seen_by W.state W.counts W.asked W.lent in
        GivesAtMost 1 (seen wires.old) (seen wires.new) }
    ensures link_reads { let seen = seen_by W.state W.counts W.asked W.lent in
        ReadsWithin settings.now (seen wires.old) (seen wires.new) }
    ensures asks { let seen = seen_by W.state W.counts W.asked W.lent in
        DialsOnce settings.now (seen wires.old) (seen wires.new) }
{
    let mut out = Octets::new(alloc);
    match send_recorded(alloc, settings, lines, wires, &mut out) {
        Ok(ended) => tell_record(&mut out, ended, output),
        Err(ended) => finish(last, ended, output),
    }
}

/// Accepts one link, listens on it while it is recorded, and writes its record.
pub(crate) fn record_listen<O: Sink, W: Wires>(
    alloc: Global,
    settings: &Settings,
    last: &mut Octets,
    output: &mut O,
    wires: &mut W,
) -> u8
    requires fit { AreFit settings.now }
    requires one { settings.now.sessions ≡ 1 }
    requires empty { last.old.octets ≡ [] }
    requires room { LAST_ROOM ≤ last.old.spare }
    ensures recorded { let seen = seen_by W.state W.counts W.asked W.lent in
        ListenRecorded settings.now (seen wires.old) (seen wires.new) result (O.state output.old)
        (O.state output.new) }
    ensures lawful { let seen = seen_by W.state W.counts W.asked W.lent in
        WritesLawfully RoleValue.Listener settings.now (seen wires.old) (seen wires.new) }
    ensures shut { let seen = seen_by W.state W.counts W.asked W.lent in
        AreShut (seen wires.old) (seen wires.new) }
    ensures given { let seen = seen_by W.state W.counts W.asked W.lent in
        GivesAtMost settings.now.sessions (seen wires.old) (seen wires.new) }
    ensures link_reads { let seen = seen_by W.state W.counts W.asked W.lent in
        ReadsWithin settings.now (seen wires.old) (seen wires.new) }
    ensures asks { let seen = seen_by W.state W.counts W.asked W.lent in
        AcceptsAtMost settings.now (seen wires.old) (seen wires.new) }
{
    let mut out = Octets::new(alloc);
    match listen_recorded(alloc, settings, wires, &mut out) {
        Ok(ended) => tell_record(&mut out, ended, output),
        Err(ended) => finish(last, ended, output),
    }
}

/// Writes a record with the status of what ended its run, and answers the status. Where memory
/// ran out nothing is written.
fn tell_record<O: Sink>(out: &mut Octets, ended: Ended, output: &mut O) -> u8
    ensures { (role : RoleValue) (link : Link)
        → (ended ≢ EndedValue.NoMemory → RecordsLink link role [] out.old.octets)
        → TellsRecord role link ended result (O.state output.old) (O.state output.new) }
{
    match ended {
        Ended::NoMemory => status::NO_MEMORY,
        Ended::Released
        | Ended::Broken(..)
        | Ended::WriteFault
        | Ended::WireFault
        | Ended::Refused(_)
        | Ended::Cut(_)
        | Ended::Idle(_)
        | Ended::Spent(_) => tell_whole(out, status_of(ended), output),
    }
}

/// Writes a record with a status, and answers it, or `WRITE_FAULT`, or `NO_MEMORY` where the status
/// finds no room.
fn tell_whole<O: Sink>(out: &mut Octets, status: u8, output: &mut O) -> u8
    ensures { (role : RoleValue) (link : Link) → status ≤ MAX_STATUS
        → RecordsLink link role [] out.old.octets
        → TellsWhole role link status result (O.state output.old) (O.state output.new) }
{
    let Ok(()) = out.reserve(LAST_ROOM) else {
        return status::NO_MEMORY;
    };
    append_numbered(out, b"S ", u64::from(status));
    tell(out, status, output)
}

/// The status of what ended a session.
fn status_of(ended: Ended) -> u8
    ensures { result ≡ ended_status ended }
{
    match ended {
        Ended::Released => status::FINE,
        Ended::Broken(_, _) => status::BROKEN,
        Ended::WriteFault => status::WRITE_FAULT,
        Ended::WireFault => status::WIRE_FAULT,
        Ended::NoMemory => status::NO_MEMORY,
        Ended::Refused(_) => status::REFUSED,
        Ended::Cut(_) => status::CUT,
        Ended::Idle(_) => status::IDLE,
        Ended::Spent(_) => status::SPENT,
    }
}
