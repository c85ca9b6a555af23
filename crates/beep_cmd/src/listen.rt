//! The command `listen`: a collector of syslog over BEEP.
ghost use Rattle.std.specs.Prelude.{◌≡◌, ◌≤◌, ℕ, true, false, IfOk, IfErr, OnErr};
ghost use Rattle.beep_runs.specs.beep_journal.specs.declared.role.Role.{Role as RoleValue};
ghost use Rattle.beep_runs.specs.beep_steps.specs.Ends.{AreFit};
ghost use Rattle.beep_runs.specs.beep_link.specs.Causes.{Grows, IsWritten};
ghost use Rattle.beep_runs.specs.beep_wires.specs.States.{SourceState};
ghost use Rattle.beep_runs.specs.Runs.{seen_by};
ghost use Rattle.beep_cmd.specs.Ends.{AcceptsAtMost, AreShut, ends_run, GivesAtMost, ListenCause, Listened, ReadsWithin, WritesLawfully};
ghost use Rattle.beep_cmd.specs.Listening.{EndsBy, first_of, WritesLines};
ghost use Rattle.beep_cmd.specs.Serving.{NotAccepted, Served, WritesSession, WritesSessions};
ghost use Rattle.beep_cmd.specs.Recording.{ListenRecorded};
ghost use Rattle.beep_show.specs.Show.{run_of};

use crate::closing::finish;
use crate::counting::listen_counted;
use crate::recorded::record_listen;
use beep_runs::beep_listener::{CountedSink, Ended};
use beep_runs::beep_octets::Octets;
use beep_runs::beep_settings::Settings;
use beep_runs::beep_wires::{Sink, WireError, Wires};
use beep_runs::tell_session;
use beep_show::{LAST_ROOM, status};
use std::alloc::Global;
use std::marker::Brand;

/// Runs `listen`: it accepts links one after another, as many as the settings say.
pub(crate) fn listen<O: Sink, W: Wires>(
    alloc: Global,
    settings: &Settings,
    output: &mut O,
    wires: &mut W,
) -> u8
    requires fit { AreFit settings.now }
    requires lone { settings.now.recording ≡ true → settings.now.sessions ≡ 1 }
    ensures listened { let seen = seen_by W.state W.counts W.asked W.lent in
        (source : SourceState) → Listened settings.now (seen wires.old) (seen wires.new) result
        (run_of source source (O.state output.old) (O.state output.new)) }
    ensures lines { let seen = seen_by W.state W.counts W.asked W.lent in
        settings.now.recording ≡ false → WritesLines settings.now (seen wires.old)
        (seen wires.new) result (O.state output.old) (O.state output.new) }
    ensures lawful { let seen = seen_by W.state W.counts W.asked W.lent in
        WritesLawfully RoleValue.Listener settings.now (seen wires.old) (seen wires.new) }
    ensures shut { let seen = seen_by W.state W.counts W.asked W.lent in
        AreShut (seen wires.old) (seen wires.new) }
    ensures given { let seen = seen_by W.state W.counts W.asked W.lent in
        GivesAtMost settings.now.sessions (seen wires.old) (seen wires.new) }
    ensures link_reads { let seen = seen_by W.state W.counts W.asked W.lent in
        ReadsWithin settings.now (seen wires.old) (seen wires.new) }
    ensures asks { let seen = seen_by W.state W.counts W.asked W.lent in
        AcceptsAtMost settings.now (seen wires.old) (seen wires.new) }
    ensures recorded { let seen = seen_by W.state W.counts W.asked W.lent in
        settings.now.recording ≡ true → ListenRecorded settings.now (seen wires.old)
        (seen wires.new) result (O.state output.old) (O.state output.new) }
{
    let mut last = Octets::new(alloc);
    let Ok(()) = last.reserve(LAST_ROOM) else {
        return status::NO_MEMORY;
    };
    if settings.recording {
        return record_listen(alloc, settings, &mut last, output, wires);
    }
    let ended = listen_all(alloc, settings, output, wires);
    finish(&mut last, ended, output)
}

/// What ended the first session that wasn't released, or the run.
fn listen_all<O: Sink, W: Wires>(
    alloc: Global,
    settings: &Settings,
    output: &mut O,
    wires: &mut W,
) -> Ended
    requires fit { AreFit settings.now }
    ensures caused { let seen = seen_by W.state W.counts W.asked W.lent in
        ListenCause result settings.now (seen wires.old) (seen wires.new) }
    ensures lines { let seen = seen_by W.state W.counts W.asked W.lent in
        WritesSessions settings.now (seen wires.old) (seen wires.new) (EndsBy settings.now
        (seen wires.old) (seen wires.new) result) (O.state output.old).written
        (O.state output.new).written }
    ensures lawful { let seen = seen_by W.state W.counts W.asked W.lent in
        WritesLawfully RoleValue.Listener settings.now (seen wires.old) (seen wires.new) }
    ensures shut { let seen = seen_by W.state W.counts W.asked W.lent in
        AreShut (seen wires.old) (seen wires.new) }
    ensures given { let seen = seen_by W.state W.counts W.asked W.lent in
        GivesAtMost settings.now.sessions (seen wires.old) (seen wires.new) }
    ensures link_reads { let seen = seen_by W.state W.counts W.asked W.lent in
        ReadsWithin settings.now (seen wires.old) (seen wires.new) }
    ensures asks { let seen = seen_by W.state W.counts W.asked W.lent in
        AcceptsAtMost settings.now (seen wires.old) (seen wires.new) }
    ensures written { IsWritten result (O.state output.old).faults (O.state output.new).faults }
    ensures grew { Grows (O.state output.old).written (O.state output.new).written }
    ensures kept { (O.state output.old).faults ≤ (O.state output.new).faults }
{
    let mut first = Ended::Released;
    for _ in 0..settings.sessions {
        match listen_once(alloc, settings, output, wires) {
            Ok(ended) => {
                if ends_run(ended) {
                    return ended;
                }
                first = first_of(first, ended);
            }
            Err(ended) => return ended,
        }
    }
    first
}

/// Accepts a link, and answers what ended its session; else why there is none.
fn listen_once<O: Sink, W: Wires>(
    alloc: Global,
    settings: &Settings,
    output: &mut O,
    wires: &mut W,
) -> Result<Ended, Ended>
    requires fit { AreFit settings.now }
    ensures served { let seen = seen_by W.state W.counts W.asked W.lent in
        IfOk result (λ ended. Served ended settings.now (seen wires.old) (seen wires.new)) }
    ensures failed { let seen = seen_by W.state W.counts W.asked W.lent in
        IfErr result (λ ended. NotAccepted ended settings.now (seen wires.old) (seen wires.new)) }
    ensures lines { let seen = seen_by W.state W.counts W.asked W.lent in
        IfOk result (λ ended. WritesSession settings.now ended (seen wires.old) (seen wires.new)
        (O.state output.old).written (O.state output.new).written) }
    ensures same_output { IfErr result (λ ended. output.new ≡ output.old) }
    ensures lawful { let seen = seen_by W.state W.counts W.asked W.lent in
        WritesLawfully RoleValue.Listener settings.now (seen wires.old) (seen wires.new) }
    ensures shut { let seen = seen_by W.state W.counts W.asked W.lent in
        AreShut (seen wires.old) (seen wires.new) }
    ensures link_reads { let seen = seen_by W.state W.counts W.asked W.lent in
        ReadsWithin settings.now (seen wires.old) (seen wires.new) }
    ensures written { IfOk result (λ ended.
        IsWritten ended (O.state output.old).faults (O.state output.new).faults) }
    ensures grew { Grows (O.state output.old).written (O.state output.new).written }
    ensures kept { (O.state output.old).faults ≤ (O.state output.new).faults }
{
    let link = match wires.accept(settings.bind.as_str(), settings.port) {
        Ok(link) => link,
        Err(WireError::Failed) => return Err(Ended::WireFault),
        Err(WireError::NoMemory) => return Err(Ended::NoMemory),
    };
    let sink = CountedSink::new(output);
    let (ended, sink) = listen_counted::<O, W, Brand>(alloc, wires, link, settings, sink);
    let lines = sink.lines();
    let _output = sink.into_output();
    tell_session(wires, link, settings, ended, lines);
    wires.shut(link);
    Ok(ended)
}

/// Whether no further link is accepted after a session that ended so.
fn ends_run(ended: Ended) -> bool
    ensures { result ≡ ends_run ended }
{
    match ended {
        Ended::WriteFault | Ended::NoMemory => true,
        Ended::Released
        | Ended::Broken(..)
        | Ended::WireFault
        | Ended::Refused(_)
        | Ended::Cut(_)
        | Ended::Idle(_)
        | Ended::Spent(_) => false,
    }
}

fn first_of(first: Ended, ended: Ended) -> Ended
    ensures { result ≡ first_of first ended }
{
    match first {
        Ended::Released => ended,
        Ended::Broken(..)
        | Ended::WriteFault
        | Ended::WireFault
        | Ended::NoMemory
        | Ended::Refused(_)
        | Ended::Cut(_)
        | Ended::Idle(_)
        | Ended::Spent(_) => first,
    }
}
