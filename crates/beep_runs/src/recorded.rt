//! One session over a link that is recorded.
ghost use Rattle.std.specs.Prelude.{◌≡◌, ◌≢◌, ◌⊎◌, Some};
ghost use Rattle.beep_listener.specs.beep_journal.specs.declared.role.Role.{Role as RoleValue};
ghost use Rattle.beep_listener.specs.beep_link.specs.declared.ended.Ended.{Ended as EndedValue};
ghost use Rattle.beep_listener.specs.beep_steps.specs.Ends.{AreFit};
ghost use Rattle.beep_recorder.specs.Kept.{Recording, RecordsKnown};
ghost use Rattle.beep_runs.specs.Runs.{ListensOver, seen_by, SendsOver};

use crate::told::{taken_lines, tell_session};
use beep_listener::beep_octets::{NoMemory, Octets};
use beep_listener::beep_settings::Settings;
use beep_listener::beep_wires::{NullSink, WireError, Wires};
use beep_listener::prof_raw::Entries;
use beep_listener::{CountedSink, Ended, listen_end};
use beep_recorder::beep_record::Role;
use beep_recorder::{Known, Recorder};
use beep_sender::send_end;
use std::alloc::Global;
use std::marker::Brand;

/// Dials, and sends lines over the link, whose record `out` gains. It answers what ended the
/// session, and that memory ran out where the record found no room; else why no link was given.
pub fn send_recorded<W: Wires>(
    alloc: Global,
    settings: &Settings,
    lines: &Entries,
    wires: &mut W,
    out: &mut Octets,
) -> Result<Ended, Ended>
    requires fit { AreFit settings.now }
    ensures { let seen = seen_by W.state W.counts W.asked W.lent in
        SendsOver settings.now lines.now result (seen wires.old) (seen wires.new) out.old out.new }
{
    send_over::<W, Brand>(alloc, settings, lines, wires, out)
}

/// The same, where it is known in proofs which link is recorded.
fn send_over<W: Wires, K: Known>(
    alloc: Global,
    settings: &Settings,
    lines: &Entries,
    wires: &mut W,
    out: &mut Octets,
) -> Result<Ended, Ended>
    requires fit { AreFit settings.now }
    requires known { K.known
        ≡ Some (record { first = (W.counts wires.old).given; role = RoleValue.Initiator }) }
    ensures { let seen = seen_by W.state W.counts W.asked W.lent in
        SendsOver settings.now lines.now result (seen wires.old) (seen wires.new) out.old out.new }
{
    let mut recorder = Recorder::<'_, W, K>::known(alloc, wires, Role::Initiator);
    let answer = send_through(alloc, settings, lines, &mut recorder, out);
    let _wires = recorder.into_wires();
    answer
}

/// The same over links that are recorded.
fn send_through<W: Wires, K: Known>(
    alloc: Global,
    settings: &Settings,
    lines: &Entries,
    recorder: &mut Recorder<'_, W, K>,
    out: &mut Octets,
) -> Result<Ended, Ended>
    requires fit { AreFit settings.now }
    requires known { K.known
        ≡ Some (record {
          first = (W.counts recorder.old.wires.now).given;
          role = RoleValue.Initiator;
        }) }
    ensures same_reference { recorder.new.wires.ghost_name ≡ recorder.old.wires.ghost_name }
    ensures sends { let seen = seen_by W.state W.counts W.asked W.lent in
        SendsOver settings.now lines.now result (seen recorder.old.wires.now)
        (seen recorder.new.wires.now) out.old out.new }
{
    let link = match recorder.dial(settings.host.as_str(), settings.port) {
        Ok(link) => link,
        Err(WireError::Failed) => return Err(Ended::WireFault),
        Err(WireError::NoMemory) => return Err(Ended::NoMemory),
    };
    let ended = send_end(alloc, recorder, link, settings, lines);
    tell_session(recorder, link, settings, ended, taken_lines(ended, lines));
    recorder.shut(link);
    Ok(put_record(recorder, ended, out))
}

/// Accepts a link, and listens on it: the lines that come are written nowhere. Else as
/// [`send_recorded`].
pub fn listen_recorded<W: Wires>(
    alloc: Global,
    settings: &Settings,
    wires: &mut W,
    out: &mut Octets,
) -> Result<Ended, Ended>
    requires fit { AreFit settings.now }
    ensures { let seen = seen_by W.state W.counts W.asked W.lent in
        ListensOver settings.now result (seen wires.old) (seen wires.new) out.old out.new }
{
    listen_over::<W, Brand>(alloc, settings, wires, out)
}

/// The same, where it is known in proofs which link is recorded.
fn listen_over<W: Wires, K: Known>(
    alloc: Global,
    settings: &Settings,
    wires: &mut W,
    out: &mut Octets,
) -> Result<Ended, Ended>
    requires fit { AreFit settings.now }
    requires known { K.known
        ≡ Some (record { first = (W.counts wires.old).given; role = RoleValue.Listener }) }
    ensures { let seen = seen_by W.state W.counts W.asked W.lent in
        ListensOver settings.now result (seen wires.old) (seen wires.new) out.old out.new }
{
    let mut recorder = Recorder::<'_, W, K>::known(alloc, wires, Role::Listener);
    let answer = listen_through(alloc, settings, &mut recorder, out);
    let _wires = recorder.into_wires();
    answer
}

/// The same over links that are recorded.
fn listen_through<W: Wires, K: Known>(
    alloc: Global,
    settings: &Settings,
    recorder: &mut Recorder<'_, W, K>,
    out: &mut Octets,
) -> Result<Ended, Ended>
    requires fit { AreFit settings.now }
    requires known { K.known
        ≡ Some (record {
          first = (W.counts recorder.old.wires.now).given;
          role = RoleValue.Listener;
        }) }
    ensures same_reference { recorder.new.wires.ghost_name ≡ recorder.old.wires.ghost_name }
    ensures listens { let seen = seen_by W.state W.counts W.asked W.lent in
        ListensOver settings.now result (seen recorder.old.wires.now)
        (seen recorder.new.wires.now) out.old out.new }
{
    let link = match recorder.accept(settings.bind.as_str(), settings.port) {
        Ok(link) => link,
        Err(WireError::Failed) => return Err(Ended::WireFault),
        Err(WireError::NoMemory) => return Err(Ended::NoMemory),
    };
    let mut none = NullSink;
    let mut counted = CountedSink::new(&mut none);
    let ended = listen_end(alloc, recorder, link, settings, &mut counted);
    tell_session(recorder, link, settings, ended, counted.lines());
    recorder.shut(link);
    Ok(put_record(recorder, ended, out))
}

/// Makes the record, and answers what ended the run.
fn put_record<W: Wires, K: Known>(
    recorder: &Recorder<'_, W, K>,
    ended: Ended,
    out: &mut Octets,
) -> Ended
    ensures ended { (result ≡ ended) ⊎ (result ≡ EndedValue.NoMemory) }
    ensures whole { result ≢ EndedValue.NoMemory → RecordsKnown K.known
        (W.state recorder.now.wires.now) (W.counts recorder.now.wires.now).given
        out.old.octets out.new.octets }
    ensures none { result ≡ EndedValue.NoMemory → out.new.octets ≡ out.old.octets }
{
    match ended {
        Ended::NoMemory => Ended::NoMemory,
        Ended::Released
        | Ended::Broken(..)
        | Ended::WriteFault
        | Ended::WireFault
        | Ended::Refused(_)
        | Ended::Cut(_)
        | Ended::Idle(_)
        | Ended::Spent(_) => match recorder.put_record(out) {
            Ok(()) => ended,
            Err(NoMemory) => Ended::NoMemory,
        },
    }
}
