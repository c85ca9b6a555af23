//! How a run of `send` or `listen` ends: the last line and the status (docs/COMMANDS.md).
ghost use Rattle.std.specs.Prelude.{◌≡◌, ◌≤◌, ◌++◌, []};
ghost use Rattle.beep_cmd.specs.Ends.{ended_line, ended_status, WritesLast};
ghost use Rattle.beep_cmd.specs.Serving.{unlisted_line, unlisted_status};

use beep_runs::beep_listener::Ended;
use beep_runs::beep_octets::Octets;
use beep_runs::beep_wires::{Failed, Sink, write_all};
use beep_show::beep_input::Unlisted;
use beep_show::{LAST_ROOM, append_broken, append_idle, append_numbered, append_refused, status};

/// Writes the last line of what ended a session, in room that was taken before, and answers the
/// status.
pub(crate) fn finish<O: Sink>(last: &mut Octets, ended: Ended, output: &mut O) -> u8
    requires empty { last.old.octets ≡ [] }
    requires room { LAST_ROOM ≤ last.old.spare }
    ensures written { WritesLast (ended_status ended) (ended_line ended) result
        (O.state output.old) (O.state output.new) }
    ensures none { ended_line ended ≡ [] → (result ≡ ended_status ended)
        × ((O.state output.new).faults ≡ (O.state output.old).faults) }
    ensures kept { (O.state output.old).faults ≤ (O.state output.new).faults }
{
    append_ended(last, ended);
    tell(last, ended.status(), output)
}

/// Writes the last line of why there are no lines to send, likewise.
pub(crate) fn finish_unlisted<O: Sink>(last: &mut Octets, why: Unlisted, output: &mut O) -> u8
    requires empty { last.old.octets ≡ [] }
    requires room { LAST_ROOM ≤ last.old.spare }
    ensures written { WritesLast (unlisted_status why) (unlisted_line why) result
        (O.state output.old) (O.state output.new) }
    ensures none { unlisted_line why ≡ [] → (result ≡ unlisted_status why)
        × ((O.state output.new).faults ≡ (O.state output.old).faults) }
{
    let status = append_unlisted(last, why);
    tell(last, status, output)
}

/// Writes a last line, and answers the status.
pub(crate) fn tell<O: Sink>(last: &Octets, status: u8, output: &mut O) -> u8
    ensures written { WritesLast status last.now.octets result (O.state output.old)
        (O.state output.new) }
    ensures none { last.now.octets ≡ [] → (result ≡ status) × (output.new ≡ output.old) }
    ensures kept { (O.state output.old).faults ≤ (O.state output.new).faults }
{
    match write_all(output, last.as_slice()) {
        Ok(()) => status,
        Err(Failed) => status::WRITE_FAULT,
    }
}

/// Appends the last line of why there are no lines to send, where it finds room, and answers its
/// status.
fn append_unlisted(out: &mut Octets, why: Unlisted) -> u8
    ensures status { result ≡ unlisted_status why }
    ensures appended { LAST_ROOM ≤ out.old.spare
        → out.new.octets ≡ out.old.octets ++ unlisted_line why }
{
    match why {
        Unlisted::Bad(line) => {
            append_numbered(out, b"! bad ", line);
            status::BAD
        }
        Unlisted::Fault => {
            out.extend_within(b"! read fault\n");
            status::READ_FAULT
        }
        Unlisted::NoMemory => status::NO_MEMORY,
    }
}

/// Appends the last line of what ended a session, where it finds room.
fn append_ended(out: &mut Octets, ended: Ended)
    ensures { LAST_ROOM ≤ out.old.spare
        → out.new.octets ≡ out.old.octets ++ ended_line ended }
{
    match ended {
        Ended::Released | Ended::WriteFault | Ended::NoMemory => {}
        Ended::Broken(rule, place) => append_broken(out, rule, place),
        Ended::WireFault => out.extend_within(b"! wire fault\n"),
        Ended::Refused(code) => append_refused(out, code),
        Ended::Cut(left) => append_numbered(out, b"! cut ", left),
        Ended::Idle(reads) => append_idle(out, reads),
        Ended::Spent(octets) => append_numbered(out, b"! spent ", octets),
    }
}
