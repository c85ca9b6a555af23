//! Keeping an entry of a log.
ghost use Rattle.std.specs.Prelude.{◌≡◌, ◌<◌, ◌≤◌, ◌++◌, ◌∷◌, true, false, length, take, IfOk};
ghost use Rattle.beep_wires.specs.Got.{GotWithin, read_entries, write_entries};
ghost use Rattle.beep_record.specs.Logged.{entry_of};
ghost use Rattle.beep_recorder.specs.Said.{log_said};
ghost use Rattle.beep_recorder.specs.Kept.{first_given as first_of, is_recorded as records};

use beep_octets::{NoMemory, Octets};
use beep_record::{Entry, LogEntries};
use beep_wires::{Failed, Got, WireError};
use std::alloc::Global;

/// Keeps what a read gave, as the latest; whether that found room.
pub(crate) fn keep_read(
    log: &mut LogEntries,
    alloc: Global,
    answer: Result<Got, Failed>,
    buf: &[u8],
) -> bool
    requires { GotWithin answer buf.now }
    ensures kept { result ≡ true → log.new ≡ log_said (read_entries answer buf.now) ++ log.old }
    ensures lost { result ≡ false → log.new ≡ log.old }
{
    match answer {
        Ok(Got::Bytes(n)) => match octets_of(alloc, &buf[..n]) {
            Ok(octets) => keep(log, Entry::Read(octets)),
            Err(NoMemory) => false,
        },
        Ok(Got::Quiet) => keep(log, Entry::Quiet),
        Ok(Got::End) => keep(log, Entry::Ended),
        Err(Failed) => true,
    }
}

/// Keeps what a write took, likewise.
pub(crate) fn keep_write(
    log: &mut LogEntries,
    alloc: Global,
    answer: Result<usize, Failed>,
    bytes: &[u8],
) -> bool
    requires { IfOk answer (λ n. (0 < n) × (n ≤ length bytes.now)) }
    ensures kept { result ≡ true → log.new ≡ log_said (write_entries answer bytes.now) ++ log.old }
    ensures lost { result ≡ false → log.new ≡ log.old }
{
    match answer {
        Ok(n) => match octets_of(alloc, &bytes[..n]) {
            Ok(octets) => keep(log, Entry::Wrote(octets)),
            Err(NoMemory) => false,
        },
        Err(Failed) => true,
    }
}

fn keep(log: &mut LogEntries, entry: Entry) -> bool
    ensures kept { result ≡ true → log.new ≡ entry_of entry ∷ log.old }
    ensures lost { result ≡ false → log.new ≡ log.old }
{
    match log.push(entry) {
        Ok(()) => true,
        Err(NoMemory) => false,
    }
}

fn octets_of(alloc: Global, bytes: &[u8]) -> Result<Octets, NoMemory>
    ensures { IfOk result (λ octets. octets.octets ≡ bytes.now) }
{
    let mut octets = Octets::new(alloc);
    octets.extend(bytes)?;
    Ok(octets)
}

/// Whether calls of the link `other` are kept.
pub(crate) fn is_recorded(short: bool, link: Option<u32>, other: u32) -> bool
    ensures { result ≡ records short link other }
{
    match link {
        Some(link) => !short && link == other,
        None => false,
    }
}

/// The first link that was given, where this answer is the latest.
pub(crate) fn first_given(link: Option<u32>, answer: Result<u32, WireError>) -> Option<u32>
    ensures { result ≡ first_of link answer }
{
    match (link, answer) {
        (Some(first), _) => Some(first),
        (None, Ok(first)) => Some(first),
        (None, Err(_)) => None,
    }
}
