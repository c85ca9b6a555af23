//! One read or write of the system, which a signal may interrupt. A failure is answered as the system
//! has it.
ghost use Rattle.std.specs.Prelude.{◌<◌, ◌≤◌, length, IfOk};
ghost use Rattle.std.specs.Io.{ReadsAtMost};
ghost use Rattle.std.specs.Io.KnownBytes.{ReadConsumes, WriteAppends};
ghost use Rattle.beep_wires.specs.Got.{GotWithin};
ghost use Rattle.beep_std.specs.Octets.{GotConsumes};

use beep_wires::Got;
use std::io::{self, ErrorKind, Read, Write};

/// How many times in a row the system is asked in one call where a signal interrupts it each time:
/// a guard against a call that never returns.
pub const TRIES: u32 = 16;

/// How long a write of a link waits while nothing is taken, in seconds. It has failed then: a peer
/// that lets octets come and reads none would hold an end for ever.
pub const WRITE_SECONDS: u64 = 10;

/// Reads once. An interrupted read is asked again, up to [`TRIES`] times in all, and then has
/// failed.
pub(crate) fn read_once<R: Read>(from: &mut R, buf: &mut [u8]) -> io::Result<usize>
    ensures within { ReadsAtMost result buf.new }
    ensures octets { ReadConsumes (R.remaining from.old) (R.remaining from.new) result buf.new }
{
    for _ in 0..TRIES {
        match from.read(buf) {
            Ok(n) => return Ok(n),
            Err(e) => {
                if e.kind() != ErrorKind::Interrupted {
                    return Err(e);
                }
            }
        }
    }
    Err(io::Error::from(ErrorKind::Interrupted))
}

/// Reads a link once, likewise. A read that waited in vain for as long as it may was quiet: the
/// system says so by `EAGAIN`, `EWOULDBLOCK`, and by no other error. `ETIMEDOUT` is that of a peer
/// which is gone.
pub(crate) fn got_once<R: Read>(from: &mut R, buf: &mut [u8]) -> io::Result<Got>
    ensures within { GotWithin result buf.new }
    ensures octets { GotConsumes (R.remaining from.old) (R.remaining from.new) result buf.new }
{
    for _ in 0..TRIES {
        match from.read(buf) {
            Ok(0) => return Ok(Got::End),
            Ok(n) => return Ok(Got::Bytes(n)),
            Err(e) => match e.kind() {
                ErrorKind::Interrupted => {}
                ErrorKind::WouldBlock => return Ok(Got::Quiet),
                _ => return Err(e),
            },
        }
    }
    Err(io::Error::from(ErrorKind::Interrupted))
}

/// Writes once, likewise. Taking nothing is a failure, also where a write may wait no longer.
pub(crate) fn write_once<W: Write>(to: &mut W, bytes: &[u8]) -> io::Result<usize>
    ensures within { IfOk result (λ n. (0 < n) × (n ≤ length bytes.now)) }
    ensures octets { WriteAppends (W.contents to.old) (W.contents to.new) result bytes.now }
{
    for _ in 0..TRIES {
        match to.write(bytes) {
            Ok(0) => return Err(io::Error::from(ErrorKind::WriteZero)),
            Ok(n) => return Ok(n),
            Err(e) => match e.kind() {
                ErrorKind::Interrupted => {}
                ErrorKind::WouldBlock => return Err(waited()),
                _ => return Err(e),
            },
        }
    }
    Err(io::Error::from(ErrorKind::Interrupted))
}

/// Why a write that took nothing in its time failed.
fn waited() -> io::Error {
    io::Error::new(ErrorKind::TimedOut, "the peer took nothing for 10 seconds")
}

#[cfg(test)]
mod tests;
