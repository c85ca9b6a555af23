//! One link over TCP.
ghost use Rattle.std.specs.Prelude.{◌≡◌, ◌<◌, ◌≤◌, length, IfOk};
ghost use Rattle.beep_wires.specs.Counts.{next_count};
ghost use Rattle.beep_wires.specs.Got.{GotWithin};
ghost use Rattle.beep_std.specs.Sockets.{socket_given, socket_read, socket_written, socket_shut, changed};

use crate::fault::{Call, Side};
use crate::tries::{WRITE_SECONDS, got_once, write_once};
use beep_wires::{Failed, Got, next_count};
use std::io::{self, ErrorKind};
use std::marker::Model;
use std::net::{SocketAddr, TcpStream};
use std::time::Duration;

/// How long a read of a link waits before it is quiet, in milliseconds: so often can a caller look
/// at what else there is to do.
pub const READ_MILLIS: u64 = 100;

/// What is known of a link for people alone: no contract says anything of it.
#[derive(Clone, Copy)]
pub(crate) struct Notes {
    pub(crate) side: Side,
    pub(crate) peer: SocketAddr,
    /// When the link was given, by a clock that only goes on, if that is known.
    pub(crate) began: Option<Duration>,
    /// How many octets were read of a link that was accepted, or written on one that was dialled.
    pub(crate) octets: u64,
    /// The call that failed, and why.
    pub(crate) failed: Option<(Call, io::Error)>,
}

/// A link that was given: its socket until it is shut, and what came of its calls.
#[derive(Drop)]
pub(crate) struct Socket {
    stream: Option<TcpStream>,
    has_ended: bool,
    faults: u64,
    reads: u64,
    /// Why its waits aren't bounded, where they couldn't be: each read and write fails then.
    unset: Option<io::Error>,
    notes: Notes,
}

impl Model for Socket {
    ghost use Rattle.std.specs.Prelude.{is_some};
    ghost use Rattle.beep_std.specs.Sockets.{Socket as Seen};

    ghost Value = { Seen };

    ghost view = { λ s. record {
      is_open = is_some s.stream;
      has_ended = s.has_ended;
      faults = s.faults;
      reads = s.reads;
    } };
}

impl Socket {
    /// The link of this socket, of which so much is known. It sends octets as they are written where
    /// the system can do so.
    pub(crate) fn new(stream: TcpStream, notes: Notes) -> Socket
        ensures { result ≡ socket_given }
    {
        let unset = bound_waits(&stream).err();
        // A link that gathers octets is slower, and is otherwise the same.
        let _ = stream.set_nodelay(true);
        Socket {
            stream: Some(stream),
            has_ended: false,
            faults: 0,
            reads: 0,
            unset,
            notes,
        }
    }

    /// What is known of the link for people.
    pub(crate) fn notes(&self) -> Notes {
        self.notes
    }

    /// Counts a failure, and keeps what failed.
    fn fail(&mut self, call: Call, why: io::Error)
        ensures { self.new ≡ record self.old { faults = next_count self.old.faults } }
    {
        self.faults = next_count(self.faults);
        self.notes.failed = Some((call, why));
    }

    /// Counts octets of the side whose octets are counted.
    fn count(&mut self, side: Side, octets: usize)
        ensures { self.new ≡ self.old }
    {
        if self.notes.side == side {
            self.notes.octets = self.notes.octets.saturating_add(octets as u64);
        }
    }

    fn read(&mut self, buf: &mut [u8]) -> Result<Got, Failed>
        ensures within { GotWithin result buf.new }
        ensures after { self.new ≡ socket_read result self.old }
    {
        self.reads = next_count(self.reads);
        let answer = match (&mut self.stream, self.unset) {
            (Some(stream), None) => got_once(stream, buf),
            (Some(_), Some(why)) => Err(why),
            (None, _) => Err(io::Error::from(ErrorKind::NotConnected)),
        };
        match answer {
            Ok(got) => {
                self.has_ended = got == Got::End;
                if let Got::Bytes(n) = got {
                    self.count(Side::Accepted, n);
                }
                Ok(got)
            }
            Err(why) => {
                self.has_ended = false;
                self.fail(Call::Read, why);
                Err(Failed)
            }
        }
    }

    fn write(&mut self, bytes: &[u8]) -> Result<usize, Failed>
        ensures within { IfOk result (λ n. (0 < n) × (n ≤ length bytes.now)) }
        ensures after { self.new ≡ socket_written result self.old }
    {
        let answer = match (&mut self.stream, self.unset) {
            (Some(stream), None) => write_once(stream, bytes),
            (Some(_), Some(why)) => Err(why),
            (None, _) => Err(io::Error::from(ErrorKind::NotConnected)),
        };
        match answer {
            Ok(n) => {
                self.count(Side::Dialled, n);
                Ok(n)
            }
            Err(why) => {
                self.fail(Call::Write, why);
                Err(Failed)
            }
        }
    }

    /// Closes the socket.
    fn shut(&mut self)
        ensures { self.new ≡ socket_shut self.old }
    {
        self.stream = None;
    }
}

/// Bounds how long a read and a write of the link wait.
fn bound_waits(stream: &TcpStream) -> io::Result<()> {
    stream.set_read_timeout(Some(Duration::from_millis(READ_MILLIS)))?;
    stream.set_write_timeout(Some(Duration::from_secs(WRITE_SECONDS)))
}

// ---- one of several

/// Reads the link at `at`.
pub(crate) fn read_at(links: &mut Vec<Socket>, at: usize, buf: &mut [u8]) -> Result<Got, Failed>
    requires { at < length links.old.items }
    ensures within { GotWithin result buf.new }
    ensures after { links.new.items ≡ changed (socket_read result) links.old.items at }
{
    links[at].read(buf)
}

/// Writes on the link at `at`.
pub(crate) fn write_at(links: &mut Vec<Socket>, at: usize, bytes: &[u8]) -> Result<usize, Failed>
    requires { at < length links.old.items }
    ensures within { IfOk result (λ n. (0 < n) × (n ≤ length bytes.now)) }
    ensures after { links.new.items ≡ changed (socket_written result) links.old.items at }
{
    links[at].write(bytes)
}

/// Shuts the link at `at`.
pub(crate) fn shut_at(links: &mut Vec<Socket>, at: usize)
    requires { at < length links.old.items }
    ensures { links.new.items ≡ changed socket_shut links.old.items at }
{
    links[at].shut();
}
