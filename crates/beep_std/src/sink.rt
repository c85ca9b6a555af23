//! Standard output as a sink.
ghost use Rattle.std.specs.Prelude.{◌≡◌, ◌<◌, ◌≤◌, None, length, IfOk, OnErr, OnOk};
ghost use Rattle.std.specs.Io.KnownBytes.{WriteAppends};
ghost use Rattle.beep_wires.specs.Counts.{next_count, Rose};

use crate::tries::write_once;
use beep_wires::{Failed, Sink, next_count};
use std::io::{self, Stdout};
use std::marker::Model;

/// How many of the last octets that were written are kept: more than a last line has.
const TAIL: usize = 64;

/// Standard output. Each write hands its octets to the system, and keeps no buffer of its own, so
/// there is nothing to flush: the caller gathers.
#[derive(Drop)]
pub struct StdSink {
    stdout: Stdout,
    faults: u64,
    why: Option<io::Error>,
    tail: [u8; TAIL],
    kept: usize,
}

impl Model for StdSink {
    ghost use Rattle.std.specs.Prelude.{ℕ};

    ghost Value = { ℕ };

    ghost view = { λ s. s.faults };
}

impl StdSink {
    /// A sink that hasn't written.
    pub fn new(stdout: Stdout) -> StdSink
        ensures { result ≡ 0 }
    {
        StdSink {
            stdout,
            faults: 0,
            why: None,
            tail: [0; TAIL],
            kept: 0,
        }
    }

    /// Why the last write that failed did, for people.
    pub fn why(&self) -> Option<io::Error> {
        self.why
    }

    /// The end of what the last write wrote, at most 64 octets, for people.
    pub fn tail(&self) -> &[u8] {
        &self.tail[..self.kept.min(TAIL)]
    }

    /// Keeps the end of what was written.
    fn keep(&mut self, written: &[u8])
        ensures { self.new ≡ self.old }
    {
        let kept = written.len().min(TAIL);
        self.tail[..kept].copy_from_slice(&written[written.len() - kept..]);
        self.kept = kept;
    }
}

impl Sink for StdSink {
    ghost state = { λ faults. record { written = None; faults = faults } };

    fn write(&mut self, bytes: &[u8]) -> Result<usize, Failed>
        requires { 0 < length bytes.now }
        ensures fault { OnErr result (self.new ≡ next_count self.old) }
        ensures no_fault { OnOk result (self.new ≡ self.old) }
        // What each sink ensures.
        ensures within { IfOk result (λ n. (0 < n) × (n ≤ length bytes.now)) }
        ensures octets { WriteAppends None None result bytes.now }
        ensures failed { OnErr result (Rose self.old self.new) }
        ensures kept { self.old ≤ self.new }
    {
        match write_once(&mut self.stdout, bytes) {
            Ok(n) => {
                self.keep(&bytes[..n]);
                Ok(n)
            }
            Err(why) => {
                self.faults = next_count(self.faults);
                self.why = Some(why);
                Err(Failed)
            }
        }
    }
}
