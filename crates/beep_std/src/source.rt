//! Standard input as a source.
ghost use Rattle.std.specs.Prelude.{◌≡◌, ◌<◌, ◌≤◌, None, false, length, OnErr, OnOk};
ghost use Rattle.std.specs.Io.{ReadsAtMost};
ghost use Rattle.std.specs.Io.KnownBytes.{ReadConsumes};
ghost use Rattle.beep_wires.specs.Counts.{next_count, Rose};
ghost use Rattle.beep_wires.specs.Ended.{is_end};
ghost use Rattle.beep_std.specs.Counts.{at_start};

use crate::tries::read_once;
use beep_wires::{Failed, Source, next_count};
use std::io::{self, Stdin};
use std::marker::Model;

/// Standard input. Each read asks the system for as much as the buffer holds, and keeps no buffer
/// of its own.
#[derive(Drop)]
pub struct StdSource {
    stdin: Stdin,
    ended: bool,
    faults: u64,
    reads: u64,
    why: Option<io::Error>,
}

impl Model for StdSource {
    ghost use Rattle.beep_std.specs.Counts.{SourceCounts};

    ghost Value = { SourceCounts };

    ghost view = { λ s. record { ended = s.ended; faults = s.faults; reads = s.reads } };
}

impl StdSource {
    /// A source that hasn't read. At most one may stand at a time, so that no octet is missed.
    pub fn new(stdin: Stdin) -> StdSource
        ensures { result ≡ at_start }
    {
        StdSource {
            stdin,
            ended: false,
            faults: 0,
            reads: 0,
            why: None,
        }
    }

    /// Why the last read that failed did, for people.
    pub fn why(&self) -> Option<io::Error> {
        self.why
    }
}

impl Source for StdSource {
    ghost state = { λ s. record {
      left = None;
      ended = s.ended;
      faults = s.faults;
      reads = s.reads;
    } };

    fn read(&mut self, buf: &mut [u8]) -> Result<usize, Failed>
        requires room { 0 < length buf.old }
        requires going { self.old.ended ≡ false }
        ensures fault { OnErr result (self.new.faults ≡ next_count self.old.faults) }
        ensures no_fault { OnOk result (self.new.faults ≡ self.old.faults) }
        // What each source ensures.
        ensures within { ReadsAtMost result buf.new }
        ensures octets { ReadConsumes None None result buf.new }
        ensures end { self.new.ended ≡ is_end result }
        ensures failed { OnErr result (Rose self.old.faults self.new.faults) }
        ensures kept { self.old.faults ≤ self.new.faults }
        ensures counted { self.new.reads ≡ next_count self.old.reads }
    {
        self.reads = next_count(self.reads);
        match read_once(&mut self.stdin, buf) {
            Ok(n) => {
                self.ended = n == 0;
                Ok(n)
            }
            Err(why) => {
                self.faults = next_count(self.faults);
                self.why = Some(why);
                Err(Failed)
            }
        }
    }
}
