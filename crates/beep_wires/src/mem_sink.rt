//! A sink in memory.
ghost use Rattle.std.specs.Prelude.{◌≡◌, ◌+◌, ◌<◌, ◌≤◌, ◌++◌, Some, length, is_err, IfOk, OnErr};
ghost use Rattle.std.specs.Io.KnownBytes.{WriteAppends};
ghost use Rattle.beep_wires.specs.Counts.{Rose};
ghost use Rattle.beep_wires.specs.Tray.{taken_count, has_fault, tray_after};

use crate::count::next_count;
use crate::failed::Failed;
use crate::fails::Fails;
use crate::sink::Sink;
use beep_octets::{NoMemory, Octets};
use std::alloc::Global;
use std::marker::Model;

/// A sink that keeps what is written in room that it took before, and fails at the calls that were
/// planned and where no room is left.
#[derive(Debug, Drop)]
pub struct MemSink {
    log: Octets,
    room: usize,
    piece: usize,
    fails: Fails,
    faults: u64,
    writes: u64,
}

impl Model for MemSink {
    ghost use Rattle.std.specs.Prelude.{◌<◌, ◌≤◌};
    ghost use Rattle.beep_wires.specs.Tray.{Tray};

    ghost Value = { Tray };

    ghost view = { λ s. record {
      written = s.log.octets;
      room = s.room;
      piece = s.piece;
      fails = s.fails;
      faults = s.faults;
      writes = s.writes;
    } };

    ghost invariant = { λ s. (s.room ≤ s.log.spare) × (0 < s.piece) };
}

impl MemSink {
    ghost use Rattle.beep_wires.specs.Tray.{tray_of};

    /// A sink with room for `room` octets, which takes at most `piece` a write.
    pub fn new(alloc: Global, room: usize, piece: usize, fails: Fails) -> Result<MemSink, NoMemory>
        requires { 0 < piece }
        ensures { IfOk result (λ sink. sink ≡ tray_of room piece fails) }
    {
        let mut log = Octets::new(alloc);
        log.reserve(room)?;
        Ok(MemSink {
            log,
            room,
            piece,
            fails,
            faults: 0,
            writes: 0,
        })
    }

    /// What was written. It takes no memory.
    pub fn written(&self) -> &[u8]
        ensures { result.now ≡ self.now.written }
    {
        self.log.as_slice()
    }
}

impl Sink for MemSink {
    ghost state = { λ s. record { written = Some s.written; faults = s.faults } };

    fn write(&mut self, bytes: &[u8]) -> Result<usize, Failed>
        requires { 0 < length bytes.now }
        ensures fault { is_err result ≡ has_fault self.old }
        ensures taken { IfOk result (λ n. n ≡ taken_count self.old (length bytes.now)) }
        ensures after { self.new ≡ tray_after self.old bytes.now }
        // What each sink ensures.
        ensures within { IfOk result (λ n. (0 < n) × (n ≤ length bytes.now)) }
        ensures octets { WriteAppends (Some self.old.written) (Some self.new.written)
            result bytes.now }
        ensures failed { OnErr result (Rose self.old.faults self.new.faults) }
        ensures kept { self.old.faults ≤ self.new.faults }
    {
        let is_planned = self.fails.has(self.writes);
        self.writes = next_count(self.writes);
        if is_planned || self.room == 0 {
            self.faults = next_count(self.faults);
            return Err(Failed);
        }
        let n = self.piece.min(self.room).min(bytes.len());
        self.log.extend_spare(&bytes[..n]);
        self.room -= n;
        Ok(n)
    }
}
