//! A source in memory.
ghost use Rattle.std.specs.Prelude.{◌≡◌, ◌<◌, ◌≤◌, ◌++◌, true, false, Some, length, min, take, drop, is_err, IfOk, OnErr};
ghost use Rattle.std.specs.Io.{ReadsAtMost};
ghost use Rattle.std.specs.Io.KnownBytes.{ReadConsumes};
ghost use Rattle.beep_wires.specs.Counts.{next_count, Rose};
ghost use Rattle.beep_wires.specs.Planned.{is_planned};
ghost use Rattle.beep_wires.specs.Ended.{is_end};
ghost use Rattle.beep_wires.specs.Supply.{given_count, supply_after};

use crate::count::next_count;
use crate::failed::Failed;
use crate::fails::Fails;
use crate::source::Source;
use beep_octets::Octets;
use std::marker::Model;

/// A source that gives what it was made of, in pieces, and fails at the calls that were planned.
#[derive(Debug, Drop)]
pub struct MemSource {
    contents: Octets,
    at: usize,
    piece: usize,
    fails: Fails,
    ended: bool,
    faults: u64,
    reads: u64,
}

impl Model for MemSource {
    ghost use Rattle.std.specs.Prelude.{◌<◌, ◌≤◌, length, drop};
    ghost use Rattle.beep_wires.specs.Supply.{Supply};

    ghost Value = { Supply };

    ghost view = { λ s. record {
      left = drop s.at s.contents.octets;
      piece = s.piece;
      fails = s.fails;
      ended = s.ended;
      faults = s.faults;
      reads = s.reads;
    } };

    ghost invariant = { λ s. (s.at ≤ length s.contents.octets) × (0 < s.piece) };
}

impl MemSource {
    ghost use Rattle.beep_wires.specs.Supply.{supply_of};

    /// A source of these octets, at most `piece` a read. It takes no memory.
    pub fn new(contents: Octets, piece: usize, fails: Fails) -> MemSource
        requires { 0 < piece }
        ensures { result ≡ supply_of contents.octets piece fails }
    {
        MemSource {
            contents,
            at: 0,
            piece,
            fails,
            ended: false,
            faults: 0,
            reads: 0,
        }
    }
}

impl Source for MemSource {
    ghost state = { λ s. record {
      left = Some s.left;
      ended = s.ended;
      faults = s.faults;
      reads = s.reads;
    } };

    fn read(&mut self, buf: &mut [u8]) -> Result<usize, Failed>
        requires room { 0 < length buf.old }
        requires going { self.old.ended ≡ false }
        ensures planned { is_err result ≡ is_planned self.old.fails self.old.reads }
        ensures given { IfOk result (λ n. n ≡ given_count self.old (length buf.old)) }
        ensures filled { IfOk result (λ n. buf.new ≡ take n self.old.left ++ drop n buf.old) }
        ensures untouched { OnErr result (buf.new ≡ buf.old) }
        ensures after { self.new ≡ supply_after self.old (length buf.old) }
        // What each source ensures.
        ensures within { ReadsAtMost result buf.new }
        ensures octets { ReadConsumes (Some self.old.left) (Some self.new.left) result buf.new }
        ensures end { self.new.ended ≡ is_end result }
        ensures failed { OnErr result (Rose self.old.faults self.new.faults) }
        ensures kept { self.old.faults ≤ self.new.faults }
        ensures counted { self.new.reads ≡ next_count self.old.reads }
    {
        let is_planned = self.fails.has(self.reads);
        self.reads = next_count(self.reads);
        if is_planned {
            self.faults = next_count(self.faults);
            return Err(Failed);
        }
        let n = copy_front(&self.contents.as_slice()[self.at..], self.piece, buf);
        self.at += n;
        self.ended = n == 0;
        Ok(n)
    }
}

fn copy_front(from: &[u8], most: usize, to: &mut [u8]) -> usize
    ensures count { result ≡ min (min most (length from.now)) (length to.old) }
    ensures copied { to.new ≡ take result from.now ++ drop result to.old }
    ensures front { take result to.new ≡ take result from.now }
{
    let n = most.min(from.len()).min(to.len());
    to[..n].copy_from_slice(&from[..n]);
    n
}
