//! What two ends do until neither has something to send.
ghost use Rattle.std.specs.Prelude.{◌≡◌, ◌<◌, true, false, length, IfOk, OnOk};
ghost use Rattle.beep_schedule.specs.declared.limits.TheConstants.{MAX_COUNT};
ghost use Rattle.beep_two_sessions.specs.beep_settings.specs.declared.limits.TheConstants.{MAX_PIECE};
ghost use Rattle.beep_schedule.specs.Events.{is_from_to};
ghost use Rattle.beep_pair.specs.Drains.{is_nothing as was_nothing};

use crate::lives::live_numbers;
use crate::pair::Pair;
use beep_report::put_drain_line;
use beep_schedule::{End, MAX_COUNT};
use beep_two_sessions::beep_octets::{NoMemory, Octets};
use beep_two_sessions::beep_speaking::Emit;

impl Pair {
    ghost use Rattle.beep_pair.specs.Sessions.{AreReady};
    ghost use Rattle.beep_pair.specs.Ends.{other_end};
    ghost use Rattle.beep_pair.specs.World.{Leads};
    ghost use Rattle.beep_pair.specs.Drains.{GotAll, TookAll};
    ghost use Rattle.beep_pair.specs.Draining.{TookOut, TookEach, Drained, Rounded, Turned};

    /// Both ends send, read in pieces and take, in rounds, until both sends of a round were
    /// nothing. Each send that isn't nothing has its line.
    pub(crate) fn drain(
        &mut self,
        max: u32,
        piece: usize,
        line: &mut Octets,
    ) -> Result<(), NoMemory>
        requires ready { AreReady self.old }
        requires valid { is_from_to 1 MAX_PIECE max ≡ true }
        requires some { 0 < piece }
        ensures drained { OnOk result (Leads (Drained max piece line.old.octets
            line.new.octets) self.old self.new) }
        ensures ready { OnOk result (AreReady self.new) }
    {
        let mut buffer = Vec::from_elem(self.allocator(), 0u8, MAX_COUNT as usize)?;
        let buf = buffer.as_mut_slice();
        for _round in 0..u64::MAX {
            let sent = self.round(max, piece, buf, line)?;
            if !sent {
                return Ok(());
            }
        }
        Ok(())
    }

    /// First A sends and B reads and takes, then the other way round. Answers whether one of them
    /// sent something.
    fn round(
        &mut self,
        max: u32,
        piece: usize,
        buf: &mut [u8],
        line: &mut Octets,
    ) -> Result<bool, NoMemory>
        requires ready { AreReady self.old }
        requires valid { is_from_to 1 MAX_PIECE max ≡ true }
        requires some { 0 < piece }
        requires room { length buf.old ≡ MAX_COUNT }
        ensures rounded { IfOk result (λ sent. Leads (Rounded max piece sent line.old.octets
            line.new.octets) self.old self.new) }
        ensures ready { OnOk result (AreReady self.new) }
        ensures room { length buf.new ≡ length buf.old }
    {
        let a = self.turn(End::A, End::B, max, piece, buf, line)?;
        let b = self.turn(End::B, End::A, max, piece, buf, line)?;
        Ok(a || b)
    }

    /// One end sends, the other gets its whole wire and takes all. Answers whether something was
    /// sent.
    fn turn(
        &mut self,
        at: End,
        other: End,
        max: u32,
        piece: usize,
        buf: &mut [u8],
        line: &mut Octets,
    ) -> Result<bool, NoMemory>
        requires ready { AreReady self.old }
        requires valid { is_from_to 1 MAX_PIECE max ≡ true }
        requires some { 0 < piece }
        requires room { length buf.old ≡ MAX_COUNT }
        requires other { other ≡ other_end at }
        ensures turned { IfOk result (λ sent. Leads (Turned at max piece sent line.old.octets
            line.new.octets) self.old self.new) }
        ensures ready { OnOk result (AreReady self.new) }
        ensures room { length buf.new ≡ length buf.old }
    {
        let emit = self.send(at, max)?;
        put_drain_line(line, at, &emit)?;
        self.get_all(other, piece)?;
        self.take_all(other, buf)?;
        Ok(!is_nothing(&emit))
    }

    /// An end gets its whole wire in pieces; it stops where none of a piece is used.
    fn get_all(&mut self, at: End, piece: usize) -> Result<(), NoMemory>
        requires ready { AreReady self.old }
        requires some { 0 < piece }
        ensures got { OnOk result (Leads (GotAll at piece) self.old self.new) }
        ensures ready { OnOk result (AreReady self.new) }
    {
        while self.get(at, piece)? > 0 {}
        Ok(())
    }

    /// An end takes all that arrived, the lowest channel first.
    fn take_all(&mut self, at: End, buf: &mut [u8]) -> Result<(), NoMemory>
        requires ready { AreReady self.old }
        requires room { length buf.old ≡ MAX_COUNT }
        ensures took { OnOk result (Leads (TookAll at) self.old self.new) }
        ensures ready { OnOk result (AreReady self.new) }
        ensures room { length buf.new ≡ length buf.old }
    {
        if !self.end(at).has_untaken() {
            return Ok(());
        }
        let numbers = live_numbers(self.allocator(), self.end(at))?;
        self.take_each(at, numbers.as_slice(), buf);
        Ok(())
    }

    /// An end takes all that arrived on some channels, one after another.
    fn take_each(&mut self, at: End, numbers: &[u32], buf: &mut [u8])
        requires ready { AreReady self.old }
        requires room { length buf.old ≡ MAX_COUNT }
        ensures took { Leads (TookEach at numbers.now) self.old self.new }
        ensures ready { AreReady self.new }
        ensures room { length buf.new ≡ length buf.old }
    {
        if let [number, others @ ..] = numbers {
            self.take_out(at, *number, buf);
            self.take_each(at, others, buf);
        }
    }

    /// An end takes all that arrived on a channel.
    fn take_out(&mut self, at: End, n: u32, buf: &mut [u8])
        requires ready { AreReady self.old }
        requires room { length buf.old ≡ MAX_COUNT }
        ensures took { Leads (TookOut at n) self.old self.new }
        ensures ready { AreReady self.new }
        ensures room { length buf.new ≡ length buf.old }
    {
        while self.take(at, n, buf).is_some() {}
    }
}

/// Whether nothing went out.
fn is_nothing(emit: &Emit) -> bool
    ensures { result ≡ was_nothing emit.now }
{
    matches!(emit, Emit::Nothing)
}
