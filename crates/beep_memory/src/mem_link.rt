//! One link in memory.
ghost use Rattle.std.specs.Prelude.{◌≡◌, ◌<◌, ◌≤◌, ◌++◌, ◌∷◌, [], true, false, length, min, take, drop, slice_get};
ghost use Rattle.beep_memory.specs.Gifts.{got_from, octets_from, ends, GotFits};
ghost use Rattle.beep_wires.specs.declared.count.TheConstants.{COUNT_MAX};
ghost use Rattle.beep_memory.specs.Wiring.{gifts_of, room_of, faults_of, peer_of, peer_read, peer_unread, peer_written, peer_unwritten, peer_shut, changed};

use crate::gives::Gives;
use crate::giving::Giving;
use beep_octets::Octets;
use beep_wires::{Got, next_count};
use std::marker::Model;

/// A link that waits to be given: what it gives, and room for what will be written on it.
#[derive(Debug, Drop)]
pub(crate) struct MemStock {
    gives: Gives,
    written: Octets,
    room: usize,
}

impl Model for MemStock {
    ghost use Rattle.std.specs.Prelude.{◌≡◌, ◌≤◌, true, []};
    ghost use Rattle.std.specs.List.{list_all};
    ghost use Rattle.beep_memory.specs.Gifts.{is_some};
    ghost use Rattle.beep_memory.specs.Wiring.{Stock};

    ghost Value = { Stock };

    ghost view = { λ s. record { gifts = s.gives; room = s.room } };

    ghost invariant = { λ s. (list_all is_some s.gives ≡ true) × (s.written.octets ≡ [])
        × (s.room ≤ s.written.spare) };
}

/// A link that was given: what it gives, from a place on, and what was written.
#[derive(Debug, Drop)]
pub(crate) struct MemLink {
    giving: Giving,
    written: Octets,
    room: usize,
    is_open: bool,
    has_ended: bool,
    faults: u64,
    reads: u64,
}

impl Model for MemLink {
    ghost use Rattle.std.specs.Prelude.{◌≤◌};
    ghost use Rattle.beep_memory.specs.Wiring.{Peer};

    ghost Value = { Peer };

    ghost view = { λ l. record {
      gifts = l.giving;
      written = l.written.octets;
      room = l.room;
      is_open = l.is_open;
      has_ended = l.has_ended;
      faults = l.faults;
      reads = l.reads;
    } };

    ghost invariant = { λ l. l.room ≤ l.written.spare };
}

impl MemStock {
    ghost use Rattle.std.specs.List.{list_all};
    ghost use Rattle.beep_memory.specs.Gifts.{is_some};

    /// A link that gives this, and takes as many octets as it has room for.
    pub(crate) fn new(gives: Gives, written: Octets, room: usize) -> MemStock
        requires some { list_all is_some gives ≡ true }
        requires empty { written.octets ≡ [] }
        requires room { room ≤ written.spare }
        ensures { result ≡ record { gifts = gives; room = room } }
    {
        MemStock {
            gives,
            written,
            room,
        }
    }

    /// The link, as it is given.
    pub(crate) fn open(self) -> MemLink
        ensures { result ≡ peer_of self }
    {
        MemLink {
            giving: Giving::new(self.gives),
            written: self.written,
            room: self.room,
            is_open: true,
            has_ended: false,
            faults: 0,
            reads: 0,
        }
    }
}

impl MemLink {
    /// What was written.
    pub(crate) fn written(&self) -> &[u8]
        ensures { result.now ≡ self.now.written }
    {
        self.written.as_slice()
    }

    /// Whether it isn't shut.
    pub(crate) fn is_open(&self) -> bool
        ensures { result ≡ self.now.is_open }
    {
        self.is_open
    }

    /// How many more octets find room.
    pub(crate) fn room(&self) -> usize
        ensures { result ≡ self.now.room }
    {
        self.room
    }

    /// Reads into the front of `buf`.
    fn read(&mut self, buf: &mut [u8]) -> Got
        requires { 0 < length buf.old }
        ensures got { result ≡ got_from self.old.gifts (length buf.old) }
        ensures filled { buf.new ≡ octets_from self.old.gifts (length buf.old)
            ++ drop (length (octets_from self.old.gifts (length buf.old))) buf.old }
        ensures after { self.new ≡ peer_read self.old (length buf.old) }
        ensures within { GotFits result (length buf.old) }
    {
        self.reads = next_count(self.reads);
        let got = self.giving.next(buf);
        self.has_ended = is_end(got);
        got
    }

    /// A read that fails.
    fn fail_read(&mut self)
        ensures after { self.new ≡ peer_unread self.old }
        ensures counts { self.old.faults ≤ COUNT_MAX }
    {
        self.has_ended = false;
        self.faults = next_count(self.faults);
        self.reads = next_count(self.reads);
    }

    /// Takes the front of `bytes`, as much as finds room, and answers how many octets.
    fn write(&mut self, bytes: &[u8]) -> usize
        ensures taken { result ≡ min self.old.room (length bytes.now) }
        ensures after { self.new ≡ peer_written self.old (take result bytes.now) }
    {
        let n = self.room.min(bytes.len());
        self.written.extend_spare(&bytes[..n]);
        self.room -= n;
        n
    }

    /// A write that fails.
    fn fail_write(&mut self)
        ensures after { self.new ≡ peer_unwritten self.old }
        ensures counts { self.old.faults ≤ COUNT_MAX }
    {
        self.faults = next_count(self.faults);
    }

    fn shut(&mut self)
        ensures { self.new ≡ peer_shut self.old }
    {
        self.is_open = false;
    }
}

fn is_end(got: Got) -> bool
    ensures { result ≡ ends got }
{
    match got {
        Got::Bytes(_) | Got::Quiet => false,
        Got::End => true,
    }
}

// ---- one of several

/// Reads the link at `at`.
pub(crate) fn read_at(links: &mut Vec<MemLink>, at: usize, buf: &mut [u8]) -> Got
    requires within { at < length links.old.items }
    requires room { 0 < length buf.old }
    ensures got { result ≡ got_from (gifts_of (slice_get links.old.items at)) (length buf.old) }
    ensures filled { buf.new
        ≡ octets_from (gifts_of (slice_get links.old.items at)) (length buf.old)
        ++ drop (length (octets_from (gifts_of (slice_get links.old.items at)) (length buf.old)))
        buf.old }
    ensures after { links.new.items
        ≡ changed (λ p. peer_read p (length buf.old)) links.old.items at }
    ensures fits { GotFits result (length buf.old) }
{
    links[at].read(buf)
}

/// A read of the link at `at` that fails.
pub(crate) fn fail_read_at(links: &mut Vec<MemLink>, at: usize)
    requires { at < length links.old.items }
    ensures after { links.new.items ≡ changed peer_unread links.old.items at }
    ensures counts { faults_of (slice_get links.old.items at) ≤ COUNT_MAX }
{
    links[at].fail_read();
}

/// The room on the link at `at`.
pub(crate) fn room_at(links: &Vec<MemLink>, at: usize) -> usize
    requires { at < length links.now.items }
    ensures { result ≡ room_of (slice_get links.now.items at) }
{
    links[at].room()
}

/// Writes on the link at `at`.
pub(crate) fn write_at(links: &mut Vec<MemLink>, at: usize, bytes: &[u8]) -> usize
    requires { at < length links.old.items }
    ensures taken { result ≡ min (room_of (slice_get links.old.items at)) (length bytes.now) }
    ensures after { links.new.items
        ≡ changed (λ p. peer_written p (take result bytes.now)) links.old.items at }
{
    links[at].write(bytes)
}

/// A write on the link at `at` that fails.
pub(crate) fn fail_write_at(links: &mut Vec<MemLink>, at: usize)
    requires { at < length links.old.items }
    ensures after { links.new.items ≡ changed peer_unwritten links.old.items at }
    ensures counts { faults_of (slice_get links.old.items at) ≤ COUNT_MAX }
{
    links[at].fail_write();
}

/// Shuts the link at `at`.
pub(crate) fn shut_at(links: &mut Vec<MemLink>, at: usize)
    requires { at < length links.old.items }
    ensures { links.new.items ≡ changed peer_shut links.old.items at }
{
    links[at].shut();
}
