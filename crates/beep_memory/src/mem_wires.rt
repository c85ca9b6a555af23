//! Links in memory.
ghost use Rattle.std.specs.Prelude.{◌≡◌, ◌||◌, ◌++◌, ◌∷◌, [], ◌+◌, ◌<◌, ◌≤◌, nat_le, true, false, Some, length, drop, IfOk, IfSome, OnOk, OnErr, slice_get, vec_len, vec_capacity};
ghost use Rattle.std.specs.List.{list_all};
ghost use Rattle.beep_wires.specs.Counts.{next_count};
ghost use Rattle.beep_memory.specs.declared.mem_wires.TheConstants.{LINKS_MAX};
ghost use Rattle.beep_memory.specs.Gifts.{is_some, GotFits, entry_got, got_need, quiets_counted};
ghost use Rattle.beep_memory.specs.Wiring.{has_none, open_count, opened, written_of};

use crate::asks::{Ask, Asks};
use crate::events::{Deed, Events};
use crate::gives::{Gives, sum_within};
use crate::mem_link::*;
use beep_octets::{NoMemory, Octets};
use beep_wires::{Account, Failed, Fails, Got, WireError, Wires, next_count};
use std::alloc::Global;
use std::marker::Model;

/// The most links that are given: their numbers have 32 bits.
pub const LINKS_MAX: u32 = 4294967295;

/// Links in memory, which give what was planned and keep what is written, and fail at the calls
/// that were planned. Each accept, dial, read and write is a call; they are counted from 0. An
/// accept or a dial without a link that waits fails too, and a write where no octet of the room is
/// left.
#[derive(Debug, Drop)]
pub struct MemWires {
    alloc: Global,
    links: Vec<MemLink>,
    waiting: Vec<MemStock>,
    asks: Asks,
    events: Events,
    fails: Fails,
    calls: u64,
    accept_faults: u64,
    dial_faults: u64,
    quiets: u64,
}

impl Model for MemWires {
    ghost use Rattle.beep_memory.specs.Wiring.{Wiring, Holds};

    ghost Value = { Wiring };

    ghost view = { λ w. record {
      peers = w.links.items;
      waiting = w.waiting.items;
      asked = w.asks.asked;
      story = w.events.events;
      fails = w.fails;
      calls = w.calls;
      accepts = w.accept_faults;
      dials = w.dial_faults;
      quiets = w.quiets;
    } };

    ghost invariant = { λ w. Holds w.links.items w.waiting.items w.events.events w.events.room };
}

impl MemWires {
    ghost use Rattle.beep_memory.specs.Wiring.{wiring_of, link_at, are_before, wiring_shut};
    ghost use Rattle.beep_memory.specs.Answers.{Answers, Reads, Writes, IsCounted};
    ghost use Rattle.beep_memory.specs.Asking.{ask_of};

    /// No link yet: accepts and dials fail. It takes no memory.
    pub fn new(alloc: Global, fails: Fails) -> MemWires
        ensures { result ≡ wiring_of fails }
    {
        MemWires {
            alloc,
            links: Vec::new(alloc),
            waiting: Vec::new(alloc),
            asks: Asks::new(alloc),
            events: Events::new(alloc),
            fails,
            calls: 0,
            accept_faults: 0,
            dial_faults: 0,
            quiets: 0,
        }
    }

    /// Adds the link that the next accept or dial gives, after those that wait. It gives `gives`
    /// and then ends, and takes `room` octets. Room for its log is taken here.
    pub fn add(&mut self, gives: Gives, room: usize) -> Result<(), NoMemory>
        requires { list_all is_some gives ≡ true }
        ensures added { OnOk result (self.new ≡ record self.old {
          waiting = self.old.waiting
              ++ record { gifts = gives; room = room } ∷ [];
        }) }
        ensures err { OnErr result (self.new ≡ self.old) }
    {
        self.waiting.reserve(1)?;
        let mut written = Octets::new(self.alloc);
        written.reserve(room)?;
        let Some(given) = gives.need() else {
            return Err(NoMemory)
        };
        let Some(need) = log_need(given, room) else {
            return Err(NoMemory)
        };
        self.events.reserve_more(need)?;
        self.waiting
            .push_reserved(MemStock::new(gives, written, room));
        Ok(())
    }

    /// What was written on a link; nothing where none of this number was given. It takes no memory.
    pub fn written(&self, link: u32) -> &[u8]
        ensures { result.now ≡ written_of (slice_get self.now.peers link) }
    {
        match self.links.get(link as usize) {
            Some(one) => one.written(),
            None => &[],
        }
    }

    fn give(&mut self, ask: Ask) -> Result<u32, WireError>
        ensures answers { Answers (ask_of ask) result self.old self.new }
        ensures counts { IsCounted self.old }
        ensures before { are_before (length self.old.peers) self.old.story ≡ true }
    {
        if self.links.reserve(1).is_err() || self.asks.reserve().is_err() {
            return Err(WireError::NoMemory);
        }
        let beside = open_count(&self.links);
        let is_planned = self.fails.has(self.calls);
        self.calls = next_count(self.calls);
        if is_refused(is_planned, &self.waiting, &self.links) {
            match ask {
                Ask::Accept(_, _) => self.accept_faults = next_count(self.accept_faults),
                Ask::Dial(_, _) => self.dial_faults = next_count(self.dial_faults),
            }
            self.asks.note(ask, beside, None);
            return Err(WireError::Failed);
        }
        let link = self.links.len() as u32;
        open_first(&mut self.waiting, &mut self.links);
        self.asks.note(ask, beside, Some(link));
        Ok(link)
    }

    fn read_link(&mut self, link: u32, buf: &mut [u8]) -> Result<Got, Failed>
        requires room { 0 < length buf.old }
        requires alive { (link_at self.old link).is_open ≡ true }
        requires going { (link_at self.old link).has_ended ≡ false }
        ensures reads { Reads link result buf.old buf.new self.old self.new }
        ensures counts { IsCounted self.old }
    {
        let is_planned = self.fails.has(self.calls);
        self.calls = next_count(self.calls);
        let at = link as usize;
        if is_planned {
            fail_read_at(&mut self.links, at);
            return Err(Failed);
        }
        let got = read_at(&mut self.links, at, buf);
        note_read(&mut self.events, link, got, buf);
        self.quiets = quiets_after(self.quiets, got);
        Ok(got)
    }

    fn write_link(&mut self, link: u32, bytes: &[u8]) -> Result<usize, Failed>
        requires some { 0 < length bytes.now }
        requires alive { (link_at self.old link).is_open ≡ true }
        ensures writes { Writes link result bytes.now self.old self.new }
        ensures within { IfOk result (λ n. (0 < n) × (n ≤ length bytes.now)) }
    {
        let is_planned = self.fails.has(self.calls);
        self.calls = next_count(self.calls);
        let at = link as usize;
        if is_planned || room_at(&self.links, at) == 0 {
            fail_write_at(&mut self.links, at);
            return Err(Failed);
        }
        let n = write_at(&mut self.links, at, bytes);
        self.events.note(link, Deed::Wrote, &bytes[..n]);
        Ok(n)
    }

    fn shut_link(&mut self, link: u32)
        requires { (link_at self.old link).is_open ≡ true }
        ensures { self.new ≡ wiring_shut self.old link }
    {
        shut_at(&mut self.links, link as usize);
    }
}

/// How many entries a link can have that gives `given` octets and quiet reads, with one end.
fn log_need(given: usize, room: usize) -> Option<usize>
    ensures { IfSome result (λ n. n ≡ given + room + 1) }
{
    sum_within(sum_within(given, room)?, 1)
}

fn is_refused(is_planned: bool, waiting: &Vec<MemStock>, links: &Vec<MemLink>) -> bool
    ensures { result ≡ (is_planned || has_none waiting.now.items
        || nat_le LINKS_MAX (length links.now.items)) }
{
    is_planned || waiting.as_slice().is_empty() || links.as_slice().len() >= LINKS_MAX as usize
}

/// How many links are open.
fn open_count(links: &Vec<MemLink>) -> usize
    ensures { result ≡ open_count links.now.items }
{
    let mut count = 0;
    let mut at = 0;
    while at < links.len() {
        if links[at].is_open() {
            count += 1;
        }
        at += 1;
    }
    count
}

/// Moves the first link that waits to those that are given.
fn open_first(waiting: &mut Vec<MemStock>, links: &mut Vec<MemLink>)
    requires some { has_none waiting.old.items ≡ false }
    requires room { vec_len links.old < vec_capacity links.old }
    ensures links { links.new.items ≡ opened links.old.items waiting.old.items }
    ensures waiting { waiting.new.items ≡ drop 1 waiting.old.items }
{
    let stock = waiting.remove(0);
    links.push_reserved(stock.open());
}

fn quiets_after(quiets: u64, got: Got) -> u64
    ensures { result ≡ quiets_counted got quiets }
{
    match got {
        Got::Quiet => next_count(quiets),
        Got::Bytes(_) | Got::End => quiets,
    }
}

fn note_read(story: &mut Events, link: u32, got: Got, buf: &[u8])
    requires within { GotFits got (length buf.now) }
    requires room { got_need got ≤ story.old.room }
    ensures noted { story.new.events
        ≡ record { link = link; entry = entry_got got buf.now } ∷ story.old.events }
    ensures room { story.old.room ≤ story.new.room + got_need got }
{
    match got {
        Got::Bytes(n) => story.note(link, Deed::Read, &buf[..n]),
        Got::Quiet => story.note(link, Deed::Quiet, &[]),
        Got::End => story.note(link, Deed::Ended, &[]),
    }
}

impl Wires for MemWires {
    ghost use Rattle.std.specs.Prelude.{refl};
    ghost use Rattle.beep_memory.specs.Wiring.{link_at, counts_of, no_lender, wiring_shut};
    ghost use Rattle.beep_wires.specs.Links.{accept as accept_of, dial as dial_of, IsFresh, SameBeside, LeavesLinks, open_among, asked_by, Asks as Asked, given_after, Faults};
    ghost use Rattle.beep_wires.specs.Got.{GotWithin, read_entries, write_entries, gives_end, Quiets};
    ghost use Rattle.beep_wires.specs.Log.{Logs, Enters, entries_of};
    ghost use Rattle.beep_memory.specs.Answers.{Answers, Reads, Writes};

    ghost state = { link_at };

    ghost counts = { counts_of };

    ghost asked = { λ w. Some w.asked };

    ghost story = { λ w. Some w.story };

    ghost lent = { λ _. no_lender };

    ghost in_story = { λ w link. refl };

    fn accept(&mut self, bind: &str, port: u16) -> Result<u32, WireError>
        ensures answers { Answers (accept_of bind.now port) result self.old self.new }
        // What all links ensure.
        ensures number { IfOk result (λ link. link ≡ (counts_of self.old).given) }
        ensures fresh { IfOk result (λ link. IsFresh (link_at self.new link)) }
        ensures others { LeavesLinks result (link_at self.old) (link_at self.new) }
        ensures asks { Asked (Some self.old.asked) (Some self.new.asked)
            (asked_by (accept_of bind.now port)
            (open_among (link_at self.old) (counts_of self.old).given) result) }
        ensures given { (counts_of self.new).given ≡ given_after (counts_of self.old).given result }
        ensures failed { Faults result (counts_of self.old).accepts (counts_of self.new).accepts }
        ensures dials { (counts_of self.new).dials ≡ (counts_of self.old).dials }
        ensures quiets { (counts_of self.new).quiets ≡ (counts_of self.old).quiets }
        ensures same_story { Some self.new.story ≡ Some self.old.story }
        ensures same_lent { no_lender ≡ no_lender }
    {
        match String::from_str(self.alloc, bind) {
            Ok(bind) => self.give(Ask::Accept(bind, port)),
            Err(_) => Err(WireError::NoMemory),
        }
    }

    fn dial(&mut self, host: &str, port: u16) -> Result<u32, WireError>
        ensures answers { Answers (dial_of host.now port) result self.old self.new }
        // What all links ensure.
        ensures number { IfOk result (λ link. link ≡ (counts_of self.old).given) }
        ensures fresh { IfOk result (λ link. IsFresh (link_at self.new link)) }
        ensures others { LeavesLinks result (link_at self.old) (link_at self.new) }
        ensures asks { Asked (Some self.old.asked) (Some self.new.asked)
            (asked_by (dial_of host.now port)
            (open_among (link_at self.old) (counts_of self.old).given) result) }
        ensures given { (counts_of self.new).given ≡ given_after (counts_of self.old).given result }
        ensures failed { Faults result (counts_of self.old).dials (counts_of self.new).dials }
        ensures accepts { (counts_of self.new).accepts ≡ (counts_of self.old).accepts }
        ensures quiets { (counts_of self.new).quiets ≡ (counts_of self.old).quiets }
        ensures same_story { Some self.new.story ≡ Some self.old.story }
        ensures same_lent { no_lender ≡ no_lender }
    {
        match String::from_str(self.alloc, host) {
            Ok(host) => self.give(Ask::Dial(host, port)),
            Err(_) => Err(WireError::NoMemory),
        }
    }

    fn read(&mut self, link: u32, buf: &mut [u8]) -> Result<Got, Failed>
        requires room { 0 < length buf.old }
        requires alive { (link_at self.old link).is_open ≡ true }
        requires going { (link_at self.old link).has_ended ≡ false }
        requires unfailed { (link_at self.old link).faults ≡ 0 }
        ensures reads { Reads link result buf.old buf.new self.old self.new }
        // What all links ensure.
        ensures within { GotWithin result buf.new }
        ensures logged { Logs (link_at self.old link).log (link_at self.new link).log
            (read_entries result buf.new) }
        ensures entered { Enters link (Some self.old.story) (Some self.new.story)
            (read_entries result buf.new) }
        ensures still_open { (link_at self.new link).is_open ≡ true }
        ensures end { (link_at self.new link).has_ended ≡ gives_end result }
        ensures failed { OnErr result ((link_at self.new link).faults ≡ 1) }
        ensures unfailed { OnOk result
            ((link_at self.new link).faults ≡ (link_at self.old link).faults) }
        ensures kept { (link_at self.old link).faults ≤ (link_at self.new link).faults }
        ensures counted { (link_at self.new link).reads ≡ next_count (link_at self.old link).reads }
        ensures others { SameBeside link (link_at self.old) (link_at self.new) }
        ensures quiets { Quiets result (counts_of self.old).quiets (counts_of self.new).quiets }
        ensures counts { counts_of self.new
            ≡ record (counts_of self.old) { quiets = (counts_of self.new).quiets } }
        ensures same_asked { Some self.new.asked ≡ Some self.old.asked }
        ensures same_lent { no_lender ≡ no_lender }
    {
        self.read_link(link, buf)
    }

    fn write(&mut self, link: u32, bytes: &[u8]) -> Result<usize, Failed>
        requires some { 0 < length bytes.now }
        requires alive { (link_at self.old link).is_open ≡ true }
        requires unfailed { (link_at self.old link).faults ≡ 0 }
        ensures writes { Writes link result bytes.now self.old self.new }
        // What all links ensure.
        ensures within { IfOk result (λ n. (0 < n) × (n ≤ length bytes.now)) }
        ensures logged { Logs (link_at self.old link).log (link_at self.new link).log
            (write_entries result bytes.now) }
        ensures entered { Enters link (Some self.old.story) (Some self.new.story)
            (write_entries result bytes.now) }
        ensures still_open { (link_at self.new link).is_open ≡ true }
        ensures end { (link_at self.new link).has_ended ≡ (link_at self.old link).has_ended }
        ensures failed { OnErr result ((link_at self.new link).faults ≡ 1) }
        ensures unfailed { OnOk result
            ((link_at self.new link).faults ≡ (link_at self.old link).faults) }
        ensures kept { (link_at self.old link).faults ≤ (link_at self.new link).faults }
        ensures counted { (link_at self.new link).reads ≡ (link_at self.old link).reads }
        ensures others { SameBeside link (link_at self.old) (link_at self.new) }
        ensures same_counts { counts_of self.new ≡ counts_of self.old }
        ensures same_asked { Some self.new.asked ≡ Some self.old.asked }
        ensures same_lent { no_lender ≡ no_lender }
    {
        self.write_link(link, bytes)
    }

    fn tell(&self, _link: u32, _account: Account) {}

    fn shut(&mut self, link: u32)
        requires alive { (link_at self.old link).is_open ≡ true }
        ensures after { self.new ≡ wiring_shut self.old link }
        // What all links ensure.
        ensures shut { link_at self.new link ≡ record (link_at self.old link) { is_open = false } }
        ensures others { SameBeside link (link_at self.old) (link_at self.new) }
        ensures same_counts { counts_of self.new ≡ counts_of self.old }
        ensures same_asked { Some self.new.asked ≡ Some self.old.asked }
        ensures same_story { Some self.new.story ≡ Some self.old.story }
        ensures same_lent { no_lender ≡ no_lender }
    {
        self.shut_link(link);
    }
}
