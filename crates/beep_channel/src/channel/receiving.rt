//! Frames that are received: what is judged at a header, and what arrives.
ghost use Rattle.std.specs.Prelude.{◌≡◌, ◌<◌, ◌≤◌, ◌+◌, ℕ, List, not, length, None, Some, IsSome, OnOk, OnErr, IsOk};
ghost use Rattle.std.specs.Option.{option_map_or};
ghost use Rattle.beep_frame.specs.declared.head.Head.{Head as HeadValue};
ghost use Rattle.beep_history.specs.declared.journal.Side.{Side};
ghost use Rattle.beep_history.specs.Journal.{Item, began, passed};
ghost use Rattle.beep_history.specs.Marks.{Mark};
ghost use Rattle.beep_history.specs.declared.limits.TheConstants.{MAX_REQUESTS, MAX_ANSWERS};
ghost use Rattle.beep_history.specs.Broken.{broken_rule};
ghost use Rattle.beep_inbox.specs.Runs.{octets_of, put_run};
ghost use Rattle.beep_channel.specs.Held.{held_judged, octets_judged, arrived_run, SameRoom, SameRoomOut};
ghost use Rattle.beep_channel.specs.Stands.{Stands, StandsWith, SameOut, untaken_ends};

use super::Channel;
use beep_frame::{Head, Rule};
use beep_history::with_octets;
use beep_octets::NoMemory;

impl Channel {
    /// The first rule of one life that a received header breaks, from NulShape to TooManyAnswers.
    pub fn judge(&self, head: &Head) -> Option<Rule>
        ensures value { result ≡ held_judged self.now.held head.now }
        ensures stands { (size : ℕ) (past : List Item) (given taken : List Mark)
            → Stands size self.now.held past given taken
            → result ≡ broken_rule Side.Received past head.now }
    {
        with_octets(self.exchange.judge_in(head), self.judge_octets(head))
    }

    /// The first rule on octets that a received header breaks.
    fn judge_octets(&self, head: &Head) -> Option<Rule>
        ensures { result ≡ octets_judged self.now.held head.now }
    {
        if head.seqno != self.receives.expect() {
            return Some(Rule::Sequence);
        }
        if self.exchange.is_long_in(head) {
            return Some(Rule::Long);
        }
        if !self.receives.fits(head.size) {
            return Some(Rule::Window);
        }
        None
    }

    /// Notes a received header, which breaks no rule.
    pub fn begin(&mut self, head: &Head)
        requires judged { held_judged self.old.held head.now ≡ None }
        requires whole { self.old.held.life.received.under_way ≡ None }
        requires channel { head.now.channel ≡ self.old.held.number }
        ensures stands { StandsWith self.old.held self.new.held (began Side.Received head.now) }
        ensures begun { self.new.held.life.received.under_way ≡ Some head.now }
        ensures same { SameOut self.old.held self.new.held }
        ensures inbox { self.new.held.inbox ≡ self.old.held.inbox }
        ensures room { SameRoom self.old self.new }
    {
        self.exchange.note_in(head);
    }

    /// The header of the received frame that has begun and not arrived.
    pub fn receiving(&self) -> Option<Head>
        ensures value { result ≡ self.now.held.life.received.under_way }

        // The untaken octets and those of that frame are together within the own window.
        ensures bounded { octets_of self.now.held.inbox
            + option_map_or (λ head. head.size) self.now.held.life.received.under_way 0
            ≤ self.now.held.receives.size }

        // The untaken ends are at most the untaken octets, and those of so many requests, replies
        // and answers whose octets were all taken.
        ensures ends { untaken_ends self.now.held ≤ octets_of self.now.held.inbox
            + (MAX_REQUESTS + MAX_REQUESTS + MAX_ANSWERS) }
    {
        self.exchange.receiving()
    }

    /// Makes room for what the next frame adds, so that `arrive` takes no memory.
    pub fn make_room(&mut self) -> Result<(), NoMemory>
        ensures ok { OnOk result (0 < self.new.runs) }
        ensures succeeds { 0 < self.old.runs → IsOk result }
        ensures kept { self.new.held ≡ self.old.held }
        ensures room { (self.old.runs ≤ self.new.runs) × SameRoomOut self.old self.new }
    {
        self.inbox.make_room()
    }

    /// Puts the octets of the frame that has begun after what is untaken. After `NoMemory` the
    /// frame is still begun, and the call may be made again.
    pub fn arrive(&mut self, payload: &[u8]) -> Result<(), NoMemory>
        requires begun { IsSome self.old.held.life.received.under_way }
        requires sized { (head : HeadValue) → self.old.held.life.received.under_way ≡ Some head
            → length payload.now ≡ head.size }
        ensures stands { OnOk result ((head : HeadValue)
            → self.old.held.life.received.under_way ≡ Some head
            → StandsWith self.old.held self.new.held (passed Side.Received head payload.now)) }
        ensures put { OnOk result ((head : HeadValue)
            → self.old.held.life.received.under_way ≡ Some head
            → self.new.held.inbox
            ≡ put_run self.old.held.inbox (arrived_run self.old.held head payload.now)) }
        ensures whole { OnOk result (self.new.held.life.received.under_way ≡ None) }
        ensures same { OnOk result (SameOut self.old.held self.new.held) }
        ensures err { OnErr result (self.new.held ≡ self.old.held) }
        ensures succeeds { 0 < self.old.runs → IsOk result }
        ensures room { (self.old.runs ≤ self.new.runs + 1) × SameRoomOut self.old self.new }
    {
        let Some(head) = self.exchange.receiving() else {
            unreachable!()
        };
        let Some(tag) = self.exchange.tag_in() else {
            unreachable!()
        };
        self.inbox.put(tag, payload, !head.more)?;
        self.exchange.note_whole();
        self.receives.arrived(head.size);
        Ok(())
    }
}
