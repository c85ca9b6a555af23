//! Channel zero and the live lives of a session.
ghost use Rattle.std.specs.Prelude.{◌≡◌, ◌∷◌, ◌+◌, ◌<◌, ◌==◌, ℕ, [], List, length, Some, None, IfOk, IfSome, IsSome, OnOk, OnErr, true, false, not, if◌then◌else◌, option_copied, option_map};
ghost use Rattle.std.specs.Bool.{OnTrue};
ghost use Rattle.std.specs.Option.{option_map_or};
ghost use Rattle.beep_octets.specs.Numbers.{numbers_64};
ghost use Rattle.beep_history.specs.Journal.{Item, opening};
ghost use Rattle.beep_judge.specs.Lived.{IsLife};
ghost use Rattle.beep_history.specs.Windows.{is_bad_ack};
ghost use Rattle.beep_judge.specs.declared.life.Life.{Life as LifeValue};
ghost use Rattle.beep_judge.specs.Kept.{under, judged_of, unacked_of, life_at, is_current, is_bad_at};
ghost use Rattle.beep_judge.specs.Edits.{Begins, Passes, Obeys, SameChannels, Edits, Starts, Ends};

use crate::life::Life;
use beep_frame::{Head, Seq};
use beep_history::Side;
use beep_octets::NoMemory;
use std::alloc::Global;
use std::collections::BTreeMap;

/// Channel zero, the live lives by their number, the stamp of the next life, and whether a close of
/// 0 was granted.
#[derive(Drop)]
pub(crate) struct Channels {
    pub(crate) alloc: Global,
    pub(crate) zero: Life,
    pub(crate) lives: BTreeMap<u32, Life>,
    pub(crate) stamps: u64,
    pub(crate) released: bool,
}

impl Channels {
    /// Channel zero alone. Its life has the stamp 0.
    pub(crate) fn new(alloc: Global) -> Result<Channels, NoMemory>
        ensures zero { IfOk result (λ channels. IsLife channels.zero opening) }
        ensures idle { IfOk result (λ channels. (side : Side) → under side channels.zero ≡ None) }
        ensures stamp { IfOk result (λ channels. channels.zero.stamp ≡ 0) }
        ensures alone { IfOk result (λ channels. (n : ℕ) → (n == 0) ≡ false
            → life_at n channels ≡ None) }
        ensures stamps { IfOk result (λ channels. channels.stamps ≡ 1) }
        ensures released { IfOk result (λ channels. channels.released ≡ false) }
    {
        let zero = Life::new(alloc, true, 0)?;
        Ok(Channels {
            alloc,
            zero,
            lives: BTreeMap::new(alloc),
            stamps: 1,
            released: false,
        })
    }

    /// The live life of a number.
    pub(crate) fn life_at(&self, number: u32) -> Option<&Life>
        ensures { option_copied result ≡ life_at number self.now }
    {
        if number == 0 {
            return Some(&self.zero);
        }
        self.lives.get(&number)
    }

    /// Whether the live life of a number has this stamp.
    pub(crate) fn is_current(&self, number: u32, stamp: u64) -> bool
        ensures { result ≡ is_current number stamp self.now }
    {
        match self.life_at(number) {
            Some(life) => life.stamp == stamp,
            None => false,
        }
    }

    /// Whether the counts of the live life of its number can take the octets of a frame.
    pub(crate) fn has_room(&self, side: Side, head: &Head) -> bool
        ensures { result ≡ true
            → IfSome (life_at head.now.channel self.now)
            (λ life. unacked_of side life + head.now.size < numbers_64) }
    {
        match self.life_at(head.channel) {
            Some(life) => life.has_room(side, head),
            None => true,
        }
    }

    /// The stamp of the live life of a number, 0 where none is.
    pub(crate) fn stamp_of(&self, number: u32) -> u64
        ensures { result ≡ option_map_or (λ life. life.stamp) (life_at number self.now) 0 }
    {
        match self.life_at(number) {
            Some(life) => life.stamp,
            None => 0,
        }
    }

    /// Notes a header in the live life of its number.
    pub(crate) fn begin(&mut self, side: Side, head: &Head)
        requires alive { IsSome (life_at head.now.channel self.old) }
        requires judged { IfSome (life_at head.now.channel self.old)
            (λ life. judged_of side life head.now ≡ None) }
        requires whole { IfSome (life_at head.now.channel self.old)
            (λ life. under side life ≡ None) }
        ensures { Edits head.now.channel (Begins side head.now) self.old self.new }
    {
        if head.channel == 0 {
            self.zero.begin(side, head);
            return;
        }
        match self.lives.get_mut(&head.channel) {
            Some(life) => life.begin(side, head),
            None => unreachable!(),
        }
    }

    /// Notes in the live life of its number that a frame has passed.
    pub(crate) fn pass(&mut self, side: Side, head: &Head)
        requires alive { IsSome (life_at head.now.channel self.old) }
        requires begun { IfSome (life_at head.now.channel self.old)
            (λ life. under side life ≡ Some head.now) }
        requires room { IfSome (life_at head.now.channel self.old)
            (λ life. unacked_of side life + head.now.size < numbers_64) }
        ensures { Edits head.now.channel (Passes side head.now) self.old self.new }
    {
        if head.channel == 0 {
            self.zero.pass(side, head);
            return;
        }
        match self.lives.get_mut(&head.channel) {
            Some(life) => life.pass(side, head),
            None => unreachable!(),
        }
    }

    /// Whether a SEQ is a bad one to the live life of its number.
    pub(crate) fn is_bad_ack(&self, side: Side, seq: &Seq) -> bool
        ensures value { result ≡ is_bad_at side self.now seq.now }
        ensures some { (life : LifeValue) (past : List Item)
            → life_at seq.now.channel self.now ≡ Some life → IsLife life past
            → result ≡ is_bad_ack side past seq.now }
    {
        match self.life_at(seq.channel) {
            Some(life) => life.is_bad_ack(side, seq),
            None => false,
        }
    }

    /// Obeys a SEQ in the live life of its number, where there is one.
    pub(crate) fn obey(&mut self, side: Side, seq: &Seq)
        requires good { is_bad_at side self.old seq.now ≡ false }
        ensures some { IsSome (life_at seq.now.channel self.old)
            → Edits seq.now.channel (Obeys side seq.now) self.old self.new }
        ensures none { life_at seq.now.channel self.old ≡ None → SameChannels self.old self.new }
    {
        if seq.channel == 0 {
            self.zero.obey(side, seq);
            return;
        }
        match self.lives.get_mut(&seq.channel) {
            Some(life) => life.obey(side, seq),
            None => {}
        }
    }

    /// Begins a life with the next stamp.
    pub(crate) fn start(&mut self, number: u32) -> Result<(), NoMemory>
        requires above { (number == 0) ≡ false }
        ensures ok { OnOk result (Starts number self.old self.new) }
        ensures err { OnErr result (SameChannels self.old self.new) }
        ensures zero { self.new.zero ≡ self.old.zero }
    {
        let Some(stamps) = self.stamps.checked_add(1) else {
            return Err(NoMemory);
        };
        let life = Life::new(self.alloc, false, self.stamps)?;
        match self.lives.insert(number, life) {
            Ok(_) => {}
            Err(_) => return Err(NoMemory),
        }
        self.stamps = stamps;
        Ok(())
    }

    /// Ends the life of a number.
    pub(crate) fn end(&mut self, number: u32)
        requires above { (number == 0) ≡ false }
        ensures ends { Ends number self.old self.new }
        ensures zero { self.new.zero ≡ self.old.zero }
    {
        let _ended = self.lives.remove(&number);
    }
}
