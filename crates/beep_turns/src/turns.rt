//! The numbers of a session's channels, in ascending order.
ghost use Rattle.std.specs.Prelude.{◌≡◌, ◌<◌, ◌≤◌, ◌==◌, [], length, nat_lt, None, Some, is_some, IfSome, IfOk, slice_get};
ghost use Rattle.std.specs.List.{list_any, position, count_by};
ghost use Rattle.beep_turns.specs.Order.{IsAscending, insert, without, first_true, IsLeastReady};

use crate::flags::first;
use beep_octets::NoMemory;
use std::alloc::Global;
use std::marker::Model;

/// How many channels above zero may live at once in a session. Choice: RFC 3080, section 2.3
/// (docs/DECISIONS.md, "How many channels live at once").
pub const MAX_CHANNELS: usize = 64;

/// The numbers of channel zero and of at most `MAX_CHANNELS` others, the lowest first. Their room
/// is taken at once.
#[derive(Debug, Drop)]
pub struct Turns {
    channels: Vec<u32>,
}

impl Model for Turns {
    ghost use Rattle.std.specs.Prelude.{ℕ, List, ◌<◌, vec_capacity};
    ghost use Rattle.beep_turns.specs.declared.turns.TheConstants.{MAX_CHANNELS};
    ghost use Rattle.beep_turns.specs.Order.{IsAscending};

    ghost Value = { List ℕ };

    ghost view = { λ t. t.channels.items };

    ghost invariant = { λ t. (MAX_CHANNELS < vec_capacity t.channels)
        × IsAscending 0 t.channels.items };
}

impl Turns {
    /// No channel, with room for all.
    pub fn new(alloc: Global) -> Result<Turns, NoMemory>
        ensures { IfOk result (λ turns. turns ≡ []) }
    {
        let channels = Vec::with_capacity(alloc, MAX_CHANNELS + 1)?;
        Ok(Turns { channels })
    }

    /// How many channels there are.
    pub fn len(&self) -> usize
        ensures { result ≡ length self.now }
    {
        self.channels.len()
    }

    /// The channel at a place, counted from 0.
    pub fn place(&self, i: usize) -> Option<u32>
        ensures value { result ≡ slice_get self.now i }
        ensures ascending { IsAscending 0 self.now }
    {
        self.channels.get(i).copied()
    }

    /// The place of a channel.
    pub fn find(&self, channel: u32) -> Option<usize>
        ensures { result ≡ position (λ n. n == channel) self.now }
    {
        match self.channels.binary_search(&channel) {
            Ok(place) => Some(place),
            Err(_) => None,
        }
    }

    /// The place of a channel, where a guess of it is looked at first.
    pub fn find_near(&self, channel: u32, guess: usize) -> Option<usize>
        ensures { result ≡ position (λ n. n == channel) self.now }
    {
        match self.place(guess) {
            Some(number) if number == channel => Some(guess),
            Some(_) | None => self.find(channel),
        }
    }

    /// Adds a channel at its ascending place. It takes no memory.
    pub fn add(&mut self, channel: u32)
        requires room { length self.old ≤ MAX_CHANNELS }
        requires fresh { position (λ n. n == channel) self.old ≡ None }
        ensures { self.new ≡ insert channel self.old }
    {
        let place = self.below(channel);
        match self.channels.insert(place, channel) {
            Ok(()) => {}
            Err(_) => unreachable!(),
        }
    }

    /// How many channels are below this number.
    fn below(&self, channel: u32) -> usize
        ensures { result ≡ count_by (λ n. nat_lt n channel) self.now }
    {
        self.channels.iter().filter(|n| **n < channel).count()
    }

    /// Removes a channel, where it is there.
    pub fn remove(&mut self, channel: u32)
        ensures { self.new ≡ without channel self.old }
    {
        let Some(place) = self.find(channel) else {
            return;
        };
        self.channels.remove(place);
    }

    /// The first channel whose entry of `ready` is true: the lowest of these. It takes no memory.
    pub fn next(&mut self, ready: &[bool]) -> Option<u32>
        requires { length ready.now ≡ length self.old }
        ensures value { result ≡ first_true ready.now self.old }
        ensures least { IfSome result (λ number. IsLeastReady ready.now self.old number) }
        ensures none { is_some result ≡ list_any (λ flag. flag) ready.now }
        ensures kept { self.new ≡ self.old }
    {
        let Some(place) = first(ready) else {
            return None
        };
        Some(self.channels[place])
    }
}
