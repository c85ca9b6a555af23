//! The messages that were given and not wholly sent, the oldest first.
ghost use Rattle.std.specs.Prelude.{◌≡◌, ◌≢◌, ◌<◌, ◌≤◌, ◌==◌, ◌+◌, ◌-◌, ◌⊎◌, ◌||◌, [], ◌∷◌, ◌++◌, length, take, nat_lt, not, Some, None, IfSome, IfErr, IfOk, OnOk, OnErr, IsOk};
ghost use Rattle.std.specs.Option.{option_map_or};
ghost use Rattle.std.specs.VecDeque.{deque_len, deque_capacity};
ghost use Rattle.beep_octets.specs.Held.{KeepsRoom};
ghost use Rattle.beep_outbox.specs.Queue.{octets_of, first_octets, first_tag};
ghost use Rattle.beep_outbox.specs.Unsent.{give_refusal, CutsEntry};

use crate::entry::Entry;
use crate::give_error::GiveError;
use crate::ring::{make_room, move_front};
use beep_frame::Tag;
use beep_octets::{NoMemory, Octets};
use circular_buffer::HeapCircularBuffer;
use std::alloc::Global;
use std::collections::VecDeque;
use std::marker::Model;

/// The most octets of one message that is given to an outbox without a limit.
pub const MAX_UNLIMITED: u32 = 65536;

/// The messages of one life that were given and not wholly sent.
#[derive(Drop)]
pub struct Outbox {
    octets: HeapCircularBuffer<u8>,
    entries: VecDeque<Entry>,
    limit: Option<u32>,
}

impl Model for Outbox {
    ghost use Rattle.std.specs.Prelude.{◌≡◌, ◌-◌, ◌^◌, ◌<◌, length};
    ghost use Rattle.std.specs.VecDeque.{deque_len, deque_capacity};
    ghost use Rattle.beep_octets.specs.Numbers.{numbers_32};
    ghost use Rattle.beep_outbox.specs.Unsent.{Unsent, messages_of, lengths};

    ghost Value = { Unsent };

    ghost view = { λ o. record {
      messages = messages_of o.entries.items o.octets.items;
      limit = o.limit;
      spare = o.octets.capacity - length o.octets.items;
      places = deque_capacity o.entries - deque_len o.entries;
    } };

    ghost invariant = { λ o. (lengths o.entries.items ≡ length o.octets.items)
        × (o.octets.capacity < numbers_32) };
}

impl Outbox {
    ghost use Rattle.beep_outbox.specs.Unsent.{IsCut};

    /// No message. `limit` is how many octets there may be, if any number is too many. It takes no
    /// room.
    pub fn new(alloc: Global, limit: Option<u32>) -> Result<Outbox, NoMemory>
        ensures messages { IfOk result (λ outbox. outbox.messages ≡ []) }
        ensures limit { IfOk result (λ outbox. outbox.limit ≡ limit) }
    {
        let octets = HeapCircularBuffer::with_capacity(alloc, 0)?;
        Ok(Outbox {
            octets,
            entries: VecDeque::new(alloc),
            limit,
        })
    }

    /// Makes room for so many more messages, of at most so many octets together. All messages
    /// together have room for at most 4294967295 octets: `NoMemory` past that too.
    pub fn reserve(&mut self, octets: usize, messages: usize) -> Result<(), NoMemory>
        ensures ok { OnOk result ((octets ≤ self.new.spare) × (messages ≤ self.new.places)) }
        ensures succeeds { octets ≤ self.old.spare → messages ≤ self.old.places → IsOk result }
        ensures kept { self.new.messages ≡ self.old.messages }
        ensures limit { self.new.limit ≡ self.old.limit }
        ensures room { (self.old.spare ≤ self.new.spare) × (self.old.places ≤ self.new.places) }
    {
        self.entries.reserve(messages)?;
        make_room(&mut self.octets, octets)
    }

    /// Gives a message, to be cut after the others. It takes memory only where there is no room.
    #[inline(always)]
    pub fn give(&mut self, tag: Tag, octets: &[u8]) -> Result<(), GiveError>
        requires fits { self.old.limit ≡ None → length octets.now ≤ MAX_UNLIMITED }
        ensures ok { OnOk result (self.new.messages
            ≡ self.old.messages ++ record { tag = tag; octets = octets.now } ∷ []) }

        ensures accepted { OnOk result (give_refusal self.old (length octets.now) ≡ None) }
        ensures refused { IfErr result (λ error. error ≢ GiveError.NoMemory
            → give_refusal self.old (length octets.now) ≡ Some error) }
        ensures memory { IfErr result (λ error. error ≡ GiveError.NoMemory
            → give_refusal self.old (length octets.now) ≡ None) }
        ensures err { OnErr result (self.new.messages ≡ self.old.messages) }

        ensures limit { self.new.limit ≡ self.old.limit }
        ensures succeeds { length octets.now ≤ self.old.spare → 0 < self.old.places
            → give_refusal self.old (length octets.now) ≡ None → IsOk result }

        // A message takes its own room alone, and one that is refused takes none.
        ensures used { OnOk result ((self.old.spare ≤ self.new.spare + length octets.now)
            × (self.old.places ≤ self.new.places + 1)) }
        ensures room { OnErr result ((self.old.spare ≤ self.new.spare)
            × (self.old.places ≤ self.new.places)) }
    {
        if let Some(error) = self.refusal(octets.len()) {
            return Err(error);
        }
        let Ok(()) = self.reserve(octets.len(), 1) else {
            return Err(GiveError::NoMemory)
        };
        self.octets.fill_from_slice(octets);
        let len = octets.len() as u32;
        self.entries.push_back_reserved(Entry { tag, len });
        Ok(())
    }

    /// Why so many more octets are refused, if they are.
    fn refusal(&self, size: usize) -> Option<GiveError>
        ensures { result ≡ give_refusal self.now size }
    {
        let Some(limit) = self.limit else { return None };
        let queued = self.queued();
        if queued <= limit && size <= (limit - queued) as usize {
            return None;
        }
        Some(GiveError::Full { queued, limit })
    }

    /// Whether there is a message.
    pub fn has_next(&self) -> bool
        ensures { result ≡ nat_lt 0 (length self.now.messages) }
    {
        !self.entries.is_empty()
    }

    /// How many octets are left of the first message.
    pub fn next_len(&self) -> u32
        requires has_next { 0 < length self.now.messages }
        ensures { result ≡ length (first_octets self.now.messages) }
    {
        self.entries[0].len
    }

    /// What the octets of the first message are marked with.
    pub fn next_tag(&self) -> Tag
        requires has_next { 0 < length self.now.messages }
        ensures { first_tag self.now.messages ≡ Some result }
    {
        self.entries[0].tag
    }

    /// How many octets are unsent.
    pub fn queued(&self) -> u32
        ensures { result ≡ octets_of self.now.messages }
    {
        self.octets.len() as u32
    }

    /// Cuts the next octets of the first message, at most `max`, and appends them to `out`. It
    /// answers the tag, how many, and whether more of the message follows. It takes no memory.
    pub fn cut(&mut self, max: u32, out: &mut Octets) -> (Tag, u32, bool)
        requires has_next { 0 < length self.old.messages }
        requires some { (0 < max) ⊎ (length (first_octets self.old.messages) ≡ 0) }
        requires room { max ≤ out.old.spare }
        ensures value { IsCut max result.0 result.1 result.2 self.old.messages self.new.messages }
        ensures appended { out.new.octets
            ≡ out.old.octets ++ take result.1 (first_octets self.old.messages) }
        ensures room { KeepsRoom out.old out.new }
        ensures limit { self.new.limit ≡ self.old.limit }
        ensures places { self.old.places ≤ self.new.places }
        ensures spare { self.old.spare ≤ self.new.spare }
    {
        let (tag, count, more) = cut_entry(&mut self.entries, max);
        move_front(&mut self.octets, count as usize, out);
        (tag, count, more)
    }
}

/// Cuts at most `max` octets off the first entry, and the entry where none is left.
fn cut_entry(entries: &mut VecDeque<Entry>, max: u32) -> (Tag, u32, bool)
    requires { 0 < deque_len entries.old }
    ensures cuts { CutsEntry max result.0 result.1 result.2 entries.old.items entries.new.items }
    ensures len { deque_len entries.new ≤ deque_len entries.old }
    ensures capacity { deque_capacity entries.new ≡ deque_capacity entries.old }
{
    let Some(first) = entries.pop_front() else {
        unreachable!()
    };
    if first.len <= max {
        return (first.tag, first.len, false);
    }
    entries.push_front_reserved(Entry {
        tag: first.tag,
        len: first.len - max,
    });
    (first.tag, max, true)
}
