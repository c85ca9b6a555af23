//! What arrived in one life and was not taken, the oldest first.
ghost use Rattle.std.specs.Prelude.{◌≡◌, ◌<◌, ◌≤◌, ◌==◌, ◌+◌, [], ◌∷◌, ◌++◌, length, IfSome, IfNone, IfOk, OnOk, OnErr, IsOk};
ghost use Rattle.std.specs.VecDeque.{deque_len, deque_capacity};
ghost use Rattle.beep_octets.specs.Numbers.{numbers_32};
ghost use Rattle.beep_inbox.specs.Runs.{put_run, octets_of, AllMarked};
ghost use Rattle.beep_inbox.specs.Untaken.{lengths, goes_on, TakesPart};
ghost use Rattle.beep_inbox.specs.Untaken.{put_part as put_of};

use crate::part::Part;
use crate::queue::Queue;
use beep_frame::Tag;
use beep_octets::NoMemory;
use std::alloc::Global;
use std::collections::VecDeque;
use std::marker::Model;

/// The untaken octets of one life, and the ends of their messages.
#[derive(Drop)]
pub struct Inbox {
    octets: Queue,
    parts: VecDeque<Part>,
}

impl Model for Inbox {
    ghost use Rattle.std.specs.Prelude.{◌≡◌, ◌-◌, ◌^◌, ◌<◌, length};
    ghost use Rattle.std.specs.VecDeque.{deque_len, deque_capacity};
    ghost use Rattle.beep_octets.specs.Numbers.{numbers_32};
    ghost use Rattle.beep_inbox.specs.Runs.{AllMarked};
    ghost use Rattle.beep_inbox.specs.Untaken.{Untaken, runs_of, lengths};

    ghost Value = { Untaken };

    ghost view = { λ i. record {
      runs = runs_of i.parts.items i.octets.items;
      window = i.octets.capacity;
      places = deque_capacity i.parts - deque_len i.parts;
    } };

    ghost invariant = { λ i. (lengths i.parts.items ≡ length i.octets.items)
        × (i.octets.capacity < numbers_32) × AllMarked (runs_of i.parts.items i.octets.items) };
}

impl Inbox {
    ghost use Rattle.beep_octets.specs.Numbers.{numbers_32};
    ghost use Rattle.beep_inbox.specs.Untaken.{IsTaken};

    /// An inbox for at most `window` untaken octets. It takes the room for them here.
    pub fn new(alloc: Global, window: u32) -> Result<Inbox, NoMemory>
        ensures runs { IfOk result (λ inbox. inbox.runs ≡ []) }
        ensures window { IfOk result (λ inbox. inbox.window ≡ window) }
    {
        let octets = Queue::with_capacity(alloc, window as usize)?;
        Ok(Inbox {
            octets,
            parts: VecDeque::new(alloc),
        })
    }

    /// Makes room for one more run.
    pub fn make_room(&mut self) -> Result<(), NoMemory>
        ensures ok { OnOk result (0 < self.new.places) }
        ensures succeeds { 0 < self.old.places → IsOk result }
        ensures kept { self.new.runs ≡ self.old.runs }
        ensures window { self.new.window ≡ self.old.window }
        ensures room { self.old.places ≤ self.new.places }
    {
        self.parts.reserve(1)?;
        Ok(())
    }

    /// Puts octets after the others, and the end of their message where it follows. It takes
    /// memory only where the octets begin a new run and there is no place for one.
    pub fn put(&mut self, tag: Tag, octets: &[u8], ended: bool) -> Result<(), NoMemory>
        requires fits { octets_of self.old.runs + length octets.now ≤ self.old.window }
        ensures ok { OnOk result (self.new.runs ≡ put_run self.old.runs
            (record { tag = tag; octets = octets.now; ended = ended })) }
        ensures err { OnErr result (self.new.runs ≡ self.old.runs) }
        ensures succeeds { 0 < self.old.places → IsOk result }
        ensures window { self.new.window ≡ self.old.window }
        ensures room { self.old.places ≤ self.new.places + 1 }
    {
        if octets.is_empty() && !ended {
            return Ok(());
        }
        put_part(&mut self.parts, tag, octets.len(), ended)?;
        self.octets.fill_from_slice(octets);
        Ok(())
    }

    /// Takes the first octets of the first run, as many as `buf` holds, and its end where that
    /// follows. It takes no memory.
    pub fn take(&mut self, buf: &mut [u8]) -> Option<Part>
        requires some { 0 < length buf.old }
        requires fits { length buf.old < numbers_32 }
        ensures some { IfSome result (λ part.
            IsTaken part self.old.runs self.new.runs buf.old buf.new) }
        ensures none { IfNone result (self.old.runs ≡ []) }

        ensures kept { IfNone result (self.new ≡ self.old) }
        ensures same { IfNone result (buf.new ≡ buf.old) }
        ensures window { self.new.window ≡ self.old.window }
        ensures room { self.old.places ≤ self.new.places }
    {
        let Some(part) = take_part(&mut self.parts, buf.len() as u32) else {
            return None
        };
        let len = part.len as usize;
        self.octets.read_into(&mut buf[..len]);
        Some(part)
    }

    /// How many octets are untaken.
    pub fn untaken(&self) -> u32
        ensures value { result ≡ octets_of self.now.runs }
        ensures within { octets_of self.now.runs ≤ self.now.window }
    {
        self.octets.len() as u32
    }

    /// How many more octets find room.
    pub fn room(&self) -> u32
        ensures { octets_of self.now.runs + result ≡ self.now.window }
    {
        (self.octets.capacity() - self.octets.len()) as u32
    }

    /// Whether no mark is untaken.
    pub fn is_empty(&self) -> bool
        ensures value { result ≡ (length self.now.runs == 0) }
        ensures marked { AllMarked self.now.runs }
    {
        self.parts.is_empty()
    }
}

/// Puts `len` octets after the others, as one part with the last where they go on with its
/// message.
fn put_part(parts: &mut VecDeque<Part>, tag: Tag, len: usize, ended: bool) -> Result<(), NoMemory>
    requires { lengths parts.old.items + len < numbers_32 }
    ensures ok { OnOk result (parts.new.items
        ≡ put_of parts.old.items (record { tag = tag; len = len; ended = ended })) }
    ensures err { OnErr result (parts.new.items ≡ parts.old.items) }
    ensures succeeds { deque_len parts.old < deque_capacity parts.old → IsOk result }
    ensures room { deque_capacity parts.old + deque_len parts.new
        ≤ deque_capacity parts.new + deque_len parts.old + 1 }
{
    let part = Part {
        tag,
        len: len as u32,
        ended,
    };
    let Some(last) = parts.pop_back() else {
        return push(parts, part)
    };
    if goes_on(part, last) {
        parts.push_back_reserved(Part {
            tag: last.tag,
            len: last.len + part.len,
            ended: part.ended,
        });
        return Ok(());
    }
    parts.push_back_reserved(last);
    push(parts, part)
}

/// Whether a part goes on with the message of the one before it.
fn goes_on(part: Part, before: Part) -> bool
    ensures { result ≡ goes_on part before }
{
    let (tag, last) = (part.tag, before.tag);
    tag.kind.is_same(last.kind)
        && tag.request == last.request
        && tag.ansno == last.ansno
        && !before.ended
}

fn push(parts: &mut VecDeque<Part>, part: Part) -> Result<(), NoMemory>
    ensures ok { OnOk result (parts.new.items ≡ parts.old.items ++ part ∷ []) }
    ensures err { OnErr result (parts.new.items ≡ parts.old.items) }
    ensures succeeds { deque_len parts.old < deque_capacity parts.old → IsOk result }
    ensures len { deque_len parts.new ≤ deque_len parts.old + 1 }
    ensures capacity { deque_capacity parts.old ≤ deque_capacity parts.new }
{
    match parts.push_back(part) {
        Ok(()) => Ok(()),
        Err(_) => Err(NoMemory),
    }
}

/// Takes the first part, or its first `most` octets.
fn take_part(parts: &mut VecDeque<Part>, most: u32) -> Option<Part>
    ensures some { IfSome result (λ part. TakesPart part parts.old.items parts.new.items most) }
    ensures none { IfNone result (parts.old.items ≡ []) }
    ensures kept { IfNone result ((parts.new.items ≡ parts.old.items)
        × (deque_len parts.new ≡ deque_len parts.old)
        × (deque_capacity parts.new ≡ deque_capacity parts.old)) }
    ensures room { deque_capacity parts.old + deque_len parts.new
        ≤ deque_capacity parts.new + deque_len parts.old }
{
    let Some(first) = parts.pop_front() else {
        return None
    };
    if first.len <= most {
        return Some(first);
    }
    parts.push_front_reserved(Part {
        tag: first.tag,
        len: first.len - most,
        ended: first.ended,
    });
    Some(Part {
        tag: first.tag,
        len: most,
        ended: false,
    })
}
