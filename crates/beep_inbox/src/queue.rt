//! Octets that are put at the end of one piece of memory, and taken from their front.
ghost use Rattle.std.specs.Prelude.{◌≡◌, ◌-◌, ◌<◌, ◌≤◌, ◌++◌, [], min, length, take, drop, vec_len, vec_capacity, IfOk};
ghost use Rattle.beep_inbox.specs.Queued.{queued};

use beep_octets::NoMemory;
use std::alloc::Global;
use std::marker::Model;

/// Octets, the oldest first. Where all were taken the next stand at the front again, so that an
/// inbox that is emptied after each frame touches little memory.
#[derive(Drop)]
pub(crate) struct Queue {
    bytes: Vec<u8>,
    /// How many octets stand before the others, and were taken.
    at: usize,
    capacity: usize,
}

impl Model for Queue {
    ghost use Rattle.std.specs.Prelude.{◌≤◌, drop, vec_len, vec_capacity};
    ghost use Rattle.beep_inbox.specs.Queued.{Queued, queued};

    ghost Value = { Queued };

    ghost view = { λ q. queued (drop q.at q.bytes.items) q.capacity };

    ghost invariant = { λ q. (q.at ≤ vec_len q.bytes) × (vec_len q.bytes ≤ q.capacity)
        × (q.capacity ≤ vec_capacity q.bytes) };
}

impl Queue {
    /// A queue of no octet. It takes the room for `capacity` of them.
    pub(crate) fn with_capacity(alloc: Global, capacity: usize) -> Result<Queue, NoMemory>
        ensures { IfOk result (λ queue. queue ≡ queued [] capacity) }
    {
        let bytes = Vec::with_capacity(alloc, capacity)?;
        Ok(Queue {
            bytes,
            at: 0,
            capacity,
        })
    }

    pub(crate) fn len(&self) -> usize
        ensures len { result ≡ length self.now.items }
        ensures within { result ≤ self.now.capacity }
    {
        self.bytes.len() - self.at
    }

    pub(crate) fn capacity(&self) -> usize
        ensures capacity { result ≡ self.now.capacity }
        ensures within { length self.now.items ≤ result }
    {
        self.capacity
    }

    /// Puts the first of these octets after the others, as many as find room, and answers how
    /// many. The others are moved only where the room that is left at the end doesn't do.
    pub(crate) fn fill_from_slice(&mut self, octets: &[u8]) -> usize
        ensures count { result
            ≡ min (length octets.now) (self.old.capacity - length self.old.items) }
        ensures items { self.new
            ≡ queued (self.old.items ++ take result octets.now) self.old.capacity }
    {
        let count = octets.len().min(self.capacity - self.len());
        if self.capacity - self.bytes.len() < count {
            close_up(&mut self.bytes, self.at);
            self.at = 0;
        }
        append(&mut self.bytes, &octets[..count]);
        count
    }

    /// Moves the first octets into `buf`, as many as it holds, and answers how many.
    pub(crate) fn read_into(&mut self, buf: &mut [u8]) -> usize
        ensures count { result ≡ min (length buf.old) (length self.old.items) }
        ensures read { buf.new ≡ take result self.old.items ++ drop result buf.old }
        ensures items { self.new ≡ queued (drop result self.old.items) self.old.capacity }
    {
        let count = buf.len().min(self.len());
        let end = self.at + count;
        buf[..count].copy_from_slice(&self.bytes[self.at..end]);
        self.at = end;
        if end == self.bytes.len() {
            self.bytes.clear();
            self.at = 0;
        }
        count
    }
}

/// Drops the first octets.
fn close_up(bytes: &mut Vec<u8>, count: usize)
    requires { count ≤ vec_len bytes.old }
    ensures left { bytes.new.items ≡ drop count bytes.old.items }
    ensures room { vec_capacity bytes.new ≡ vec_capacity bytes.old }
{
    let left = bytes.len() - count;
    bytes.copy_within(count.., 0);
    bytes.truncate(left);
}

/// Appends octets in room that is there.
fn append(bytes: &mut Vec<u8>, octets: &[u8])
    requires { length octets.now ≤ vec_capacity bytes.old - vec_len bytes.old }
    ensures appended { bytes.new.items ≡ bytes.old.items ++ octets.now }
    ensures room { vec_capacity bytes.old ≤ vec_capacity bytes.new }
{
    match bytes.extend_from_slice(octets) {
        Ok(()) => {}
        Err(_) => unreachable!(),
    }
}
