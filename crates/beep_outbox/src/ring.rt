//! Octets in a ring, moved in and out in bulk.
ghost use Rattle.std.specs.Prelude.{◌≡◌, ◌<◌, ◌≤◌, ◌+◌, ◌-◌, ◌++◌, length, take, drop, OnOk, OnErr, IsOk};
ghost use Rattle.beep_octets.specs.Numbers.{numbers_32};
ghost use Rattle.beep_octets.specs.Held.{KeepsRoom};

use beep_octets::{NoMemory, Octets};
use circular_buffer::HeapCircularBuffer;
use std::mem;

/// The most octets that a ring holds.
const MAX_ROOM: usize = 4294967295;

/// Makes room for `n` more octets, at least twice what there was. `NoMemory` comes also where the
/// ring would have more than 4294967295.
#[inline(always)]
pub(crate) fn make_room(ring: &mut HeapCircularBuffer<u8>, n: usize) -> Result<(), NoMemory>
    requires { ring.old.capacity < numbers_32 }
    ensures ok { OnOk result (length ring.new.items + n ≤ ring.new.capacity) }
    ensures kept { ring.new.items ≡ ring.old.items }
    ensures room { ring.old.capacity ≤ ring.new.capacity }
    ensures within { ring.new.capacity < numbers_32 }
    ensures succeeds { n ≤ ring.old.capacity - length ring.old.items → IsOk result }
{
    let (len, capacity) = (ring.len(), ring.capacity());
    if n <= capacity - len {
        return Ok(());
    }
    if MAX_ROOM - len < n {
        return Err(NoMemory);
    }
    grow(ring, (len + n).max(capacity * 2).min(MAX_ROOM))
}

/// Moves the octets to a larger ring.
fn grow(ring: &mut HeapCircularBuffer<u8>, capacity: usize) -> Result<(), NoMemory>
    requires { length ring.old.items ≤ capacity }
    ensures ok { OnOk result (ring.new.capacity ≡ capacity) }
    ensures err { OnErr result (ring.new.capacity ≡ ring.old.capacity) }
    ensures kept { ring.new.items ≡ ring.old.items }
{
    let Ok(mut larger) = HeapCircularBuffer::with_capacity(*ring.allocator(), capacity) else {
        return Err(NoMemory);
    };
    let (front, back) = ring.as_slices();
    larger.fill_from_slice(front);
    larger.fill_from_slice(back);
    mem::swap(ring, &mut larger);
    Ok(())
}

/// Moves the first `n` octets to the end of `out`, in the room that is there.
pub(crate) fn move_front(ring: &mut HeapCircularBuffer<u8>, n: usize, out: &mut Octets)
    requires within { n ≤ length ring.old.items }
    requires spare { n ≤ out.old.spare }
    ensures appended { out.new.octets ≡ out.old.octets ++ take n ring.old.items }
    ensures left { ring.new.items ≡ drop n ring.old.items }
    ensures capacity { ring.new.capacity ≡ ring.old.capacity }
    ensures room { KeepsRoom out.old out.new }
{
    let len = ring.len();
    let (front, back) = ring.as_slices();
    let from_front = n.min(front.len());
    out.extend_spare(&front[..from_front]);
    append_any(&back[..n - from_front], out);
    ring.truncate_front(len - n);
}

/// Appends octets, in the room that is there. Mostly there are none: then nothing is called.
fn append_any(octets: &[u8], out: &mut Octets)
    requires spare { length octets.now ≤ out.old.spare }
    ensures appended { out.new.octets ≡ out.old.octets ++ octets.now }
    ensures room { KeepsRoom out.old out.new }
{
    if !octets.is_empty() {
        out.extend_spare(octets);
    }
}
