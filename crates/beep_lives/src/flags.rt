//! Which channels can send and which owe a SEQ, one flag a channel.
ghost use Rattle.std.specs.Prelude.{◌≡◌, ◌<◌, ◌≤◌, slice_set, vec_len, vec_capacity};
ghost use Rattle.std.specs.List.{insert};
ghost use Rattle.beep_lives.specs.Lives.{can_send, owes_seq};

use beep_channel::Channel;

/// Notes both flags of the channel at a place.
pub(crate) fn note(ready: &mut Vec<bool>, due: &mut Vec<bool>, i: usize, channel: &Channel)
    requires ready { i < vec_len ready.old }
    requires due { i < vec_len due.old }
    ensures ready { ready.new.items ≡ slice_set ready.old.items i (can_send channel.now) }
    ensures due { due.new.items ≡ slice_set due.old.items i (owes_seq channel.now) }
    ensures ready_room { vec_capacity ready.new ≡ vec_capacity ready.old }
    ensures due_room { vec_capacity due.new ≡ vec_capacity due.old }
{
    ready[i] = channel.is_ready();
    due[i] = owes_seq(channel);
}

/// Whether a SEQ of the channel is due.
pub(crate) fn owes_seq(channel: &Channel) -> bool
    ensures { result ≡ owes_seq channel.now }
{
    channel.seq_due().is_some()
}

/// Puts an item at a place, in the room that is there.
pub(crate) fn put<T: Drop>(items: &mut Vec<T>, i: usize, item: T)
    requires within { i ≤ vec_len items.old }
    requires room { vec_len items.old < vec_capacity items.old }
    ensures items { items.new.items ≡ insert items.old.items i item }
    ensures room { vec_capacity items.old ≤ vec_capacity items.new }
{
    match items.insert(i, item) {
        Ok(()) => {}
        Err(_) => unreachable!(),
    }
}
