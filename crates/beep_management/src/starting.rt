//! The channels of starts that wait for their reply, in the order of the starts.
ghost use Rattle.std.specs.Prelude.{◌≡◌, ◌∷◌, ◌++◌, ◌<◌, [], length, slice_get, None, OnOk, IfSome};
ghost use Rattle.std.specs.Option.{option_to_list};
ghost use Rattle.beep_management.specs.Managed.{has_number};

use beep_asked::beep_channel::Channel;
use beep_asked::beep_octets::NoMemory;
use std::alloc::Global;
use std::collections::VecDeque;
use std::marker::Model;

/// Channels, the oldest first, and room for more of them.
#[derive(Drop)]
pub(crate) struct Starting {
    list: VecDeque<Channel>,
}

impl Model for Starting {
    ghost use Rattle.std.specs.Prelude.{◌-◌};
    ghost use Rattle.std.specs.VecDeque.{deque_len, deque_capacity};
    ghost use Rattle.beep_management.specs.Managed.{ChannelQueue};

    ghost Value = { ChannelQueue };

    ghost view = { λ s. record {
      list = s.list.items;
      room = deque_capacity s.list - deque_len s.list;
    } };
}

impl Starting {
    /// No channel, and no room. It takes no memory.
    pub(crate) fn new(alloc: Global) -> Starting
        ensures { result.list ≡ [] }
    {
        Starting {
            list: VecDeque::new(alloc),
        }
    }

    /// Makes room for one more.
    pub(crate) fn reserve(&mut self) -> Result<(), NoMemory>
        ensures ok { OnOk result (0 < self.new.room) }
        ensures kept { self.new.list ≡ self.old.list }
    {
        self.list.reserve(1)?;
        Ok(())
    }

    /// Puts a channel after the others, where there is one, in the room that is there.
    pub(crate) fn push(&mut self, channel: Option<Channel>)
        requires { 0 < self.old.room }
        ensures { self.new.list ≡ self.old.list ++ option_to_list channel }
    {
        if let Some(channel) = channel {
            self.list.push_back_reserved(channel);
        }
    }

    /// How many channels it has; the room for more isn't counted.
    pub(crate) fn len(&self) -> usize
        ensures { result ≡ length self.now.list }
    {
        self.list.len()
    }

    /// Whether one of them has this number.
    pub(crate) fn has(&self, number: u32) -> bool
        ensures { result ≡ has_number number self.now.list }
    {
        self.list.iter().any(|channel| channel.number() == number)
    }

    /// The number of one of them.
    pub(crate) fn number(&self, i: usize) -> u32
        requires { i < length self.now.list }
        ensures { IfSome (slice_get self.now.list i) (λ channel. result ≡ channel.held.number) }
    {
        self.list[i].number()
    }

    /// Takes the first of them.
    pub(crate) fn pop(&mut self) -> Option<Channel>
        ensures split { self.old.list ≡ option_to_list result ++ self.new.list }
        ensures none { result ≡ None → self.old.list ≡ [] }
    {
        self.list.pop_front()
    }
}
