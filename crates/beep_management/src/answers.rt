//! The answers to requests of channel zero that aren't given yet, in the order of the requests.
ghost use Rattle.std.specs.Prelude.{◌≡◌, ◌∷◌, ◌++◌, ◌+◌, ◌<◌, ◌≤◌, [], length, Some, None, option_map, OnOk, IsOk, IfSome, IfNone};
ghost use Rattle.std.specs.Option.{option_copied, option_to_list};
ghost use Rattle.std.specs.VecDeque.{deque_len, deque_capacity};
ghost use Rattle.beep_asked.specs.beep_octets.specs.Numbers.{numbers_64};
ghost use Rattle.beep_management.specs.Managed.{wait_without, one_without, first_of, octets_prepared};
ghost use Rattle.beep_management.specs.Managed.{without as all_without};
ghost use Rattle.beep_management.specs.Values.{prepared_of, all_prepared};

use crate::wait::Wait;
use beep_asked::beep_frame::Kind;
use beep_asked::beep_octets::{NoMemory, Octets};
use std::alloc::Global;
use std::collections::VecDeque;
use std::marker::Model;

/// An answer: its kind, its message, and what it waits for.
#[derive(Drop)]
pub struct Answer {
    pub kind: Kind,
    pub octets: Octets,
    pub waits: Wait,
}

impl Answer {
    /// The life of this number has ended: where the answer waits for it, it waits for nothing.
    pub(crate) fn clear(&mut self, number: u32)
        ensures { prepared_of self.new ≡ one_without number (prepared_of self.old) }
    {
        self.waits = without(number, self.waits);
    }
}

/// What is left of a wait, where the life of this number has ended.
fn without(number: u32, waits: Wait) -> Wait
    ensures { result ≡ wait_without number waits }
{
    match waits {
        Wait::Life(of) => if of == number { Wait::Nothing } else { waits },
        Wait::Nothing | Wait::All => waits,
    }
}

/// Answers, the oldest first, and room for more of them.
#[derive(Drop)]
pub(crate) struct Answers {
    list: VecDeque<Answer>,
}

impl Model for Answers {
    ghost use Rattle.std.specs.Prelude.{◌-◌};
    ghost use Rattle.std.specs.VecDeque.{deque_len, deque_capacity};
    ghost use Rattle.beep_management.specs.Managed.{PreparedQueue};
    ghost use Rattle.beep_management.specs.Values.{all_prepared};

    ghost Value = { PreparedQueue };

    ghost view = { λ a. record {
      list = all_prepared a.list.items;
      room = deque_capacity a.list - deque_len a.list;
    } };
}

impl Answers {
    /// No answer, and no room. It takes no memory.
    pub(crate) fn new(alloc: Global) -> Answers
        ensures { result.list ≡ [] }
    {
        Answers {
            list: VecDeque::new(alloc),
        }
    }

    /// Makes room for one more.
    pub(crate) fn reserve(&mut self) -> Result<(), NoMemory>
        ensures ok { OnOk result (0 < self.new.room) }
        ensures kept { self.new.list ≡ self.old.list }
    {
        self.list.reserve(1)?;
        Ok(())
    }

    /// Puts an answer after the others, in the room that is there.
    pub(crate) fn push(&mut self, answer: Answer)
        requires { 0 < self.old.room }
        ensures { self.new.list ≡ self.old.list ++ prepared_of answer ∷ [] }
    {
        self.list.push_back_reserved(answer);
    }

    /// How many answers aren't given yet.
    pub(crate) fn len(&self) -> usize
        ensures { result ≡ length self.now.list }
    {
        self.list.len()
    }

    /// Their octets together, where a usize counts so many.
    pub(crate) fn octets(&self) -> Option<usize>
        ensures some { IfSome result (λ octets. octets ≡ octets_prepared self.now.list) }
        ensures none { IfNone result (numbers_64 ≤ octets_prepared self.now.list) }
    {
        sum_octets(&self.list)
    }

    /// The first of them.
    pub(crate) fn first(&self) -> Option<&Answer>
        ensures { option_map prepared_of (option_copied result) ≡ first_of self.now.list }
    {
        self.list.front()
    }

    /// Takes the first of them.
    pub(crate) fn pop(&mut self) -> Option<Answer>
        ensures split { self.old.list
            ≡ option_to_list (option_map prepared_of result) ++ self.new.list }
        ensures none { result ≡ None → self.old.list ≡ [] }
    {
        self.list.pop_front()
    }

    /// The life of this number has ended: what waits for it waits for nothing.
    pub(crate) fn clear(&mut self, number: u32)
        ensures { self.new.list ≡ all_without number self.old.list }
    {
        clear_all(&mut self.list, number);
    }
}

/// The octets of answers together, where a usize counts so many.
fn sum_octets(list: &VecDeque<Answer>) -> Option<usize>
    ensures some { IfSome result (λ octets.
        octets ≡ octets_prepared (all_prepared list.now.items)) }
    ensures none { IfNone result (numbers_64 ≤ octets_prepared (all_prepared list.now.items)) }
{
    let mut octets: usize = 0;
    for i in 0..list.len() {
        let Some(more) = octets.checked_add(list[i].octets.len()) else {
            return None;
        };
        octets = more;
    }
    Some(octets)
}

/// Clears each of the answers.
fn clear_all(list: &mut VecDeque<Answer>, number: u32)
    ensures list { all_prepared list.new.items ≡ all_without number (all_prepared list.old.items) }
    ensures len { deque_len list.new ≡ deque_len list.old }
    ensures capacity { deque_capacity list.new ≡ deque_capacity list.old }
{
    for i in 0..list.len() {
        list[i].clear(number);
    }
}
