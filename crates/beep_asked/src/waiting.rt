//! The requests of one side of channel zero that wait for their reply (RFC 3080, sections 2.3.1
//! and 2.6.1).
ghost use Rattle.std.specs.Prelude.{◌≡◌, ◌∷◌, ◌++◌, ◌+◌, ◌<◌, ◌≤◌, ◌==◌, [], length, not, option_map, false, IfOk, OnOk, IsOk};
ghost use Rattle.std.specs.List.{list_any};
ghost use Rattle.std.specs.Option.{option_copied, option_to_list, option_map_or};
ghost use Rattle.std.specs.VecDeque.{deque_len, deque_capacity};
ghost use Rattle.beep_standing.specs.beep_mgmt.specs.Form.{form_of};
ghost use Rattle.beep_decide.specs.Asks.{is_close_of};
ghost use Rattle.beep_asked.specs.Kept.{implied_request, oldest, others, fits, after_grant, closes_one, closes, is_leaving, asks_otherwise};
ghost use Rattle.beep_asked.specs.Kept.{clear as cleared};
ghost use Rattle.beep_asked.specs.Request.{kept_of, all_kept};

use crate::request::Request;
use beep_standing::beep_frame::Kind;
use beep_standing::beep_mgmt::Mgmt;
use beep_standing::beep_octets::NoMemory;
use std::alloc::Global;
use std::collections::VecDeque;
use std::marker::Model;

/// The requests of a side that wait, the latest first, and room for more of them.
#[derive(Drop)]
pub struct Waiting {
    list: VecDeque<Request>,
}

impl Model for Waiting {
    ghost use Rattle.std.specs.Prelude.{◌-◌};
    ghost use Rattle.std.specs.VecDeque.{deque_len, deque_capacity};
    ghost use Rattle.beep_asked.specs.Kept.{Queue};
    ghost use Rattle.beep_asked.specs.Request.{all_kept};

    ghost Value = { Queue };

    ghost view = { λ w. record {
      requests = all_kept w.list.items;
      room = deque_capacity w.list - deque_len w.list;
    } };
}

impl Waiting {
    /// The queue of a new session: the implied request waits.
    pub fn new(alloc: Global) -> Result<Waiting, NoMemory>
        ensures { IfOk result (λ waiting. waiting.requests ≡ implied_request ∷ []) }
    {
        let mut list = VecDeque::with_capacity(alloc, 1)?;
        list.push_front_reserved(Request::implied());
        Ok(Waiting { list })
    }

    /// A queue in which nothing waits. It takes no memory.
    pub fn empty(alloc: Global) -> Waiting
        ensures { result.requests ≡ [] }
    {
        Waiting {
            list: VecDeque::new(alloc),
        }
    }

    /// Makes room for `n` more requests. It takes memory only where there is none for them.
    pub fn reserve(&mut self, n: usize) -> Result<(), NoMemory>
        ensures ok { OnOk result (n ≤ self.new.room) }
        ensures succeeds { n ≤ self.old.room → IsOk result }
        ensures kept { self.new.requests ≡ self.old.requests }
        ensures room { self.old.room ≤ self.new.room }
    {
        self.list.reserve(n)?;
        Ok(())
    }

    /// Puts a request before the others, in the room that is there.
    pub fn push(&mut self, request: Request)
        requires { 0 < self.old.room }
        ensures requests { self.new.requests ≡ kept_of request ∷ self.old.requests }
        ensures room { self.new.room + 1 ≡ self.old.room }
    {
        self.list.push_front_reserved(request);
    }

    /// The request that was asked first.
    pub fn oldest(&self) -> Option<&Request>
        ensures { option_map kept_of (option_copied result) ≡ oldest self.now.requests }
    {
        self.list.back()
    }

    /// Takes the request that was asked first.
    pub fn pop(&mut self) -> Option<Request>
        ensures value { option_map kept_of result ≡ oldest self.old.requests }
        ensures others { self.new.requests ≡ others self.old.requests }
        ensures split { self.old.requests
            ≡ self.new.requests ++ option_to_list (option_map kept_of result) }
        ensures room { self.new.room + length self.new.requests
            ≡ self.old.room + length self.old.requests }
    {
        self.list.pop_back()
    }

    /// The life of this number has ended: no close of the number names it any more.
    pub fn clear(&mut self, number: u32)
        ensures requests { self.new.requests ≡ cleared number self.old.requests }
        ensures room { self.new.room ≡ self.old.room }
    {
        clear_all(&mut self.list, number);
    }

    /// This request was granted. Where it is a close that names a live life, that life has ended.
    pub fn clear_by(&mut self, granted: &Request)
        ensures requests { self.new.requests
            ≡ after_grant (kept_of granted.now) self.old.requests }
        ensures room { self.new.room ≡ self.old.room }
    {
        match &granted.said {
            Some(Mgmt::Close { number, .. }) => if granted.names {
                self.clear(*number);
            },
            Some(
                Mgmt::Greeting { .. }
                | Mgmt::Start { .. }
                | Mgmt::Chosen { .. }
                | Mgmt::Okay
                | Mgmt::Fault { .. },
            )
            | None => {}
        }
    }

    /// How many requests wait.
    pub fn len(&self) -> usize
        ensures { result ≡ length self.now.requests }
    {
        self.list.len()
    }

    /// Whether none waits.
    pub fn is_empty(&self) -> bool
        ensures { result ≡ (length self.now.requests == 0) }
    {
        self.list.is_empty()
    }

    /// Whether a whole reply of this kind, which says this, has the form that the oldest request
    /// asks for; it hasn't where none waits.
    pub fn fits(&self, kind: Kind, said: &Option<Mgmt>) -> bool
        ensures { result ≡ option_map_or (fits kind (option_map form_of said.now))
            (oldest self.now.requests) false }
    {
        match self.oldest() {
            Some(request) => request.fits(kind, said),
            None => false,
        }
    }

    /// Whether a close of this number waits: one of 0, or one whose life is live.
    pub fn closes(&self, number: u32) -> bool
        ensures { result ≡ closes number self.now.requests }
    {
        has_close(&self.list, number)
    }

    /// Whether a close of 0 waits.
    pub fn is_leaving(&self) -> bool
        ensures { result ≡ is_leaving self.now.requests }
    {
        has_close_of_zero(&self.list)
    }

    /// Whether one waits that is no close of 0.
    pub fn asks_otherwise(&self) -> bool
        ensures { result ≡ asks_otherwise self.now.requests }
    {
        has_other(&self.list)
    }
}

/// Clears each of the requests.
fn clear_all(list: &mut VecDeque<Request>, number: u32)
    ensures requests { all_kept list.new.items ≡ cleared number (all_kept list.old.items) }
    ensures len { deque_len list.new ≡ deque_len list.old }
    ensures capacity { deque_capacity list.new ≡ deque_capacity list.old }
{
    for i in 0..list.len() {
        list[i].clear(number);
    }
}

/// Whether one of them is a close of 0, or one of this number whose life is live.
fn has_close(list: &VecDeque<Request>, number: u32) -> bool
    ensures { result ≡ list_any (λ request. closes_one number (kept_of request)) list.now.items }
{
    list.iter().any(|request| request.closes(number))
}

/// Whether one of them is a close of 0.
fn has_close_of_zero(list: &VecDeque<Request>) -> bool
    ensures { result ≡ list_any (λ request. is_close_of 0 (kept_of request).said) list.now.items }
{
    list.iter().any(|request| request.is_close_of(0))
}

/// Whether one of them is no close of 0.
fn has_other(list: &VecDeque<Request>) -> bool
    ensures { result ≡ list_any (λ request. not (is_close_of 0 (kept_of request).said))
        list.now.items }
{
    list.iter().any(|request| !request.is_close_of(0))
}
