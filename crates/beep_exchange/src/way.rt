//! What an exchange keeps of one direction, and how frames change it.
ghost use Rattle.std.specs.Prelude.{◌≡◌, ◌+◌, ◌-◌, ◌<◌, ◌≤◌, ◌==◌, ◌∷◌, ◌++◌, [], true, false, IfOk, IsTrue, length, take, drop, min, if◌then◌else◌};
ghost use Rattle.std.specs.VecDeque.{deque_len, deque_capacity};
ghost use Rattle.beep_history.specs.Journal.{implied};
ghost use Rattle.beep_history.specs.Marks.{goes_on};
ghost use Rattle.beep_exchange.specs.Kept.{begins, is_open, has_number, is_current, is_early, octets_in, has_answer, begun_in, message_in, breaks_long, tag_under_way, oldest_number, fresh, began_kept, passed_kept, replied_kept};

use crate::answer::{Answer, complete_answer, continue_answer, has_among, octets_among};
use beep_frame::{Head, Kind, Tag};
use beep_history::{MAX_ANSWERS, MAX_MESSAGE, MAX_REQUESTS};
use beep_octets::NoMemory;
use std::alloc::Global;
use std::collections::VecDeque;
use std::marker::Model;

mod rules;

/// One direction: its frame under way and the one before, its last requests, and the reply to the
/// oldest that waits.
#[derive(Drop)]
pub struct Way {
    under_way: Option<Head>,
    before: Option<Head>,
    octets: u32,
    numbers: VecDeque<u32>,
    count: u64,
    waiting: usize,
    kind: Option<Kind>,
    answers: Vec<Answer>,
}

impl Model for Way {
    ghost use Rattle.std.specs.Prelude.{◌≡◌, ◌≤◌, vec_len, vec_capacity};
    ghost use Rattle.std.specs.VecDeque.{deque_len, deque_capacity};
    ghost use Rattle.beep_history.specs.declared.limits.TheConstants.{MAX_REQUESTS, MAX_ANSWERS};
    ghost use Rattle.beep_exchange.specs.Kept.{Kept};

    ghost Value = { Kept };

    ghost view = { λ w. record {
      under_way = w.under_way;
      before = w.before;
      octets = w.octets;
      numbers = w.numbers.items;
      count = w.count;
      waiting = w.waiting;
      kind = w.kind;
      answers = w.answers.items;
    } };

    ghost invariant = { λ w.
        (deque_capacity w.numbers ≡ MAX_REQUESTS) × (deque_len w.numbers ≤ MAX_REQUESTS)
        × (w.waiting ≤ deque_len w.numbers) × (MAX_ANSWERS ≤ vec_capacity w.answers)
        × (vec_len w.answers ≤ MAX_ANSWERS) };
}

impl Way {
    /// A direction in which nothing has happened. It takes room for all that it will ever keep.
    pub fn new(alloc: Global) -> Result<Way, NoMemory>
        ensures { IfOk result (λ way. way ≡ fresh) }
    {
        let numbers = VecDeque::with_capacity(alloc, MAX_REQUESTS as usize)?;
        let answers = Vec::with_capacity(alloc, MAX_ANSWERS as usize)?;
        Ok(Way {
            under_way: None,
            before: None,
            octets: 0,
            numbers,
            count: 0,
            waiting: 0,
            kind: None,
            answers,
        })
    }

    /// Notes the implied request of channel zero, where nothing has happened.
    pub fn open(&mut self)
        requires { self.old ≡ fresh }
        ensures { self.new ≡ passed_kept (began_kept fresh implied) }
    {
        let implied = Head {
            kind: Kind::Msg,
            channel: 0,
            msgno: 0,
            more: false,
            seqno: 0,
            size: 0,
            ansno: 0,
        };
        self.begin(&implied);
        self.pass();
    }

    /// Whether a header begins a request.
    pub fn is_new_request(&self, head: &Head) -> bool
        ensures { result ≡ begins self.now head.now }
    {
        head.kind.is_msg()
            && match self.before {
                None => true,
                Some(before) => !(before.kind.is_msg() && goes_on(head, &before)),
            }
    }

    /// Whether the newest request hasn't wholly passed.
    fn is_open(&self) -> bool
        ensures { result ≡ is_open self.now }
    {
        let begun = match self.under_way {
            None => false,
            Some(head) => head.kind.is_msg(),
        };
        begun
            || match self.before {
                None => false,
                Some(before) => before.kind.is_msg() && before.more,
            }
    }

    /// Whether the oldest request that waits has this number. It costs the same whatever is kept.
    fn is_current(&self, number: u32) -> bool
        ensures { result ≡ is_current self.now number }
    {
        self.waiting > 0 && self.numbers[self.waiting - 1] == number
    }

    /// Whether the newest request has this number, and hasn't wholly passed.
    fn is_early(&self, number: u32) -> bool
        ensures { result ≡ is_early self.now number }
    {
        self.is_open()
            && match self.numbers.front() {
                None => false,
                Some(newest) => *newest == number,
            }
    }

    /// Whether one of the kept requests has this number.
    fn has_number(&self, number: u32) -> bool
        ensures { result ≡ has_number number self.now.numbers }
    {
        self.numbers.contains(&number)
    }

    /// Whether one of the requests that wait has this number.
    fn has_waiting(&self, number: u32) -> bool
        ensures { result ≡ has_number number (take self.now.waiting self.now.numbers) }
    {
        self.numbers.iter().take(self.waiting).any(|n| *n == number)
    }

    /// Whether one of the requests that have wholly passed and wait has this number.
    fn has_whole(&self, number: u32) -> bool
        ensures { result ≡ has_number number
            (drop (if is_open self.now then 1 else 0) (take self.now.waiting self.now.numbers)) }
    {
        let skipped = if self.is_open() { 1 } else { 0 };
        self.numbers
            .iter()
            .take(self.waiting)
            .skip(skipped)
            .any(|n| *n == number)
    }

    /// Whether an unfinished answer has this number.
    fn has_answer(&self, number: u32) -> bool
        ensures { result ≡ has_answer number self.now.answers }
    {
        has_among(number, self.answers.as_slice())
    }

    /// The octets so far of the unfinished answer of this number.
    fn octets_in(&self, number: u32) -> u32
        ensures { result ≡ octets_in number self.now.answers }
    {
        octets_among(number, self.answers.as_slice())
    }

    /// Notes a header of this direction.
    pub fn begin(&mut self, head: &Head)
        requires { begins self.old head.now ≡ true → self.old.waiting < MAX_REQUESTS }
        ensures { self.new ≡ began_kept self.old head.now }
    {
        if self.is_new_request(head) {
            push_newest(&mut self.numbers, head.msgno);
            self.count = self.count.wrapping_add(1);
            self.waiting += 1;
        }
        self.under_way = Some(*head);
    }

    /// Notes that the frame under way has passed, and answers its header.
    pub fn pass(&mut self) -> Option<Head>
        ensures value { result ≡ self.old.under_way }
        ensures passed { self.new ≡ passed_kept self.old }
    {
        let head = self.under_way;
        self.octets = self.octets_after();
        self.before = head;
        self.under_way = None;
        head
    }

    /// The octets so far of the message of the frame that passed last, once the one under way has
    /// passed.
    fn octets_after(&self) -> u32
        ensures { result ≡ (passed_kept self.now).octets }
    {
        match self.under_way {
            None => self.octets,
            Some(head) => self.begun_in(&head).saturating_add(head.size),
        }
    }

    /// The octets so far of the message that a frame goes on, where it is no ANS.
    fn begun_in(&self, head: &Head) -> u32
        ensures { result ≡ begun_in self.now head.now }
    {
        match self.before {
            None => 0,
            Some(before) => {
                if before.kind.is_same(head.kind) && goes_on(head, &before) {
                    self.octets
                } else {
                    0
                }
            }
        }
    }

    /// The octets of the message of a header of this direction, its own included, up to 2^32 - 1.
    fn message_in(&self, theirs: &Way, head: &Head) -> u32
        ensures { result ≡ message_in self.now theirs.now head.now }
    {
        let begun = if head.kind.is_ans() {
            theirs.octets_in(head.ansno)
        } else {
            self.begun_in(head)
        };
        begun.saturating_add(head.size)
    }

    /// Whether a header of this direction makes a message of a channel above zero too long.
    pub fn breaks_long(&self, theirs: &Way, head: &Head) -> bool
        ensures { result ≡ breaks_long self.now theirs.now head.now }
    {
        head.channel != 0 && self.message_in(theirs, head) > MAX_MESSAGE
    }

    /// The tag of the frame under way.
    pub fn tag(&self, theirs: &Way) -> Option<Tag>
        ensures { result ≡ tag_under_way self.now theirs.now }
    {
        let head = self.under_way?;
        let request = if head.kind.is_msg() {
            self.count.wrapping_sub(1)
        } else {
            theirs.count.wrapping_sub(theirs.waiting as u64)
        };
        Some(Tag {
            kind: head.kind,
            request,
            ansno: head.ansno,
        })
    }

    /// The number of the oldest request that waits.
    pub fn oldest_number(&self) -> Option<u32>
        ensures { result ≡ oldest_number self.now }
    {
        if self.waiting == 0 {
            return None;
        }
        Some(self.numbers[self.waiting - 1])
    }

    /// The header of the frame under way.
    pub fn under_way(&self) -> Option<Head>
        ensures { result ≡ self.now.under_way }
    {
        self.under_way
    }

    /// The header of the frame that passed last.
    pub fn before(&self) -> Option<Head>
        ensures { result ≡ self.now.before }
    {
        self.before
    }

    /// How many requests wait for their reply.
    pub fn waiting(&self) -> usize
        ensures { result ≡ self.now.waiting }
    {
        self.waiting
    }

    /// Notes a frame of the reply to the oldest request that waits.
    #[inline(always)]
    pub fn reply(&mut self, head: &Head)
        ensures { self.new ≡ replied_kept self.old head.now }
    {
        if !head.more && !head.kind.is_ans() {
            self.waiting = self.waiting.saturating_sub(1);
            self.kind = None;
            self.answers.clear();
            return;
        }
        self.kind = Some(head.kind);
        if !head.kind.is_ans() {
            return;
        }
        if head.more {
            continue_answer(&mut self.answers, head.ansno, head.size);
        } else {
            complete_answer(&mut self.answers, head.ansno);
        }
    }
}

/// Puts a number before the others, and takes the oldest out where the room is full.
fn push_newest(numbers: &mut VecDeque<u32>, number: u32)
    requires capacity { deque_capacity numbers.old ≡ MAX_REQUESTS }
    requires within { deque_len numbers.old ≤ MAX_REQUESTS }
    ensures items { numbers.new.items ≡ take MAX_REQUESTS (number ∷ numbers.old.items) }
    ensures len { deque_len numbers.new ≡ min (deque_len numbers.old + 1) MAX_REQUESTS }
    ensures capacity { deque_capacity numbers.new ≡ MAX_REQUESTS }
{
    if numbers.len() == MAX_REQUESTS as usize {
        numbers.pop_back();
    }
    numbers.push_front_reserved(number);
}

/// Whether a header goes on with the message of the frame before it.
fn goes_on(head: &Head, before: &Head) -> bool
    ensures { result ≡ goes_on head.now before.now }
{
    before.more && before.msgno == head.msgno
}
