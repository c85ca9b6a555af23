//! Which own requests wait for their reply, and which received ones are owed one, by what was given
//! and taken.
ghost use Rattle.std.specs.Prelude.{◌≡◌, ◌↔◌, ◌<◌, [], ◌∷◌, List, length, IsSome, if◌then◌else◌};
ghost use Rattle.beep_frame.specs.declared.tag.Tag.{Tag as TagValue};
ghost use Rattle.beep_history.specs.Marks.{modulo_2_64};
ghost use Rattle.beep_exchange.specs.Given.{Call, next_answer, first_asked_now, first_owed_now, next_asked_now};

use beep_frame::{Kind, MAX_NUMBER, Tag};
use beep_history::MAX_REQUESTS;

/// How many numbers a header can give to a message (RFC 3080, section 2.2.1.1).
const MESSAGE_NUMBERS: u64 = MAX_NUMBER as u64 + 1;

/// The own requests that wait and the received ones that are owed a reply, each by the oldest and
/// how many.
#[derive(Clone, Copy, Debug, PartialEq, Eq)]
pub struct Given {
    /// The own requests without a wholly taken reply.
    pub asked: u32,
    /// The position of the oldest of these, modulo 2^64.
    pub first_asked: u64,
    /// The received requests, wholly taken, without a whole reply given.
    pub owed: u32,
    /// The position of the oldest of these, modulo 2^64.
    pub first_owed: u64,
    /// The answers given to it, modulo 2^31, or None where none was given.
    pub answers: Option<u32>,
}

impl Given {
    ghost use Rattle.beep_exchange.specs.Given.{gave, took, Counts, MayGive, MayTake, MayTakeEnd, new_given, after_reply, after_end, after_given, after_taken, first_asked_of, first_owed_of, opening_calls};

    /// Before any call. On channel zero, `zero`, the request that each greeting answers was given
    /// and taken.
    pub fn new(zero: bool) -> Given
        ensures value { result ≡ new_given zero }
        ensures calls { Counts result (if zero then opening_calls else []) }
    {
        let first = if zero { 1 } else { 0 };
        Given {
            asked: first,
            first_asked: 0,
            owed: first,
            first_owed: 0,
            answers: None,
        }
    }

    /// Notes that a message of this kind was given.
    pub fn give(&mut self, kind: Kind)
        requires may { MayGive self.old kind }
        ensures value { self.new ≡ after_given self.old kind }
        ensures calls { (calls : List Call) → Counts self.old calls
            → Counts self.new (gave kind ∷ calls) }
    {
        match kind {
            Kind::Msg => self.asked += 1,
            Kind::Ans => self.answers = Some(next_answer(self.answers)),
            Kind::Rpy | Kind::Err | Kind::Nul => self.end_reply(),
        }
    }

    /// Notes that the end of a message was taken.
    pub fn take_end(&mut self, tag: Tag)
        requires may { MayTake self.old tag }
        ensures value { self.new ≡ after_taken self.old tag.kind }
        ensures calls { (calls : List Call) (whole : TagValue) → Counts self.old calls
            → MayTakeEnd calls whole.kind whole.request → modulo_2_64 whole ≡ tag
            → Counts self.new (took whole ∷ calls) }
    {
        match tag.kind {
            Kind::Msg => self.owed += 1,
            Kind::Ans => {}
            Kind::Rpy | Kind::Err | Kind::Nul => self.end_request(),
        }
    }

    /// A whole reply was given to the oldest request that is owed one.
    fn end_reply(&mut self)
        requires { 0 < self.old.owed }
        ensures { self.new ≡ after_reply self.old }
    {
        self.owed -= 1;
        self.first_owed = self.first_owed.wrapping_add(1);
        self.answers = None;
    }

    /// The whole reply to the oldest own request that waits was taken.
    fn end_request(&mut self)
        requires { 0 < self.old.asked }
        ensures { self.new ≡ after_end self.old }
    {
        self.asked -= 1;
        self.first_asked = self.first_asked.wrapping_add(1);
    }

    /// The number of the oldest own request without a wholly taken reply.
    pub fn first_asked(&self) -> Option<u32>
        ensures value { result ≡ first_asked_now self.now }
        ensures calls { (calls : List Call) → Counts self.now calls
            → result ≡ first_asked_of calls }
    {
        if self.asked == 0 {
            return None;
        }
        Some((self.first_asked % MESSAGE_NUMBERS) as u32)
    }

    /// The position that the next own request has, modulo 2^64.
    pub fn next_asked(&self) -> u64
        ensures { result ≡ next_asked_now self.now }
    {
        self.first_asked.wrapping_add(self.asked as u64)
    }

    /// The position of the oldest received request, wholly taken, without a whole reply given,
    /// modulo 2^64.
    pub fn first_owed(&self) -> Option<u64>
        ensures value { result ≡ first_owed_now self.now }
        ensures some { IsSome result ↔ (0 < self.now.owed) }
        ensures calls { (calls : List Call) → Counts self.now calls
            → result ≡ first_owed_of calls }
    {
        if self.owed == 0 {
            return None;
        }
        Some(self.first_owed)
    }
}

/// The number of answers after one more, modulo 2^31.
fn next_answer(answers: Option<u32>) -> u32
    ensures { result ≡ next_answer answers }
{
    match answers {
        None => 1,
        Some(n) => n.wrapping_add(1) % MESSAGE_NUMBERS as u32,
    }
}
