//! Following a stream from frame to frame, however it is cut into reads: where the next octet
//! stands, and how many came (RFC 3080, section 2.2.1; RFC 3081, section 3.1). No octet is kept.
//!
//! ```text
//!          header, size above 0        last octet of the payload
//!   Line ------------------------> Payload ------------------> Trailer
//!   ^ |  header, size 0                                            ^ |
//!   | +------------------------------------------------------------+ |
//!   +----------------- whole SEQ, or last octet of the trailer ------+
//!   from each place: an octet that can't stand there, or a size above the limit --> Broken
//! ```
ghost use Rattle.std.specs.Prelude.{◌≡◌, ◌⊎◌, ℕ, ◌<◌, length, IsTrue, ◌≤◌};
ghost use Rattle.beep_frame.specs.declared.rule.Rule.{Rule as rule_type};

use crate::finder::{Found, Place, find};
use crate::head::Head;
use crate::line::Line;
use crate::rule::Rule;
use crate::step::Step;
use crate::whole::whole_payload;
use std::marker::Model;

/// Finds frames in a stream that comes in pieces. It keeps no octet of them.
#[derive(Debug, Drop)]
pub(crate) struct Tracker {
    /// The largest payload that is taken.
    max: u32,
    place: Place,
    line: Line,
    /// The octets used since the last whole frame.
    left: u64,
    /// All octets used, modulo 2^64.
    used: u64,
    /// The rule that the stream broke, and the number of the octet.
    broken: Option<(Rule, u64)>,
}

impl Model for Tracker {
    ghost use Rattle.std.specs.Prelude.{◌≡◌, true};
    ghost use Rattle.beep_frame.specs.Finding.{is_place};
    ghost use Rattle.beep_frame.specs.Tracks.{TrackerState};

    ghost Value = { TrackerState };

    ghost view = { λ t. record {
      max = t.max;
      place = t.place;
      line = t.line;
      left = t.left;
      used = t.used;
      broken = t.broken;
    } };

    ghost invariant = { λ t. is_place t.place ≡ true };
}

impl Tracker {
    ghost use Rattle.std.specs.Prelude.{Some, None, IsSome, IfSome};
    ghost use Rattle.beep_frame.specs.Modulo.{modulo_2_64};
    ghost use Rattle.beep_frame.specs.Fed.{Fed, nothing_fed};
    ghost use Rattle.beep_frame.specs.Tracks.{Tracks, HasStopped, wanted_at};
    ghost use Rattle.beep_frame.specs.Decodes.{Answers, is_broken};
    ghost use Rattle.beep_frame.specs.Answering.{step_of, after_found, renewed, broken_by, last_number, after_header, TakesWhole};

    /// A tracker of a stream of which no octet has come. Payloads have at most `max` octets.
    pub(crate) fn new(max: u32) -> Tracker
        ensures stands { Tracks result nothing_fed }
        ensures max { result.max ≡ max }
    {
        Tracker {
            max,
            place: Place::Line,
            line: Line::start(),
            left: 0,
            used: 0,
            broken: None,
        }
    }

    /// Takes octets up to the next step, and answers how many.
    pub(crate) fn feed(&mut self, bytes: &[u8]) -> (usize, Step)
        ensures within { result.0 ≤ length bytes.now }
        ensures decodes { (fed : Fed) → Tracks self.old fed
            → Answers result.1 self.new fed bytes.now result.0 }
        ensures broken { (rule : rule_type) (place left : ℕ) → HasStopped self.old rule place left
            → (result.0 ≡ 0) × (result.1 ≡ Step.Broken rule place) × (self.new ≡ self.old) }
        ensures progress { 0 < length bytes.now → (0 < result.0) ⊎ IsTrue (is_broken result.1) }
        ensures kept { self.new.max ≡ self.old.max }
    {
        if let Some((rule, place)) = self.broken {
            return (0, Step::Broken(rule, place));
        }
        let (count, found) = find(&mut self.place, &mut self.line, bytes);
        self.left = self.left.wrapping_add(count as u64);
        self.used = self.used.wrapping_add(count as u64);
        (count, self.answer(found))
    }

    /// Takes a payload of this size and its trailer, where both stand whole at the front and no
    /// octet of the payload came before: answers how many octets those are, and the payload.
    pub(crate) fn take_whole<'b>(&mut self, size: u32, bytes: &'b [u8]) -> Option<(usize, &'b [u8])>
        ensures some { IfSome result
            (λ it. TakesWhole self.old self.new size bytes.now it.0 it.1.now) }
        ensures none { result ≡ None → self.new ≡ self.old }
        ensures broken { IsSome self.old.broken → result ≡ None }
    {
        if self.broken.is_some() || self.place != Place::Payload(size) {
            return None;
        }
        let (payload, rest) = whole_payload(size, bytes)?;
        let count = bytes.len() - rest.len();
        self.used = self.used.wrapping_add(count as u64);
        self.renew();
        Some((count, payload))
    }

    fn answer(&mut self, found: Found) -> Step
        ensures step { result ≡ step_of self.old found }
        ensures after { self.new ≡ after_found self.old found }
    {
        match found {
            Found::More => Step::More,
            Found::Head(head) => self.answer_head(head),
            Found::Frame => {
                self.renew();
                Step::Frame
            }
            Found::Seq(seq) => {
                self.renew();
                Step::Seq(seq)
            }
            Found::BadLine => self.answer_broken(Rule::Header),
            Found::BadTrailer => self.answer_broken(Rule::Trailer),
        }
    }

    fn answer_head(&mut self, head: Head) -> Step
        ensures step { result ≡ step_of self.old (Found.Head head) }
        ensures after { self.new ≡ after_found self.old (Found.Head head) }
    {
        if head.size > self.max {
            return self.answer_broken(Rule::Size);
        }
        self.place = if head.size == 0 {
            Place::Trailer(0)
        } else {
            Place::Payload(head.size)
        };
        Step::Head(head)
    }

    fn renew(&mut self)
        ensures { self.new ≡ renewed self.old }
    {
        self.place = Place::Line;
        self.line = Line::start();
        self.left = 0;
    }

    fn answer_broken(&mut self, rule: Rule) -> Step
        ensures step { result ≡ Step.Broken rule (last_number self.old.used) }
        ensures after { self.new ≡ broken_by self.old rule }
    {
        let place = self.used.wrapping_sub(1);
        self.broken = Some((rule, place));
        Step::Broken(rule, place)
    }

    /// How many octets of the payload under way are still to come.
    pub(crate) fn wanted(&self) -> u32
        ensures { result ≡ wanted_at self.now.place }
    {
        match self.place {
            Place::Payload(left) => left,
            Place::Line | Place::Trailer(_) => 0,
        }
    }

    /// The octets used since the last whole data frame or SEQ, modulo 2^64.
    pub(crate) fn left(&self) -> u64
        ensures stands { (fed : Fed) → Tracks self.now fed
            → result ≡ modulo_2_64 (length fed.rest) }
        ensures broken { (rule : rule_type) (place left : ℕ) → HasStopped self.now rule place left
            → result ≡ left }
    {
        self.left
    }
}
