//! A decoder that finds the frames of a stream and keeps the payload of one, however the stream is
//! cut into reads (RFC 3080, section 2.2.1; RFC 3081, section 3.1).
ghost use Rattle.std.specs.Prelude.{◌≡◌, ◌⊎◌, ℕ, ◌<◌, ◌≤◌, None, List, [], ◌∷◌, ◌++◌, length, true, IfOk, IfSome, IsTrue, take};
ghost use Rattle.beep_frame.specs.Frame.{Frame, framed};
ghost use Rattle.beep_frame.specs.declared.head.Head.{Head as header_type};
ghost use Rattle.beep_frame.specs.declared.rule.Rule.{Rule as rule_type};

use crate::head::Head;
use crate::kind::Kind;
use crate::line::Line;
use crate::step::Step;
use crate::tracker::Tracker;
use beep_octets::{NoMemory, Octets};
use std::alloc::Global;
use std::marker::Model;

/// A data frame whose payload lies elsewhere.
#[derive(Clone, Copy, Debug)]
pub struct FrameRef<'b> {
    /// What its header says.
    pub head: Head,
    /// Its payload, as many octets as its header says.
    pub payload: &'b [u8],
}

/// Finds frames in a stream that comes in pieces, and keeps the payload of the last that was fed.
#[derive(Debug, Drop)]
pub struct Decoder {
    tracker: Tracker,
    /// The header that was answered last, and before the first one some header.
    head: Head,
    /// The payload that came after that header, in room for the largest.
    payload: Octets,
    /// Whether the last step was a whole data frame, whose payload is kept.
    whole: bool,
}

impl Model for Decoder {
    ghost use Rattle.beep_frame.specs.Decoding.{DecoderState};

    ghost Value = { DecoderState };

    ghost view = { λ d. record {
      tracker = d.tracker;
      head = d.head;
      payload = d.payload;
      whole = d.whole;
    } };
}

impl Decoder {
    ghost use Rattle.beep_frame.specs.declared.step.Step.{Step as step_type};
    ghost use Rattle.beep_frame.specs.Modulo.{modulo_2_64};
    ghost use Rattle.beep_frame.specs.Fed.{Fed, fed_of, nothing_fed};
    ghost use Rattle.beep_frame.specs.Decoding.{WasFed, IsBroken};
    ghost use Rattle.beep_frame.specs.Decodes.{Decodes, PassesFrame, is_broken};
    ghost use Rattle.beep_frame.specs.Keeping.{Keeping};

    /// A decoder of a stream of which no octet has come, that takes payloads of at most `max`
    /// octets. It takes room for one of them, and no memory later.
    pub fn new(alloc: Global, max: u32) -> Result<Decoder, NoMemory>
        ensures stands { IfOk result (λ decoder. WasFed decoder nothing_fed) }
        ensures max { IfOk result (λ decoder. decoder.tracker.max ≡ max) }
    {
        let mut payload = Octets::new(alloc);
        payload.reserve(max as usize)?;
        let tracker = Tracker::new(max);
        let head = Line::start().head(Kind::Msg);
        Ok(Decoder {
            tracker,
            head,
            payload,
            whole: false,
        })
    }

    /// Takes octets up to the next step, and answers how many.
    pub fn feed(&mut self, bytes: &[u8]) -> (usize, Step)
        ensures within { result.0 ≤ length bytes.now }
        ensures decodes { (fed : Fed) → WasFed self.old fed
            → Decodes result.1 self.new fed bytes.now result.0 }
        ensures broken { (rule : rule_type) (place left : ℕ) → IsBroken self.old rule place left
            → (result.0 ≡ 0) × (result.1 ≡ Step.Broken rule place) × (self.new ≡ self.old) }
        ensures progress { 0 < length bytes.now → (0 < result.0) ⊎ IsTrue (is_broken result.1) }
        ensures frame { result.1 ≡ Step.Frame → self.new.whole ≡ true }
        ensures kept { self.new.tracker.max ≡ self.old.tracker.max }
    {
        let wanted = self.tracker.wanted() as usize;
        let (count, step) = self.tracker.feed(bytes);
        self.keep(step, &bytes[..count.min(wanted)]);
        (count, step)
    }

    /// Takes the rest of the data frame under way, where all of its payload and its trailer stand
    /// at the front of these octets: answers how many those are, and the payload, which isn't kept.
    pub fn take_whole<'b>(&mut self, bytes: &'b [u8]) -> Option<(usize, &'b [u8])>
        ensures within { IfSome result (λ it. it.0 ≤ length bytes.now) }
        ensures progress { IfSome result (λ it. 0 < it.0) }
        ensures frame { IfSome result (λ it. (fed : Fed) → WasFed self.old fed
            → PassesFrame it.1.now (WasFed self.new) fed (take it.0 bytes.now)) }
        ensures none { result ≡ None → self.new ≡ self.old }
        ensures broken { (rule : rule_type) (place left : ℕ) → IsBroken self.old rule place left
            → result ≡ None }
        ensures kept { self.new.tracker.max ≡ self.old.tracker.max }
    {
        let (count, payload) = self.tracker.take_whole(self.head.size, bytes)?;
        self.whole = false;
        Some((count, payload))
    }

    /// Keeps what a step brought: a header, or octets of a payload.
    fn keep(&mut self, step: Step, octets: &[u8])
        ensures { Keeping step self.old self.new octets.now }
    {
        self.whole = matches!(step, Step::Frame);
        match step {
            Step::Head(head) => {
                self.head = head;
                self.payload.clear();
            }
            Step::More | Step::Frame => self.payload.extend_within(octets),
            Step::Seq(_) | Step::Broken(_, _) => {}
        }
    }

    /// The data frame that was answered last.
    pub fn frame(&self) -> FrameRef<'_>
        requires whole { self.now.whole ≡ true }
        ensures { (octets : List ℕ) (before : List Frame) (head : header_type) (payload : List ℕ)
            → WasFed self.now (fed_of octets (before ++ framed head payload ∷ []) [] None)
            → (result.head ≡ head) × (result.payload.now ≡ payload) }
    {
        FrameRef {
            head: self.head,
            payload: self.payload.as_slice(),
        }
    }

    /// The octets used since the last whole data frame or SEQ, modulo 2^64.
    pub fn left(&self) -> u64
        ensures stands { (fed : Fed) → WasFed self.now fed
            → result ≡ modulo_2_64 (length fed.rest) }
        ensures broken { (rule : rule_type) (place left : ℕ) → IsBroken self.now rule place left
            → result ≡ left }
    {
        self.tracker.left()
    }
}
