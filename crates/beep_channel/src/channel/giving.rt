//! Messages that are given, and marks that are taken.
ghost use Rattle.std.specs.Prelude.{◌≡◌, ◌≢◌, ◌↔◌, ◌<◌, ◌≤◌, ◌==◌, [], true, not, length, take, None, Some, IsSome, IfSome, IfNone, IfOk, IfErr, OnOk, OnErr, IsOk, if◌then◌else◌};
ghost use Rattle.beep_octets.specs.Numbers.{numbers_32};
ghost use Rattle.beep_history.specs.declared.limits.TheConstants.{MAX_REQUESTS};
ghost use Rattle.beep_exchange.specs.Given.{MayTake, after_taken, next_asked_now, first_asked_now, first_owed_now};
ghost use Rattle.beep_outbox.specs.declared.outbox.TheConstants.{MAX_UNLIMITED};
ghost use Rattle.beep_outbox.specs.declared.give_error.GiveError.{GiveError as GiveErrorValue};
ghost use Rattle.beep_outbox.specs.Queue.{message_marks};
ghost use Rattle.beep_channel.specs.declared.ask_error.AskError.{AskError as AskErrorValue};
ghost use Rattle.beep_channel.specs.Held.{next_ask, next_reply, ansno_of, IsReply, ask_refusal, reply_refusal, SameRoomOut, HasRoomOut};
ghost use Rattle.beep_channel.specs.Stands.{StandsGiven, SameIn, TakesPart};

use super::Channel;
use crate::ask_error::AskError;
use beep_exchange::Exchange;
use beep_frame::{Kind, Tag};
use beep_history::MAX_REQUESTS;
use beep_inbox::Part;
use beep_octets::NoMemory;
use beep_outbox::GiveError;

impl Channel {
    /// The own requests without a wholly taken reply.
    pub fn asked(&self) -> u32
        ensures { result ≡ self.now.held.life.given.asked }
    {
        self.exchange.asked()
    }

    /// The number of the oldest of these.
    pub fn first_asked(&self) -> Option<u32>
        ensures { result ≡ first_asked_now self.now.held.life.given }
    {
        self.exchange.first_asked()
    }

    /// The position, modulo 2^64, of the oldest wholly taken request without a whole reply given.
    pub fn first_owed(&self) -> Option<u64>
        ensures value { result ≡ first_owed_now self.now.held.life.given }
        ensures some { IsSome result ↔ (0 < self.now.held.life.given.owed) }
    {
        self.exchange.first_owed()
    }

    /// How many answers were given to it, modulo 2^31. None where none was given to it, or nothing
    /// is owed.
    pub fn begun_answers(&self) -> Option<u32>
        ensures { result ≡ self.now.held.life.given.answers }
    {
        self.exchange.begun_answers()
    }

    /// Makes room for so many more messages, of at most so many octets together, so that giving
    /// them takes no memory.
    pub fn reserve(&mut self, octets: usize, messages: usize) -> Result<(), NoMemory>
        ensures ok { OnOk result ((octets ≤ self.new.octets) × (messages ≤ self.new.messages)) }
        ensures succeeds { octets ≤ self.old.octets → messages ≤ self.old.messages
            → IsOk result }
        ensures kept { self.new.held ≡ self.old.held }
        ensures room { HasRoomOut self.old self.new 0 0 }
        ensures runs { self.new.runs ≡ self.old.runs }
    {
        self.outbox.reserve(octets, messages)
    }

    /// Gives a request, and answers its position modulo 2^64. The refusals are tried in the order
    /// TooManyAsked, Full, NoMemory.
    pub fn give_ask(&mut self, octets: &[u8]) -> Result<u64, AskError>
        requires fits { self.old.held.number ≡ 0 → length octets.now ≤ MAX_UNLIMITED }
        ensures ok { OnOk result (StandsGiven self.old.held self.new.held
            (message_marks (next_ask self.old.held octets.now))) }
        ensures value { IfOk result (λ position.
            position ≡ next_asked_now self.old.held.life.given) }

        ensures accepted { OnOk result
            (ask_refusal self.old.held (length octets.now) ≡ None) }
        ensures refused { IfErr result (λ error. error ≢ AskErrorValue.NoMemory
            → ask_refusal self.old.held (length octets.now) ≡ Some error) }
        ensures err { OnErr result (self.new.held ≡ self.old.held) }

        ensures same { SameIn self.old.held self.new.held }
        ensures under { self.new.held.life.received.under_way
            ≡ self.old.held.life.received.under_way }
        ensures succeeds { length octets.now ≤ self.old.octets → 0 < self.old.messages
            → ask_refusal self.old.held (length octets.now) ≡ None → IsOk result }
        ensures used { OnOk result (HasRoomOut self.old self.new (length octets.now) 1) }
        ensures room { OnErr result (HasRoomOut self.old self.new 0 0) }
        ensures runs { self.new.runs ≡ self.old.runs }
    {
        if self.exchange.asked() >= MAX_REQUESTS {
            return Err(AskError::TooManyAsked);
        }
        let request = self.exchange.next_asked();
        let tag = Tag {
            kind: Kind::Msg,
            request,
            ansno: 0,
        };
        match self.outbox.give(tag, octets) {
            Ok(()) => {}
            Err(error) => return Err(AskError::of(error)),
        }
        self.exchange.note_given(Kind::Msg);
        Ok(request)
    }

    /// Gives a message of the reply to the oldest owed request: a RPY or an ERR, one of many ANS,
    /// or the NUL that ends them.
    #[inline(always)]
    pub fn give_reply(&mut self, kind: Kind, octets: &[u8]) -> Result<(), GiveError>
        requires may { IsReply self.old.held kind octets.now }
        requires fits { self.old.held.number ≡ 0 → length octets.now ≤ MAX_UNLIMITED }
        ensures ok { OnOk result (StandsGiven self.old.held self.new.held
            (message_marks (next_reply self.old.held kind octets.now))) }

        ensures accepted { OnOk result
            (reply_refusal self.old.held (length octets.now) ≡ None) }
        ensures refused { IfErr result (λ error. error ≢ GiveErrorValue.NoMemory
            → reply_refusal self.old.held (length octets.now) ≡ Some error) }
        ensures err { OnErr result (self.new.held ≡ self.old.held) }

        ensures same { SameIn self.old.held self.new.held }
        ensures under { self.new.held.life.received.under_way
            ≡ self.old.held.life.received.under_way }
        ensures succeeds { length octets.now ≤ self.old.octets → 0 < self.old.messages
            → reply_refusal self.old.held (length octets.now) ≡ None → IsOk result }
        ensures used { OnOk result (HasRoomOut self.old self.new (length octets.now) 1) }
        ensures room { OnErr result (HasRoomOut self.old self.new 0 0) }
        ensures runs { self.new.runs ≡ self.old.runs }
    {
        let Some(request) = self.exchange.first_owed() else {
            unreachable!()
        };
        let tag = Tag {
            kind,
            request,
            ansno: self.next_ansno(kind),
        };
        self.outbox.give(tag, octets)?;
        self.exchange.note_given(kind);
        Ok(())
    }

    /// The number of the next answer, and 0 for what is no ANS.
    fn next_ansno(&self, kind: Kind) -> u32
        ensures { result ≡ ansno_of self.now.held kind }
    {
        if !kind.is_ans() {
            return 0;
        }
        match self.exchange.begun_answers() {
            None => 0,
            Some(answers) => answers,
        }
    }

    /// Takes the first octets of the first untaken run, as many as `buf` holds, and its end where
    /// that follows. It takes no memory.
    pub fn take(&mut self, buf: &mut [u8]) -> Option<Part>
        requires some { 0 < length buf.old }
        requires fits { length buf.old < numbers_32 }
        ensures some { IfSome result (λ part.
            TakesPart part self.old.held self.new.held buf.old buf.new) }
        ensures none { IfNone result (self.old.held.inbox ≡ []) }
        ensures kept { IfNone result (self.new ≡ self.old) }
        ensures same { IfNone result (buf.new ≡ buf.old) }
        ensures under { self.new.held.life.received.under_way
            ≡ self.old.held.life.received.under_way }
        ensures room { (self.old.runs ≤ self.new.runs) × SameRoomOut self.old self.new }
    {
        let Some(part) = self.inbox.take(buf) else {
            return None
        };
        self.receives.taken(part.len);
        note_end(&mut self.exchange, part);
        Some(part)
    }

    /// Whether a mark of the life is untaken.
    pub fn has_untaken(&self) -> bool
        ensures { result ≡ not (length self.now.held.inbox == 0) }
    {
        !self.inbox.is_empty()
    }
}

/// Notes the end of a message, where the part has it.
fn note_end(exchange: &mut Exchange, part: Part)
    requires { part.ended ≡ true → MayTake exchange.old.given part.tag }
    ensures given { exchange.new.given ≡ (if part.ended
        then after_taken exchange.old.given part.tag.kind else exchange.old.given) }
    ensures received { exchange.new.received ≡ exchange.old.received }
    ensures sent { exchange.new.sent ≡ exchange.old.sent }
{
    if part.ended {
        exchange.note_taken_end(part.tag);
    }
}
