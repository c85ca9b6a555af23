//! The requests and replies of one life: what each call notes, and the rules that the next header
//! breaks.
//!
//! A frame is noted twice, as its header ends and as it has passed. Two halves never mix: the rules
//! go by the frames that
//! were noted, and what is asked and owed by the messages that were given and the ends that were
//! taken.
ghost use Rattle.std.specs.Prelude.{◌≡◌, ◌↔◌, ℕ, ◌<◌, List, [], ◌∷◌, length, Some, None, IfOk, IsSome, if◌then◌else◌};
ghost use Rattle.beep_frame.specs.declared.head.Head.{Head as HeadValue};
ghost use Rattle.beep_frame.specs.declared.tag.Tag.{Tag as TagValue};
ghost use Rattle.beep_history.specs.declared.journal.Side.{Side};
ghost use Rattle.beep_frame.specs.Frame.{is_reply};
ghost use Rattle.beep_history.specs.Journal.{Item, began, passed, opening};
ghost use Rattle.beep_history.specs.Marks.{tag_of, modulo_2_64};
ghost use Rattle.beep_history.specs.Broken.{breaks_long as breaks_long_over, KeepsShape, exchange_rule};
ghost use Rattle.beep_exchange.specs.Kept.{begins, breaks_long, tag_under_way, oldest_number, judged};
ghost use Rattle.beep_exchange.specs.Exchange.{IsExchange};
ghost use Rattle.beep_exchange.specs.Given.{Call, gave, took, Counts, MayGive, MayTake, MayTakeEnd, new_given, after_given, after_taken, asked_of, first_asked_of, first_owed_of, begun_answers_of, opening_calls, first_asked_now, first_owed_now, next_asked_now};

use crate::given::Given;
use crate::way::Way;
use beep_frame::{Head, Kind, Rule, Tag};
use beep_octets::NoMemory;
use std::alloc::Global;
use std::marker::Model;

/// What one end keeps of the requests and replies of one life.
#[derive(Drop)]
pub struct Exchange {
    received: Way,
    sent: Way,
    given: Given,
}

impl Model for Exchange {
    ghost use Rattle.beep_exchange.specs.Exchange.{Life};

    ghost Value = { Life };

    ghost view = { λ e. record { received = e.received; sent = e.sent; given = e.given } };
}

impl Exchange {
    /// A life in which nothing has happened, or channel zero's, `zero`, whose implied requests have
    /// passed. It takes room
    /// for all that it will ever keep.
    pub fn new(alloc: Global, zero: bool) -> Result<Exchange, NoMemory>
        ensures stands { IfOk result (λ life. IsExchange life (if zero then opening else [])) }
        ensures calls { IfOk result (λ life.
            Counts life.given (if zero then opening_calls else [])) }
        ensures given { IfOk result (λ life. life.given ≡ new_given zero) }
        ensures received { IfOk result (λ life. life.received.under_way ≡ None) }
        ensures sent { IfOk result (λ life. life.sent.under_way ≡ None) }
    {
        let mut received = Way::new(alloc)?;
        let mut sent = Way::new(alloc)?;
        if zero {
            received.open();
            sent.open();
        }
        Ok(Exchange {
            received,
            sent,
            given: Given::new(zero),
        })
    }

    /// The first rule on requests and replies that a received header breaks.
    #[inline(always)]
    pub fn judge_in(&self, head: &Head) -> Option<Rule>
        ensures value { result ≡ judged self.now.received self.now.sent head.now }
        ensures stands { (past : List Item) → IsExchange self.now past
            → result ≡ exchange_rule Side.Received past head.now }
    {
        self.received.judge(&self.sent, head)
    }

    /// The first rule on requests and replies that a header of this end breaks.
    pub fn judge_out(&self, head: &Head) -> Option<Rule>
        ensures value { result ≡ judged self.now.sent self.now.received head.now }
        ensures stands { (past : List Item) → IsExchange self.now past
            → result ≡ exchange_rule Side.Sent past head.now }
    {
        self.sent.judge(&self.received, head)
    }

    /// Whether a received header makes a message of a channel above zero too long.
    pub fn is_long_in(&self, head: &Head) -> bool
        ensures value { result ≡ breaks_long self.now.received self.now.sent head.now }
        ensures stands { (past : List Item) → IsExchange self.now past
            → KeepsShape Side.Received past head.now
            → result ≡ breaks_long_over Side.Received past head.now }
    {
        self.received.breaks_long(&self.sent, head)
    }

    /// Whether a header of this end makes a message of a channel above zero too long.
    pub fn is_long_out(&self, head: &Head) -> bool
        ensures value { result ≡ breaks_long self.now.sent self.now.received head.now }
        ensures stands { (past : List Item) → IsExchange self.now past
            → KeepsShape Side.Sent past head.now
            → result ≡ breaks_long_over Side.Sent past head.now }
    {
        self.sent.breaks_long(&self.received, head)
    }

    /// The tag of the received frame under way, its position modulo 2^64.
    pub fn tag_in(&self) -> Option<Tag>
        ensures value { result ≡ tag_under_way self.now.received self.now.sent }
        ensures stands { (past : List Item) (head : HeadValue) → IsExchange self.now past
            → self.now.received.under_way ≡ Some head
            → result ≡ Some (modulo_2_64 (tag_of Side.Received past head)) }
    {
        self.received.tag(&self.sent)
    }

    /// The header of the received frame under way.
    pub fn receiving(&self) -> Option<Head>
        ensures { result ≡ self.now.received.under_way }
    {
        self.received.under_way()
    }

    /// The header of the frame of this end that was wholly written last, if any was.
    pub fn last_sent(&self) -> Option<Head>
        ensures { result ≡ self.now.sent.before }
    {
        self.sent.before()
    }

    /// The number of the oldest received request that waits for its reply, by the frames noted.
    pub fn oldest_number(&self) -> Option<u32>
        ensures { result ≡ oldest_number self.now.received }
    {
        self.received.oldest_number()
    }

    /// How many received requests wait for their reply, by the frames noted.
    pub fn received_waiting(&self) -> usize
        ensures { result ≡ self.now.received.waiting }
    {
        self.received.waiting()
    }

    /// How many own requests wait for their reply, by the frames noted.
    pub fn sent_waiting(&self) -> usize
        ensures { result ≡ self.now.sent.waiting }
    {
        self.sent.waiting()
    }

    /// Notes a received header.
    pub fn note_in(&mut self, head: &Head)
        requires judged { judged self.old.received self.old.sent head.now ≡ None }
        requires whole { self.old.received.under_way ≡ None }
        ensures stands { (past : List Item) → IsExchange self.old past
            → IsExchange self.new (began Side.Received head.now ∷ past) }
        ensures begun { self.new.received.under_way ≡ Some head.now }
        ensures sent { self.new.sent ≡ self.old.sent }
        ensures given { self.new.given ≡ self.old.given }
    {
        self.received.begin(head);
    }

    /// Notes that the received frame that was begun has arrived.
    #[inline(always)]
    pub fn note_whole(&mut self)
        requires begun { IsSome self.old.received.under_way }
        ensures stands { (past : List Item) (head : HeadValue) (payload : List ℕ)
            → IsExchange self.old past → self.old.received.under_way ≡ Some head
            → length payload ≡ head.size
            → IsExchange self.new (passed Side.Received head payload ∷ past) }
        ensures whole { self.new.received.under_way ≡ None }
        ensures sent { self.new.sent.under_way ≡ self.old.sent.under_way }
        ensures given { self.new.given ≡ self.old.given }
    {
        if let Some(head) = self.received.pass() {
            if head.kind.is_reply() {
                self.sent.reply(&head);
            }
        }
    }

    /// Notes a header that goes out.
    pub fn note_out(&mut self, head: &Head)
        requires judged { judged self.old.sent self.old.received head.now ≡ None }
        requires whole { self.old.sent.under_way ≡ None }
        ensures stands { (past : List Item) → IsExchange self.old past
            → IsExchange self.new (began Side.Sent head.now ∷ past) }
        ensures begun { self.new.sent.under_way ≡ Some head.now }
        ensures received { self.new.received ≡ self.old.received }
        ensures given { self.new.given ≡ self.old.given }
    {
        self.sent.begin(head);
    }

    /// Notes that the frame that goes out is wholly written.
    #[inline(always)]
    pub fn note_sent(&mut self)
        requires begun { IsSome self.old.sent.under_way }
        ensures stands { (past : List Item) (head : HeadValue) (payload : List ℕ)
            → IsExchange self.old past → self.old.sent.under_way ≡ Some head
            → length payload ≡ head.size
            → IsExchange self.new (passed Side.Sent head payload ∷ past) }
        ensures whole { self.new.sent.under_way ≡ None }
        ensures received { self.new.received.under_way ≡ self.old.received.under_way }
        ensures given { self.new.given ≡ self.old.given }
    {
        if let Some(head) = self.sent.pass() {
            if head.kind.is_reply() {
                self.received.reply(&head);
            }
        }
    }

    /// Notes that a message of this kind was given: a request, or what goes on or ends the reply to
    /// the oldest owed one.
    pub fn note_given(&mut self, kind: Kind)
        requires may { MayGive self.old.given kind }
        ensures value { self.new.given ≡ after_given self.old.given kind }
        ensures calls { (calls : List Call) → Counts self.old.given calls
            → Counts self.new.given (gave kind ∷ calls) }
        ensures received { self.new.received ≡ self.old.received }
        ensures sent { self.new.sent ≡ self.old.sent }
    {
        self.given.give(kind);
    }

    /// Notes that the end of the message of this tag was taken.
    pub fn note_taken_end(&mut self, tag: Tag)
        requires may { MayTake self.old.given tag }
        ensures value { self.new.given ≡ after_taken self.old.given tag.kind }
        ensures calls { (calls : List Call) (whole : TagValue) → Counts self.old.given calls
            → MayTakeEnd calls whole.kind whole.request → modulo_2_64 whole ≡ tag
            → Counts self.new.given (took whole ∷ calls) }
        ensures received { self.new.received ≡ self.old.received }
        ensures sent { self.new.sent ≡ self.old.sent }
    {
        self.given.take_end(tag);
    }

    /// The own requests without a wholly taken reply.
    pub fn asked(&self) -> u32
        ensures value { result ≡ self.now.given.asked }
        ensures calls { (calls : List Call) → Counts self.now.given calls
            → result ≡ length (asked_of calls) }
    {
        self.given.asked
    }

    /// The number of the oldest of these.
    pub fn first_asked(&self) -> Option<u32>
        ensures value { result ≡ first_asked_now self.now.given }
        ensures calls { (calls : List Call) → Counts self.now.given calls
            → result ≡ first_asked_of calls }
    {
        self.given.first_asked()
    }

    /// The position that the next own request has, modulo 2^64.
    pub fn next_asked(&self) -> u64
        ensures { result ≡ next_asked_now self.now.given }
    {
        self.given.next_asked()
    }

    /// The position of the oldest received request that was wholly taken and has no whole reply
    /// given.
    pub fn first_owed(&self) -> Option<u64>
        ensures value { result ≡ first_owed_now self.now.given }
        ensures some { IsSome result ↔ (0 < self.now.given.owed) }
        ensures calls { (calls : List Call) → Counts self.now.given calls
            → result ≡ first_owed_of calls }
    {
        self.given.first_owed()
    }

    /// The number of answers given to it, modulo 2^31. None where none was given to it, or nothing
    /// is owed.
    pub fn begun_answers(&self) -> Option<u32>
        ensures value { result ≡ self.now.given.answers }
        ensures calls { (calls : List Call) → Counts self.now.given calls
            → result ≡ begun_answers_of calls }
    {
        self.given.answers
    }
}
