//! What is kept of one life of a channel: its requests and replies, and the octets of both
//! directions.
ghost use Rattle.std.specs.Prelude.{◌≡◌, ◌∷◌, ◌+◌, ◌%◌, ◌<◌, ◌==◌, ℕ, [], List, length, Some, None, IfOk, true, false, max, if◌then◌else◌, is_some};
ghost use Rattle.beep_octets.specs.Numbers.{numbers_64};
ghost use Rattle.beep_history.specs.Journal.{Item, began, passed, told, other, opening};
ghost use Rattle.beep_history.specs.Marks.{passed_octets};
ghost use Rattle.beep_history.specs.Broken.{first_of, octet_rules, exchange_rule, broken_rule, breaks_long, is_limit, KeepsShape};
ghost use Rattle.beep_history.specs.Windows.{window_edge, is_bad_ack};
ghost use Rattle.beep_seq.specs.Wire.{wire_number};
ghost use Rattle.beep_judge.specs.Kept.{under, judged_of, unacked_of, is_bad_seq};
ghost use Rattle.beep_judge.specs.Lived.{IsLife};

use crate::flow::Flow;
use beep_exchange::Exchange;
use beep_frame::{Head, Rule, Seq};
use beep_history::Side;
use beep_octets::NoMemory;
use beep_seq::INITIAL_WINDOW;
use std::alloc::Global;

/// One life. `room` is what the peer may still send by the greatest edge advertised to it, `window`
/// that of the last SEQ that
/// was read, and no two lives of a session have the same `stamp`.
#[derive(Drop)]
pub(crate) struct Life {
    pub(crate) exchange: Exchange,
    pub(crate) read: Flow,
    pub(crate) room: u32,
    pub(crate) written: Flow,
    pub(crate) window: u32,
    pub(crate) stamp: u64,
}

impl Life {
    /// A life in which nothing has happened, or channel zero's, `zero`, whose implied requests have
    /// passed.
    pub(crate) fn new(alloc: Global, zero: bool, stamp: u64) -> Result<Life, NoMemory>
        ensures stands { IfOk result (λ life. IsLife life (if zero then opening else [])) }
        ensures received { IfOk result (λ life. under Side.Received life ≡ None) }
        ensures sent { IfOk result (λ life. under Side.Sent life ≡ None) }
        ensures stamp { IfOk result (λ life. life.stamp ≡ stamp) }
    {
        let exchange = Exchange::new(alloc, zero)?;
        Ok(Life {
            exchange,
            read: Flow::new(),
            room: INITIAL_WINDOW,
            written: Flow::new(),
            window: INITIAL_WINDOW,
            stamp,
        })
    }

    /// The first rule of one life that a header breaks.
    pub(crate) fn judge(&self, side: Side, head: &Head) -> Option<Rule>
        ensures stands { (past : List Item) → IsLife self.now past
            → result ≡ broken_rule side past head.now }
        ensures none { result ≡ None → judged_of side self.now head.now ≡ None }
    {
        let rule = self.exchange_rule(side, head);
        match rule {
            Some(rule) => if is_limit(rule) {
                or_else(self.octet_rule(side, head), rule)
            } else {
                Some(rule)
            },
            None => self.octet_rule(side, head),
        }
    }

    /// The first rule on messages, requests, replies and limits that a header breaks.
    fn exchange_rule(&self, side: Side, head: &Head) -> Option<Rule>
        ensures value { result ≡ judged_of side self.now head.now }
        ensures stands { (past : List Item) → IsLife self.now past
            → result ≡ exchange_rule side past head.now }
    {
        match side {
            Side::Received => self.exchange.judge_in(head),
            Side::Sent => self.exchange.judge_out(head),
        }
    }

    /// The first rule on octets that a header breaks.
    fn octet_rule(&self, side: Side, head: &Head) -> Option<Rule>
        ensures { (past : List Item) → IsLife self.now past → KeepsShape side past head.now
            → result ≡ first_of (octet_rules (window_edge side past) side past head.now) }
    {
        if !self.is_next(side, head.seqno) {
            return Some(Rule::Sequence);
        }
        if self.is_long(side, head) {
            return Some(Rule::Long);
        }
        if head.size as u64 > self.left(side) {
            return Some(Rule::Window);
        }
        None
    }

    /// Whether this is the number of the next octet of a side.
    fn is_next(&self, side: Side, seqno: u32) -> bool
        ensures { (past : List Item) → IsLife self.now past
            → result ≡ (seqno == wire_number (passed_octets side past)) }
    {
        match side {
            Side::Received => self.read.is_next(seqno),
            Side::Sent => self.written.is_next(seqno),
        }
    }

    /// Whether a header makes a message too long.
    fn is_long(&self, side: Side, head: &Head) -> bool
        ensures { (past : List Item) → IsLife self.now past → KeepsShape side past head.now
            → result ≡ breaks_long side past head.now }
    {
        match side {
            Side::Received => self.exchange.is_long_in(head),
            Side::Sent => self.exchange.is_long_out(head),
        }
    }

    /// How many octets a side may carry, up to the edge of its window.
    fn left(&self, side: Side) -> u64
        ensures { (past : List Item) → IsLife self.now past
            → passed_octets side past + result ≡ window_edge side past }
    {
        match side {
            Side::Received => self.room as u64,
            Side::Sent => (self.window as u64).saturating_sub(self.written.unacked),
        }
    }

    /// Notes a header.
    pub(crate) fn begin(&mut self, side: Side, head: &Head)
        requires judged { judged_of side self.old head.now ≡ None }
        requires whole { under side self.old ≡ None }
        ensures stands { (past : List Item) → IsLife self.old past
            → broken_rule side past head.now ≡ None
            → IsLife self.new (began side head.now ∷ past) }
        ensures begun { under side self.new ≡ Some head.now }
        ensures others { under (other side) self.new ≡ under (other side) self.old }
        ensures stamp { self.new.stamp ≡ self.old.stamp }
    {
        match side {
            Side::Received => self.exchange.note_in(head),
            Side::Sent => self.exchange.note_out(head),
        }
    }

    /// Whether the counts can take the octets of a frame.
    pub(crate) fn has_room(&self, side: Side, head: &Head) -> bool
        ensures { result ≡ true → unacked_of side self.now + head.now.size < numbers_64 }
    {
        match side {
            Side::Received => self.read.has_room(head.size),
            Side::Sent => self.written.has_room(head.size),
        }
    }

    /// Notes that the frame under way has passed.
    pub(crate) fn pass(&mut self, side: Side, head: &Head)
        requires begun { under side self.old ≡ Some head.now }
        requires room { unacked_of side self.old + head.now.size < numbers_64 }
        ensures stands { (past : List Item) (payload : List ℕ) → IsLife self.old past
            → length payload ≡ head.now.size
            → IsLife self.new (passed side head.now payload ∷ past) }
        ensures whole { under side self.new ≡ None }
        ensures others { under (other side) self.new ≡ under (other side) self.old }
        ensures stamp { self.new.stamp ≡ self.old.stamp }
    {
        match side {
            Side::Received => self.pass_in(head),
            Side::Sent => self.pass_out(head),
        }
    }

    fn pass_in(&mut self, head: &Head)
        requires begun { self.old.exchange.received.under_way ≡ Some head.now }
        requires room { self.old.read.unacked + head.now.size < numbers_64 }
        ensures stands { (past : List Item) (payload : List ℕ) → IsLife self.old past
            → length payload ≡ head.now.size
            → IsLife self.new (passed Side.Received head.now payload ∷ past) }
        ensures whole { self.new.exchange.received.under_way ≡ None }
        ensures sent { self.new.exchange.sent.under_way ≡ self.old.exchange.sent.under_way }
        ensures stamp { self.new.stamp ≡ self.old.stamp }
    {
        self.exchange.note_whole();
        self.read.pass(head.size);
        // Its header found that much room, and room only grows before it has passed.
        self.room = self.room.saturating_sub(head.size);
    }

    fn pass_out(&mut self, head: &Head)
        requires begun { self.old.exchange.sent.under_way ≡ Some head.now }
        requires room { self.old.written.unacked + head.now.size < numbers_64 }
        ensures stands { (past : List Item) (payload : List ℕ) → IsLife self.old past
            → length payload ≡ head.now.size
            → IsLife self.new (passed Side.Sent head.now payload ∷ past) }
        ensures whole { self.new.exchange.sent.under_way ≡ None }
        ensures received { self.new.exchange.received.under_way
            ≡ self.old.exchange.received.under_way }
        ensures stamp { self.new.stamp ≡ self.old.stamp }
    {
        self.exchange.note_sent();
        self.written.pass(head.size);
    }

    /// Whether a SEQ acknowledges octets that haven't passed, or fewer than before.
    pub(crate) fn is_bad_ack(&self, side: Side, seq: &Seq) -> bool
        ensures value { result ≡ is_bad_seq side self.now seq.now }
        ensures stands { (past : List Item) → IsLife self.now past
            → result ≡ is_bad_ack side past seq.now }
    {
        match side {
            Side::Received => self.written.is_bad_ack(seq.ackno),
            Side::Sent => self.read.is_bad_ack(seq.ackno),
        }
    }

    /// Obeys a SEQ.
    pub(crate) fn obey(&mut self, side: Side, seq: &Seq)
        requires good { is_bad_seq side self.old seq.now ≡ false }
        ensures stands { (past : List Item) → IsLife self.old past
            → IsLife self.new (told side seq.now ∷ past) }
        ensures received { under Side.Received self.new ≡ under Side.Received self.old }
        ensures sent { under Side.Sent self.new ≡ under Side.Sent self.old }
        ensures stamp { self.new.stamp ≡ self.old.stamp }
    {
        match side {
            Side::Received => {
                self.written.ack(seq.ackno);
                self.window = seq.window;
            }
            Side::Sent => {
                self.read.ack(seq.ackno);
                self.room = greater(self.room, seq.window);
            }
        }
    }
}

/// The greater of two.
fn greater(a: u32, b: u32) -> u32
    ensures { result ≡ max a b }
{
    if a < b { b } else { a }
}

/// The first answer, and else this one.
fn or_else(first: Option<Rule>, second: Rule) -> Option<Rule>
    ensures { result ≡ (if is_some first then first else Some second) }
{
    match first {
        Some(rule) => Some(rule),
        None => Some(second),
    }
}

/// Whether a rule is one of those on limits.
fn is_limit(rule: Rule) -> bool
    ensures { result ≡ is_limit rule }
{
    matches!(
        rule,
        Rule::EmptyAnswer | Rule::TooManyRequests | Rule::TooManyAnswers
    )
}
