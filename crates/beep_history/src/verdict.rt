//! The rules of one life as plain tests on a history, in the order in which they are answered.
//!
//! No session runs this: it is the definitions in code, slow, so that they can be tried on
//! examples.
ghost use Rattle.std.specs.Prelude.{◌≡◌, ◌+◌, ◌*◌, ◌^◌, ◌≤◌, length, option_map};
ghost use Rattle.beep_history.specs.Journal.{history_of, other};
ghost use Rattle.beep_history.specs.Marks.{named, message_octets, reply_so_far, unfinished, begins_answer};
ghost use Rattle.beep_history.specs.Broken.{breaks_nul_shape, breaks_not_continued, breaks_kind_changed, goes_on_request, changes_message, changes_reply, breaks_number_in_use, breaks_never_asked, breaks_early_reply, breaks_already_answered, breaks_out_of_turn, breaks_nul_not_after_ans, breaks_nul_too_soon, breaks_sequence, breaks_long, breaks_window, breaks_empty_answer, breaks_too_many_requests, breaks_too_many_answers, first_of, shape_rules, octet_rules, limit_rules, exchange_rule, broken_rule, broken_within, is_limit, with_octets};

use crate::history::{
    has_answer, has_number, has_other_kind, has_passed_whole, has_unfinished, has_waiting_before,
    is_going_on, is_new_request, is_recent, last_frame, last_of_reply, latest_request,
    octets_begun, octets_of_answer, unfinished_count, waiting_count,
};
use crate::journal::{JournalItem, Side};
use crate::limits::{MAX_ANSWERS, MAX_MESSAGE, MAX_REQUESTS};
use crate::windows::{edge_of_window, octets_passed};
use beep_frame::{Head, Rule};
use beep_seq::wire_number;

/// The first rule of one life that a header of this side breaks.
#[tactic(auto, unfolding(crate::specs::Broken::broken_rule))]
pub fn broken_rule(side: Side, past: &[JournalItem], head: &Head) -> Option<Rule>
    ensures { result ≡ broken_rule side (history_of past.now) head.now }
{
    broken_within(edge_of_window(side, past), side, past, head)
}

/// The first rule of one life that a header of this side breaks, at this edge of the window.
pub fn broken_within(edge: u128, side: Side, past: &[JournalItem], head: &Head) -> Option<Rule>
    ensures { result ≡ broken_within edge side (history_of past.now) head.now }
{
    match shape_rule(side, past, head) {
        Some(rule) => Some(rule),
        None => match octet_rule(edge, side, past, head) {
            Some(rule) => Some(rule),
            None => limit_rule(side, past, head),
        },
    }
}

/// The first rule on messages, requests, replies and limits that a header of this side breaks.
pub fn exchange_rule(side: Side, past: &[JournalItem], head: &Head) -> Option<Rule>
    ensures { result ≡ exchange_rule side (history_of past.now) head.now }
{
    match shape_rule(side, past, head) {
        Some(rule) => Some(rule),
        None => limit_rule(side, past, head),
    }
}

/// The first broken rule, of the one on messages, requests, replies and limits and the one on
/// octets: that on octets
/// stands before those on limits.
pub fn with_octets(exchange: Option<Rule>, octets: Option<Rule>) -> Option<Rule>
    ensures { result ≡ with_octets exchange octets }
{
    match exchange {
        None => octets,
        Some(rule) => match octets {
            None => Some(rule),
            Some(octets) => Some(if is_limit(rule) { octets } else { rule }),
        },
    }
}

/// Whether a rule is one of those on limits.
pub fn is_limit(rule: Rule) -> bool
    ensures { result ≡ is_limit rule }
{
    match rule {
        Rule::EmptyAnswer | Rule::TooManyRequests | Rule::TooManyAnswers => true,
        Rule::Header
        | Rule::Trailer
        | Rule::Size
        | Rule::NoGreeting
        | Rule::NoSuchChannel
        | Rule::NotAlone
        | Rule::NulShape
        | Rule::NotContinued
        | Rule::KindChanged
        | Rule::NumberInUse
        | Rule::NeverAsked
        | Rule::EarlyReply
        | Rule::AlreadyAnswered
        | Rule::OutOfTurn
        | Rule::NulNotAfterAns
        | Rule::NulTooSoon
        | Rule::Sequence
        | Rule::Long
        | Rule::Window
        | Rule::BadAck
        | Rule::ZeroReply => false,
    }
}

fn shape_rule(side: Side, past: &[JournalItem], head: &Head) -> Option<Rule>
    ensures { result ≡ first_of (shape_rules side (history_of past.now) head.now) }
{
    if breaks_nul_shape(head) {
        Some(Rule::NulShape)
    } else if breaks_not_continued(side, past, head) {
        Some(Rule::NotContinued)
    } else if breaks_kind_changed(side, past, head) {
        Some(Rule::KindChanged)
    } else if breaks_number_in_use(side, past, head) {
        Some(Rule::NumberInUse)
    } else if breaks_never_asked(side, past, head) {
        Some(Rule::NeverAsked)
    } else if breaks_early_reply(side, past, head) {
        Some(Rule::EarlyReply)
    } else if breaks_already_answered(side, past, head) {
        Some(Rule::AlreadyAnswered)
    } else if breaks_out_of_turn(side, past, head) {
        Some(Rule::OutOfTurn)
    } else if breaks_nul_not_after_ans(side, past, head) {
        Some(Rule::NulNotAfterAns)
    } else if breaks_nul_too_soon(side, past, head) {
        Some(Rule::NulTooSoon)
    } else {
        None
    }
}

fn octet_rule(edge: u128, side: Side, past: &[JournalItem], head: &Head) -> Option<Rule>
    ensures { result ≡ first_of (octet_rules edge side (history_of past.now) head.now) }
{
    if breaks_sequence(side, past, head) {
        Some(Rule::Sequence)
    } else if breaks_long(side, past, head) {
        Some(Rule::Long)
    } else if breaks_window(edge, side, past, head) {
        Some(Rule::Window)
    } else {
        None
    }
}

fn limit_rule(side: Side, past: &[JournalItem], head: &Head) -> Option<Rule>
    ensures { result ≡ first_of (limit_rules side (history_of past.now) head.now) }
{
    if breaks_empty_answer(side, past, head) {
        Some(Rule::EmptyAnswer)
    } else if breaks_too_many_requests(side, past, head) {
        Some(Rule::TooManyRequests)
    } else if breaks_too_many_answers(side, past, head) {
        Some(Rule::TooManyAnswers)
    } else {
        None
    }
}

fn breaks_nul_shape(head: &Head) -> bool
    ensures { result ≡ breaks_nul_shape head.now }
{
    head.kind.is_nul() && (head.more || head.size > 0)
}

fn breaks_not_continued(side: Side, past: &[JournalItem], head: &Head) -> bool
    ensures { result ≡ breaks_not_continued side (history_of past.now) head.now }
{
    match last_frame(side, past) {
        None => false,
        Some(before) => before.more && before.msgno != head.msgno,
    }
}

fn breaks_kind_changed(side: Side, past: &[JournalItem], head: &Head) -> bool
    ensures { result ≡ breaks_kind_changed side (history_of past.now) head.now }
{
    if head.kind.is_nul() {
        goes_on_request(side, past, head)
    } else {
        changes_message(side, past, head)
            || (head.kind.is_reply() && changes_reply(side, past, head))
    }
}

fn goes_on_request(side: Side, past: &[JournalItem], head: &Head) -> bool
    ensures { result ≡ goes_on_request side (history_of past.now) head.now }
{
    match last_frame(side, past) {
        None => false,
        Some(before) => is_going_on(head, &before) && before.kind.is_msg(),
    }
}

fn changes_message(side: Side, past: &[JournalItem], head: &Head) -> bool
    ensures { result ≡ changes_message side (history_of past.now) head.now }
{
    match last_frame(side, past) {
        None => false,
        Some(before) => is_going_on(head, &before) && !before.kind.is_same(head.kind),
    }
}

fn changes_reply(side: Side, past: &[JournalItem], head: &Head) -> bool
    ensures { result ≡ changes_reply side (history_of past.now) head.now }
{
    match named_request(side, past, head) {
        None => false,
        Some(position) => {
            !has_answer(side.other(), position, past)
                && has_other_kind(side.other(), position, head.kind, past)
        }
    }
}

/// The place of the request that a reply of this side names.
fn named_request(side: Side, past: &[JournalItem], head: &Head) -> Option<usize>
    ensures { result ≡ option_map (λ request. request.position)
        (named side (history_of past.now) head.now) }
{
    latest_request(side.other(), head.msgno, past)
}

fn breaks_number_in_use(side: Side, past: &[JournalItem], head: &Head) -> bool
    ensures { result ≡ breaks_number_in_use side (history_of past.now) head.now }
{
    is_new_request(side, past, head) && has_number(side, head.msgno, past, past)
}

fn breaks_never_asked(side: Side, past: &[JournalItem], head: &Head) -> bool
    ensures { result ≡ breaks_never_asked side (history_of past.now) head.now }
{
    head.kind.is_reply() && !is_recent(side.other(), head.msgno, MAX_REQUESTS as usize, past)
}

fn breaks_early_reply(side: Side, past: &[JournalItem], head: &Head) -> bool
    ensures { result ≡ breaks_early_reply side (history_of past.now) head.now }
{
    head.kind.is_reply()
        && match named_request(side, past, head) {
            None => false,
            Some(position) => !has_passed_whole(side.other(), position, past),
        }
}

fn breaks_already_answered(side: Side, past: &[JournalItem], head: &Head) -> bool
    ensures { result ≡ breaks_already_answered side (history_of past.now) head.now }
{
    head.kind.is_reply()
        && match named_request(side, past, head) {
            None => false,
            Some(position) => has_answer(side.other(), position, past),
        }
}

fn breaks_out_of_turn(side: Side, past: &[JournalItem], head: &Head) -> bool
    ensures { result ≡ breaks_out_of_turn side (history_of past.now) head.now }
{
    head.kind.is_reply()
        && match named_request(side, past, head) {
            None => false,
            Some(position) => has_waiting_before(side.other(), position, past, past),
        }
}

fn breaks_nul_not_after_ans(side: Side, past: &[JournalItem], head: &Head) -> bool
    ensures { result ≡ breaks_nul_not_after_ans side (history_of past.now) head.now }
{
    head.kind.is_nul()
        && match named_request(side, past, head) {
            None => false,
            Some(position) => match last_of_reply(side.other(), position, past) {
                None => false,
                Some((before, _)) => !before.kind.is_ans(),
            },
        }
}

fn breaks_nul_too_soon(side: Side, past: &[JournalItem], head: &Head) -> bool
    ensures { result ≡ breaks_nul_too_soon side (history_of past.now) head.now }
{
    head.kind.is_nul() && open_answers(side, past, head) > 0
}

/// How many answers of the reply that a header goes on are unfinished.
fn open_answers(side: Side, past: &[JournalItem], head: &Head) -> usize
    ensures { result ≡ length (unfinished (reply_so_far side (history_of past.now) head.now)) }
{
    match named_request(side, past, head) {
        None => 0,
        Some(position) => unfinished_count(side.other(), position, past),
    }
}

fn breaks_sequence(side: Side, past: &[JournalItem], head: &Head) -> bool
    ensures { result ≡ breaks_sequence side (history_of past.now) head.now }
{
    head.seqno != wire_number(octets_passed(side, past))
}

/// The octets of the message of this header, its own included.
fn octets_of_message(side: Side, past: &[JournalItem], head: &Head) -> u128
    ensures { result ≡ message_octets side (history_of past.now) head.now }
{
    let begun = if !head.kind.is_ans() {
        octets_begun(side, past, head)
    } else {
        match named_request(side, past, head) {
            None => 0,
            Some(position) => octets_of_answer(side.other(), position, head.ansno, past),
        }
    };
    u128::from(head.size) + begun
}

fn breaks_long(side: Side, past: &[JournalItem], head: &Head) -> bool
    ensures { result ≡ breaks_long side (history_of past.now) head.now }
{
    head.channel != 0 && octets_of_message(side, past, head) > u128::from(MAX_MESSAGE)
}

fn breaks_window(edge: u128, side: Side, past: &[JournalItem], head: &Head) -> bool
    ensures { result ≡ breaks_window edge side (history_of past.now) head.now }
{
    octets_passed(side, past) + u128::from(head.size) > edge
}

fn breaks_empty_answer(side: Side, past: &[JournalItem], head: &Head) -> bool
    ensures { result ≡ breaks_empty_answer side (history_of past.now) head.now }
{
    head.kind.is_ans() && !head.more && octets_of_message(side, past, head) == 0
}

fn breaks_too_many_requests(side: Side, past: &[JournalItem], head: &Head) -> bool
    ensures { result ≡ breaks_too_many_requests side (history_of past.now) head.now }
{
    is_new_request(side, past, head) && waiting_count(side, past, past) >= MAX_REQUESTS as usize
}

fn breaks_too_many_answers(side: Side, past: &[JournalItem], head: &Head) -> bool
    ensures { result ≡ breaks_too_many_answers side (history_of past.now) head.now }
{
    begins_answer(side, past, head) && open_answers(side, past, head) >= MAX_ANSWERS as usize
}

/// Whether a header begins an answer of the reply that it goes on.
fn begins_answer(side: Side, past: &[JournalItem], head: &Head) -> bool
    ensures { result ≡ begins_answer (reply_so_far side (history_of past.now) head.now) head.now }
{
    head.kind.is_ans()
        && match named_request(side, past, head) {
            None => true,
            Some(position) => !has_unfinished(side.other(), position, head.ansno, past),
        }
}
