//! The first rule that a header, a SEQ or a reply's content breaks, by plain tests on a journal.
//!
//! No session runs this: it is the definitions in code, slow, so that they can be tried on
//! examples.
ghost use Rattle.std.specs.Prelude.{◌≡◌, ◌&&◌, not, IfOk};
ghost use Rattle.beep_history.specs.Marks.{is_whole, is_answered};
ghost use Rattle.beep_journal.specs.Plain.{tunes_of};
ghost use Rattle.beep_history.specs.Journal.{history_of};
ghost use Rattle.beep_history.specs.Broken.{first_of};
ghost use Rattle.beep_history.specs.Windows.{is_bad_ack};
ghost use Rattle.beep_journal.specs.Broken.{broken_head, broken_seq, broken_content, session_rules, is_greeting, waits_to_tune, breaks_zero_reply};

use crate::of_life::{history, is_there};
use crate::zero::{completes_form, zero_history};
use beep_frame::{Head, Kind, MAX_PAYLOAD, Rule, Seq};
use beep_history::{
    JournalItem, Side, broken_rule, has_answer, has_passed_whole, is_new_request, last_frame,
    octets_acked, octets_passed, request_count,
};
use beep_octets::{NoMemory, Octets};
use beep_seq::count_from;
use std::alloc::Global;

/// The side and the position of a start.
#[derive(Clone, Copy, Debug)]
pub struct StartPlace(pub Side, pub usize);

/// The first rule that a header of this side breaks, where these starts are tuning.
#[tactic(auto, unfolding(crate::specs::Broken::broken_head))]
pub fn broken_head(
    alloc: Global,
    tuning: &[StartPlace],
    side: Side,
    journal: &[JournalItem],
    head: &Head,
) -> Result<Option<Rule>, NoMemory>
    ensures { IfOk result (λ rule. rule
        ≡ broken_head (tunes_of tuning.now) side (history_of journal.now) head.now) }
{
    if let Some(rule) = session_rule(alloc, tuning, side, journal, head)? {
        return Ok(Some(rule));
    }
    let past = history(alloc, head.channel, journal)?;
    match broken_rule(side, &past, head) {
        Some(rule) => Ok(Some(rule)),
        None => Ok(if breaks_zero_reply(head) {
            Some(Rule::ZeroReply)
        } else {
            None
        }),
    }
}

fn session_rule(
    alloc: Global,
    tuning: &[StartPlace],
    side: Side,
    journal: &[JournalItem],
    head: &Head,
) -> Result<Option<Rule>, NoMemory>
    ensures { IfOk result (λ rule. rule
        ≡ first_of (session_rules (tunes_of tuning.now) side (history_of journal.now) head.now)) }
{
    if head.size > MAX_PAYLOAD {
        Ok(Some(Rule::Size))
    } else if last_frame(side, journal).is_none() && !is_greeting(head) {
        Ok(Some(Rule::NoGreeting))
    } else if !is_there(alloc, head.channel, journal)? {
        Ok(Some(Rule::NoSuchChannel))
    } else {
        let zero = zero_history(alloc, journal)?;
        Ok(if has_tuning_start(tuning, side, &zero, &zero) {
            Some(Rule::NotAlone)
        } else {
            None
        })
    }
}

/// Whether the start of a side at a position is one of those that are tuning.
fn is_tuning(tuning: &[StartPlace], side: Side, position: usize) -> bool
    ensures { result ≡ tunes_of tuning.now side position }
{
    match tuning {
        [] => false,
        [StartPlace(by, at), others @ ..] => {
            (side.is_same(*by) && *at == position) || is_tuning(others, side, position)
        }
    }
}

/// Whether a tuning start that began in a part of a history, and has wholly passed, isn't answered
/// in the whole.
fn has_tuning_start(
    tuning: &[StartPlace],
    side: Side,
    past: &[JournalItem],
    part: &[JournalItem],
) -> bool
    ensures { result
        ≡ waits_to_tune (tunes_of tuning.now) side (history_of past.now) (history_of part.now) }
{
    match part {
        [] => false,
        [JournalItem::Began(by, head), before @ ..] => {
            let begins = by.is_same(side) && is_new_request(side, before, head);
            let place = request_count(side, before);
            let rest = has_tuning_start(tuning, side, past, before);
            if !begins {
                rest
            } else {
                holds_up(tuning, side, place, past) || rest
            }
        }
        [JournalItem::Passed(..) | JournalItem::Told(..), before @ ..] => {
            has_tuning_start(tuning, side, past, before)
        }
    }
}

/// Whether the request at this place is a tuning start that has wholly passed and isn't answered.
fn holds_up(tuning: &[StartPlace], side: Side, position: usize, past: &[JournalItem]) -> bool
    ensures { result ≡ (not (is_answered side position (history_of past.now))
        && (tunes_of tuning.now side position && is_whole side position (history_of past.now))) }
{
    is_tuning(tuning, side, position)
        && has_passed_whole(side, position, past)
        && !has_answer(side, position, past)
}

fn is_greeting(head: &Head) -> bool
    ensures { result ≡ is_greeting head.now }
{
    (head.kind.is_same(Kind::Rpy) || head.kind.is_same(Kind::Err))
        && head.channel == 0
        && head.msgno == 0
}

fn breaks_zero_reply(head: &Head) -> bool
    ensures { result ≡ breaks_zero_reply head.now }
{
    head.channel == 0 && (head.kind.is_ans() || head.kind.is_nul())
}

/// The rule that a SEQ of this side breaks.
#[tactic(auto, unfolding(crate::specs::Broken::broken_seq))]
pub fn broken_seq(
    alloc: Global,
    side: Side,
    journal: &[JournalItem],
    seq: &Seq,
) -> Result<Option<Rule>, NoMemory>
    ensures { IfOk result (λ rule. rule ≡ broken_seq side (history_of journal.now) seq.now) }
{
    if !is_there(alloc, seq.channel, journal)? {
        return Ok(None);
    }
    let past = history(alloc, seq.channel, journal)?;
    if is_bad_ack(side, &past, seq) {
        Ok(Some(Rule::BadAck))
    } else {
        Ok(None)
    }
}

/// Whether a SEQ of this side acknowledges what the other has not sent, or less than before.
fn is_bad_ack(side: Side, past: &[JournalItem], seq: &Seq) -> bool
    ensures { result ≡ is_bad_ack side (history_of past.now) seq.now }
{
    let acked = octets_acked(side.other(), past);
    let count = count_from(acked, seq.ackno);
    octets_passed(side.other(), past) < count
}

/// The rule that the content of a passing frame breaks.
#[tactic(auto, unfolding(crate::specs::Broken::broken_content))]
pub fn broken_content(
    alloc: Global,
    side: Side,
    journal: &[JournalItem],
    head: &Head,
    payload: &Octets,
) -> Result<Option<Rule>, NoMemory>
    ensures { IfOk result (λ rule. rule
        ≡ broken_content side (history_of journal.now) head.now payload.now.octets) }
{
    if head.channel != 0 || !head.kind.is_reply() || head.more {
        return Ok(None);
    }
    let zero = zero_history(alloc, journal)?;
    if completes_form(alloc, side, head, payload, &zero)? {
        Ok(None)
    } else {
        Ok(Some(Rule::ZeroReply))
    }
}
