//! What the crates below don't tell of a history, by plain look-back, the latest item first.
ghost use Rattle.std.specs.Prelude.{◌≡◌, ◌+◌, ◌*◌, ◌≤◌, ◌==◌, not, length, IfOk};
ghost use Rattle.beep_octets.specs.Numbers.{numbers_64};
ghost use Rattle.beep_history.specs.Journal.{history_of};
ghost use Rattle.beep_history.specs.Marks.{position_of, tag_of, carries, marks, requests, unanswered};
ghost use Rattle.beep_history.specs.Messages.{messages, same_tag, gathered};
ghost use Rattle.beep_journal.specs.Life.{life_under_way};
ghost use Rattle.beep_lawful.specs.Closing.{is_drained};

use beep_frame::{Head, Tag};
use beep_history::{JournalItem, Side, has_answer, is_new_request, latest_request, request_count};
use beep_journal::life_now;
use beep_octets::{NoMemory, Octets};
use std::alloc::Global;

/// The count of the life of a number in which the last header of a side came.
pub fn life_under_way(
    alloc: Global,
    number: u32,
    side: Side,
    journal: &[JournalItem],
) -> Result<usize, NoMemory>
    ensures { IfOk result (λ count. count ≡ life_under_way number side (history_of journal.now)) }
{
    match journal {
        [] => Ok(0),
        [JournalItem::Began(by, head), before @ ..] => {
            if !side.is_same(*by) {
                life_under_way(alloc, number, side, before)
            } else if head.channel == number {
                life_now(alloc, number, before)
            } else {
                Ok(0)
            }
        }
        [JournalItem::Passed(..) | JournalItem::Told(..), before @ ..] => {
            life_under_way(alloc, number, side, before)
        }
    }
}

/// The position that a frame of a side speaks of.
pub fn position_of(side: Side, past: &[JournalItem], head: &Head) -> usize
    ensures { result ≡ position_of side (history_of past.now) head.now }
{
    if head.kind.is_msg() {
        request_count(side, past).saturating_sub(1)
    } else {
        latest_request(side.other(), head.msgno, past).unwrap_or(0)
    }
}

/// What each octet of a frame is marked with.
pub fn tag_of(side: Side, past: &[JournalItem], head: &Head) -> Tag
    ensures { result ≡ tag_of side (history_of past.now) head.now }
{
    Tag {
        kind: head.kind,
        request: position_of(side, past, head) as u64,
        ansno: head.ansno,
    }
}

/// Whether two tags are one.
fn is_same_tag(a: &Tag, b: &Tag) -> bool
    ensures { result ≡ same_tag a.now b.now }
{
    a.kind.is_same(b.kind) && a.request == b.request && a.ansno == b.ansno
}

/// Whether a frame of one side carries a message of a side.
fn carries(side: Side, past: &[JournalItem], by: Side, head: &Head) -> bool
    ensures { result ≡ carries side (history_of past.now) by head.now }
{
    let implied = head.channel == 0 && head.kind.is_msg() && position_of(side, past, head) == 0;
    by.is_same(side) && !implied
}

/// The octets so far of the message of a tag that is not complete.
pub fn gathered(
    alloc: Global,
    side: Side,
    tag: &Tag,
    past: &[JournalItem],
) -> Result<Octets, NoMemory>
    ensures { IfOk result (λ octets. octets.octets ≡ gathered side tag.now (history_of past.now)) }
{
    match past {
        [] => Ok(Octets::new(alloc)),
        [JournalItem::Passed(by, head, payload), before @ ..] => {
            if !(carries(side, before, *by, head)
                && is_same_tag(&tag_of(side, before, head), tag))
            {
                gathered(alloc, side, tag, before)
            } else if head.more {
                let mut octets = gathered(alloc, side, tag, before)?;
                octets.extend(payload.as_slice())?;
                Ok(octets)
            } else {
                Ok(Octets::new(alloc))
            }
        }
        [JournalItem::Began(..) | JournalItem::Told(..), before @ ..] => {
            gathered(alloc, side, tag, before)
        }
    }
}

/// How many messages of a side have wholly passed.
pub fn message_count(side: Side, past: &[JournalItem]) -> usize
    ensures value { result ≡ length (messages side (history_of past.now)) }
    ensures within { result ≤ length past.now }
{
    match past {
        [] => 0,
        [JournalItem::Passed(by, head, _), before @ ..] => {
            let count = message_count(side, before);
            if carries(side, before, *by, head) && !head.more {
                count + 1
            } else {
                count
            }
        }
        [JournalItem::Began(..) | JournalItem::Told(..), before @ ..] => {
            message_count(side, before)
        }
    }
}

/// How many marks of a side have passed.
pub fn mark_count(side: Side, past: &[JournalItem]) -> u128
    ensures value { result ≡ length (marks side (history_of past.now)) }
    ensures within { result ≤ length past.now * numbers_64 }
{
    match past {
        [] => 0,
        [JournalItem::Passed(by, head, payload), before @ ..] => {
            let count = mark_count(side, before);
            if !carries(side, before, *by, head) {
                count
            } else if head.more {
                count + payload.len() as u128
            } else {
                count + payload.len() as u128 + 1
            }
        }
        [JournalItem::Began(..) | JournalItem::Told(..), before @ ..] => mark_count(side, before),
    }
}

/// Whether a request of a side that began in a part of a history isn't answered in the whole.
fn has_waiting(side: Side, past: &[JournalItem], part: &[JournalItem]) -> bool
    ensures { result ≡ not (length
        (unanswered side (history_of past.now) (requests side (history_of part.now))) == 0) }
{
    match part {
        [] => false,
        [JournalItem::Began(by, head), before @ ..] => {
            let begins = by.is_same(side) && is_new_request(side, before, head);
            (begins && !has_answer(side, request_count(side, before), past))
                || has_waiting(side, past, before)
        }
        [JournalItem::Passed(..) | JournalItem::Told(..), before @ ..] => {
            has_waiting(side, past, before)
        }
    }
}

/// Whether a life is drained, as its history shows it.
pub fn is_drained(past: &[JournalItem]) -> bool
    ensures { result ≡ is_drained (history_of past.now) }
{
    !has_waiting(Side::Received, past, past) && !has_waiting(Side::Sent, past, past)
}
