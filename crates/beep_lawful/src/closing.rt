//! When a life may end, by plain look-back over every moment since a close.
//!
//! No session runs this: it is the definitions in code, slow, so that they can be tried on
//! examples.
ghost use Rattle.std.specs.Prelude.{◌≡◌, ◌==◌, nat_lt, not, ◌||◌, length, IfOk};
ghost use Rattle.std.specs.List.{list_any};
ghost use Rattle.beep_history.specs.declared.journal.Side.{Side};
ghost use Rattle.beep_history.specs.Journal.{item_of, history_of};
ghost use Rattle.beep_history.specs.Marks.{unanswered, requests};
ghost use Rattle.beep_journal.specs.Plain.{forms_of, events_of};
ghost use Rattle.beep_journal.specs.Lives.{is_live};
ghost use Rattle.beep_journal.specs.Life.{history};
ghost use Rattle.beep_journal.specs.Zero.{events, said_at};
ghost use Rattle.beep_decide.specs.Asks.{is_close_of};
ghost use Rattle.beep_lawful.specs.Closing.{none_waits_before, is_idle, has_begun, was_idle_since, is_drained, are_drained, is_ready, begins_asking, asks_again, has_come, was_ready_since, was_quiet_since};

use beep_decide::is_close_of;
use beep_frame::Head;
use beep_history::{JournalItem, Side, has_answer, is_new_request, request_count};
use beep_journal::{
    LifeEvent, asked, events, has_ended, history, is_live, life, life_now, said_at, zero_history,
};
use beep_mgmt::Mgmt;
use beep_octets::NoMemory;
use std::alloc::Global;

/// Whether a request of a side that began in a part of a history isn't answered in the whole.
fn has_waiting(side: Side, past: &[JournalItem], part: &[JournalItem]) -> bool
    ensures { result ≡ not (length
        (unanswered side (history_of past.now) (requests side (history_of part.now))) == 0) }
{
    match part {
        [] => false,
        [JournalItem::Began(by, head), before @ ..] => {
            let begins = by.is_same(side) && is_new_request(side, before, head);
            (begins && !has_answer(side, request_count(side, before), past))
                || has_waiting(side, past, before)
        }
        [JournalItem::Passed(..) | JournalItem::Told(..), before @ ..] => {
            has_waiting(side, past, before)
        }
    }
}

/// Whether an own request before a position, that began in a part of a history, isn't answered in
/// the whole.
fn has_waiting_before(position: usize, past: &[JournalItem], part: &[JournalItem]) -> bool
    ensures { result ≡ list_any (λ request. nat_lt request.position position)
        (unanswered Side.Sent (history_of past.now) (requests Side.Sent (history_of part.now))) }
{
    match part {
        [] => false,
        [JournalItem::Began(by, head), before @ ..] => {
            let begins = by.is_same(Side::Sent) && is_new_request(Side::Sent, before, head);
            let place = request_count(Side::Sent, before);
            (begins && place < position && !has_answer(Side::Sent, place, past))
                || has_waiting_before(position, past, before)
        }
        [JournalItem::Passed(..) | JournalItem::Told(..), before @ ..] => {
            has_waiting_before(position, past, before)
        }
    }
}

/// Whether the life has no own request that waits, channel zero none before the position.
fn is_idle(
    alloc: Global,
    position: usize,
    number: u32,
    count: usize,
    journal: &[JournalItem],
) -> Result<bool, NoMemory>
    ensures { IfOk result (λ is. is ≡ is_idle position number count (history_of journal.now)) }
{
    if number == 0 {
        let zero = zero_history(alloc, journal)?;
        return Ok(!has_waiting_before(position, &zero, &zero));
    }
    let past = life(alloc, number, count, journal)?;
    Ok(!has_waiting(Side::Sent, &past, &past))
}

/// Whether the own request of channel zero at this position has begun.
fn has_begun(alloc: Global, position: usize, journal: &[JournalItem]) -> Result<bool, NoMemory>
    ensures { IfOk result (λ has. has ≡ has_begun position (history_of journal.now)) }
{
    let zero = zero_history(alloc, journal)?;
    Ok(position < request_count(Side::Sent, &zero))
}

/// Whether the life was idle at each moment since that request began.
pub fn was_idle_since(
    alloc: Global,
    position: usize,
    number: u32,
    count: usize,
    journal: &[JournalItem],
) -> Result<bool, NoMemory>
    ensures { IfOk result (λ was. was
        ≡ was_idle_since position number count (history_of journal.now)) }
{
    match journal {
        [] => Ok(true),
        [_, before @ ..] => {
            if !is_idle(alloc, position, number, count, journal)? {
                return Ok(false);
            }
            if has_begun(alloc, position, journal)? {
                was_idle_since(alloc, position, number, count, before)
            } else {
                Ok(true)
            }
        }
    }
}

/// Whether a life is drained, as its history shows it.
fn is_drained(past: &[JournalItem]) -> bool
    ensures { result ≡ is_drained (history_of past.now) }
{
    !has_waiting(Side::Received, past, past) && !has_waiting(Side::Sent, past, past)
}

/// Whether a channel is drained, or isn't live.
fn is_free(alloc: Global, number: u32, journal: &[JournalItem]) -> Result<bool, NoMemory>
    ensures { IfOk result (λ is. is
        ≡ (not (is_live number (events (history_of journal.now)))
        || is_drained (history number (history_of journal.now)))) }
{
    let moments = events(alloc, journal)?;
    let past = history(alloc, number, journal)?;
    Ok(!is_live(number, &moments) || is_drained(&past))
}

/// Whether each channel is drained whose start is among these moments and that is live.
fn are_drained(
    alloc: Global,
    moments: &[LifeEvent],
    journal: &[JournalItem],
) -> Result<bool, NoMemory>
    ensures { IfOk result (λ are. are
        ≡ are_drained (events_of moments.now) (history_of journal.now)) }
{
    match moments {
        [] => Ok(true),
        [LifeEvent::StartGranted(of), before @ ..] => {
            Ok(is_free(alloc, *of, journal)? && are_drained(alloc, before, journal)?)
        }
        [
            LifeEvent::CloseCame(..) | LifeEvent::CloseGranted(..),
            before @ ..,
        ] => are_drained(alloc, before, journal),
    }
}

/// Whether an own request of channel zero that began in a part of a history, and isn't answered in
/// the whole, is no close of 0, by what these requests say.
fn has_other_asking(forms: &[Option<Mgmt>], zero: &[JournalItem], part: &[JournalItem]) -> bool
    ensures { result ≡ list_any
        (λ request. not (is_close_of 0 (said_at request.position (forms_of forms.now))))
        (unanswered Side.Sent (history_of zero.now) (requests Side.Sent (history_of part.now))) }
{
    match part {
        [] => false,
        [JournalItem::Began(by, head), before @ ..] => {
            let begins = by.is_same(Side::Sent) && is_new_request(Side::Sent, before, head);
            let place = request_count(Side::Sent, before);
            let rest = has_other_asking(forms, zero, before);
            if !begins || has_answer(Side::Sent, place, zero) {
                rest
            } else {
                !is_close_of(0, said_at(place, forms)) || rest
            }
        }
        [JournalItem::Passed(..) | JournalItem::Told(..), before @ ..] => {
            has_other_asking(forms, zero, before)
        }
    }
}

/// Whether the `ok` to a close of 0 has nothing to wait for, by what the own requests say.
fn may_release(
    alloc: Global,
    forms: &[Option<Mgmt>],
    journal: &[JournalItem],
) -> Result<bool, NoMemory>
    ensures { IfOk result (λ may. may ≡ is_ready 0 0 (forms_of forms.now)
        (history_of journal.now)) }
{
    let moments = events(alloc, journal)?;
    let zero = zero_history(alloc, journal)?;
    Ok(are_drained(alloc, &moments, journal)? && !has_other_asking(forms, &zero, &zero))
}

/// Whether the `ok` to a close of this life has nothing to wait for.
fn is_ready(
    alloc: Global,
    number: u32,
    count: usize,
    forms: &[Option<Mgmt>],
    journal: &[JournalItem],
) -> Result<bool, NoMemory>
    ensures { IfOk result (λ is. is ≡ is_ready number count (forms_of forms.now)
        (history_of journal.now)) }
{
    if number == 0 {
        return may_release(alloc, forms, journal);
    }
    if count == 0 {
        return Ok(true);
    }
    let moments = events(alloc, journal)?;
    let past = life(alloc, number, count, journal)?;
    Ok(has_ended(number, count, &moments) || is_drained(&past))
}

/// Whether a header of channel zero begins a close of 0 among the requests that say these things.
fn begins_release(forms: &[Option<Mgmt>], zero: &[JournalItem]) -> bool
    ensures { result ≡ is_close_of 0
        (said_at (length (requests Side.Sent (history_of zero.now))) (forms_of forms.now)) }
{
    is_close_of(0, said_at(request_count(Side::Sent, zero), forms))
}

/// Whether a header begins an own request of the life, at 0 of any.
fn begins_asking(
    alloc: Global,
    number: u32,
    count: usize,
    forms: &[Option<Mgmt>],
    head: &Head,
    journal: &[JournalItem],
) -> Result<bool, NoMemory>
    ensures { IfOk result (λ begins. begins ≡ begins_asking number count (forms_of forms.now)
        head.now (history_of journal.now)) }
{
    let past = history(alloc, head.channel, journal)?;
    if !is_new_request(Side::Sent, &past, head) {
        return Ok(false);
    }
    if number == 0 {
        let zero = zero_history(alloc, journal)?;
        return Ok(!(head.channel == 0 && begins_release(forms, &zero)));
    }
    Ok(head.channel == number && life_now(alloc, number, journal)? == count)
}

/// Whether an item begins an own request of the life, at 0 of any.
fn asks_again(
    alloc: Global,
    number: u32,
    count: usize,
    forms: &[Option<Mgmt>],
    item: &JournalItem,
    journal: &[JournalItem],
) -> Result<bool, NoMemory>
    ensures { IfOk result (λ asks. asks ≡ asks_again number count (forms_of forms.now)
        (item_of item.now) (history_of journal.now)) }
{
    match item {
        JournalItem::Began(Side::Sent, head) => {
            begins_asking(alloc, number, count, forms, head, journal)
        }
        JournalItem::Began(Side::Received, _) | JournalItem::Passed(..) | JournalItem::Told(..) =>
            Ok(false),
    }
}

/// Whether the peer's request of channel zero at this position has come whole.
fn has_come(alloc: Global, position: usize, journal: &[JournalItem]) -> Result<bool, NoMemory>
    ensures { IfOk result (λ has. has ≡ has_come position (history_of journal.now)) }
{
    let zero = zero_history(alloc, journal)?;
    Ok(position < asked(alloc, Side::Received, &zero)?.len())
}

/// Whether at some moment since the peer's close came its `ok` had nothing to wait for.
pub fn was_ready_since(
    alloc: Global,
    position: usize,
    number: u32,
    count: usize,
    forms: &[Option<Mgmt>],
    journal: &[JournalItem],
) -> Result<bool, NoMemory>
    ensures { IfOk result (λ was. was ≡ was_ready_since position number count
        (forms_of forms.now) (history_of journal.now)) }
{
    match journal {
        [] => Ok(false),
        [_, before @ ..] => {
            if !has_come(alloc, position, journal)? {
                return Ok(false);
            }
            if is_ready(alloc, number, count, forms, journal)? {
                return Ok(true);
            }
            was_ready_since(alloc, position, number, count, forms, before)
        }
    }
}

/// Whether at some moment since the peer's close came its `ok` had nothing to wait for, and since
/// then no own request of the life has begun.
pub fn was_quiet_since(
    alloc: Global,
    position: usize,
    number: u32,
    count: usize,
    forms: &[Option<Mgmt>],
    journal: &[JournalItem],
) -> Result<bool, NoMemory>
    ensures { IfOk result (λ was. was ≡ was_quiet_since position number count
        (forms_of forms.now) (history_of journal.now)) }
{
    match journal {
        [] => Ok(false),
        [item, before @ ..] => {
            if !has_come(alloc, position, journal)? {
                return Ok(false);
            }
            if is_ready(alloc, number, count, forms, journal)? {
                return Ok(true);
            }
            if asks_again(alloc, number, count, forms, item, before)? {
                return Ok(false);
            }
            was_quiet_since(alloc, position, number, count, forms, before)
        }
    }
}
