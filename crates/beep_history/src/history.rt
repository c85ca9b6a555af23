//! A history of one life as a list, the latest item first, and what it tells by plain look-back.
//!
//! No session runs this: it is the definitions in code, slow, so that they can be tried on
//! examples.
ghost use Rattle.std.specs.Prelude.{◌≡◌, ◌+◌, ◌*◌, ◌<◌, ◌≤◌, ◌==◌, nat_lt, IfSome, IfNone, not, ◌&&◌, [], ◌∷◌, length, take, find, filter, option_map, is_some};
ghost use Rattle.std.specs.List.{list_any};
ghost use Rattle.beep_octets.specs.Numbers.{numbers_32};
ghost use Rattle.beep_frame.specs.Frame.{same_kind};
ghost use Rattle.beep_history.specs.Journal.{history_of};
ghost use Rattle.beep_history.specs.Broken.{is_used};
ghost use Rattle.beep_history.specs.Marks.{goes_on, begins_request, requests, latest, is_whole, answers, reply, ends_reply, is_answered, unanswered, frames, previous, begun_octets, unfinished, answer_octets};

use crate::journal::{JournalItem, Side};
use beep_frame::{Head, Kind};

/// The header of the frame of this side that passed last.
pub fn last_frame(side: Side, past: &[JournalItem]) -> Option<Head>
    ensures { result ≡ previous side (history_of past.now) }
{
    match past {
        [] => None,
        [JournalItem::Passed(by, head, _), before @ ..] => {
            if by.is_same(side) {
                Some(*head)
            } else {
                last_frame(side, before)
            }
        }
        [JournalItem::Began(..) | JournalItem::Told(..), before @ ..] => last_frame(side, before),
    }
}

/// Whether a header goes on with the message of the frame before it.
pub fn is_going_on(head: &Head, before: &Head) -> bool
    ensures { result ≡ goes_on head.now before.now }
{
    before.more && before.msgno == head.msgno
}

/// Whether a header of this side begins a request.
pub fn is_new_request(side: Side, past: &[JournalItem], head: &Head) -> bool
    ensures { result ≡ begins_request side (history_of past.now) head.now }
{
    head.kind.is_msg()
        && match last_frame(side, past) {
            None => true,
            Some(before) => !(before.kind.is_msg() && is_going_on(head, &before)),
        }
}

/// How many requests of this side have begun.
pub fn request_count(side: Side, past: &[JournalItem]) -> usize
    ensures value { result ≡ length (requests side (history_of past.now)) }
    ensures within { result ≤ length past.now }
{
    match past {
        [] => 0,
        [JournalItem::Began(by, head), before @ ..] => {
            let count = request_count(side, before);
            if by.is_same(side) && is_new_request(side, before, head) {
                count + 1
            } else {
                count
            }
        }
        [JournalItem::Passed(..) | JournalItem::Told(..), before @ ..] => {
            request_count(side, before)
        }
    }
}

/// The place of the latest request of this side that has this number.
pub fn latest_request(side: Side, number: u32, past: &[JournalItem]) -> Option<usize>
    ensures { result ≡ option_map (λ request. request.position)
        (latest side number (history_of past.now)) }
{
    match past {
        [] => None,
        [JournalItem::Began(by, head), before @ ..] => {
            if by.is_same(side) && is_new_request(side, before, head) && head.msgno == number {
                Some(request_count(side, before))
            } else {
                latest_request(side, number, before)
            }
        }
        [JournalItem::Passed(..) | JournalItem::Told(..), before @ ..] => {
            latest_request(side, number, before)
        }
    }
}

/// Whether one of the last `left` requests of this side has this number.
pub fn is_recent(side: Side, number: u32, left: usize, past: &[JournalItem]) -> bool
    ensures { result ≡ is_some (find (λ request. request.number == number)
        (take left (requests side (history_of past.now)))) }
{
    match past {
        [] => false,
        [JournalItem::Began(by, head), before @ ..] => {
            if !(by.is_same(side) && is_new_request(side, before, head)) {
                is_recent(side, number, left, before)
            } else if left == 0 {
                false
            } else if head.msgno == number {
                true
            } else {
                is_recent(side, number, left - 1, before)
            }
        }
        [JournalItem::Passed(..) | JournalItem::Told(..), before @ ..] => {
            is_recent(side, number, left, before)
        }
    }
}

/// Whether the last frame of the request at this place has passed.
pub fn has_passed_whole(side: Side, position: usize, past: &[JournalItem]) -> bool
    ensures { result ≡ is_whole side position (history_of past.now) }
{
    match past {
        [] => false,
        [JournalItem::Passed(by, head, _), before @ ..] => {
            let ends = by.is_same(side) && head.kind.is_msg() && !head.more;
            (ends && request_count(side, before).checked_sub(1) == Some(position))
                || has_passed_whole(side, position, before)
        }
        [JournalItem::Began(..) | JournalItem::Told(..), before @ ..] => {
            has_passed_whole(side, position, before)
        }
    }
}

/// Whether a frame belongs to the reply to the request at this place.
pub fn is_reply_to(side: Side, position: usize, past: &[JournalItem], by: Side, head: &Head) -> bool
    ensures { result ≡ answers side position (history_of past.now) by head.now }
{
    by.is_same(side.other())
        && head.kind.is_reply()
        && match latest_request(side, head.msgno, past) {
            None => false,
            Some(found) => found == position,
        }
}

/// Whether a frame ends a reply.
pub fn is_end_of_reply(head: &Head) -> bool
    ensures { result ≡ ends_reply head.now }
{
    !head.more && !head.kind.is_ans()
}

/// The latest frame of the reply to the request at this place, and what came before it.
pub fn last_of_reply(
    side: Side,
    position: usize,
    past: &[JournalItem],
) -> Option<(Head, &[JournalItem])>
    ensures none { IfNone result (reply side position (history_of past.now) ≡ []) }
    ensures some { IfSome result (λ r. reply side position (history_of past.now)
        ≡ r.0 ∷ reply side position (history_of r.1.now)) }
    ensures shorter { IfSome result (λ r. length r.1.now < length past.now) }
{
    match past {
        [] => None,
        [JournalItem::Passed(by, head, _), before @ ..] => {
            if is_reply_to(side, position, before, *by, head) {
                Some((*head, before))
            } else {
                last_of_reply(side, position, before)
            }
        }
        [JournalItem::Began(..) | JournalItem::Told(..), before @ ..] => {
            last_of_reply(side, position, before)
        }
    }
}

/// Whether the request at this place is answered.
pub fn has_answer(side: Side, position: usize, past: &[JournalItem]) -> bool
    ensures { result ≡ is_answered side position (history_of past.now) }
{
    match last_of_reply(side, position, past) {
        None => false,
        Some((head, before)) => is_end_of_reply(&head) || has_answer(side, position, before),
    }
}

/// Whether the reply to the request at this place has a frame of another kind.
pub fn has_other_kind(side: Side, position: usize, kind: Kind, past: &[JournalItem]) -> bool
    ensures { result ≡ list_any (λ frame. not (same_kind frame.kind kind))
        (reply side position (history_of past.now)) }
{
    match last_of_reply(side, position, past) {
        None => false,
        Some((head, before)) => {
            !head.kind.is_same(kind) || has_other_kind(side, position, kind, before)
        }
    }
}

/// Whether the reply to the request at this place has an unfinished answer of this number.
#[tactic(auto, using(crate::proofs::AnswersLemmas::unfinished_steps))]
pub fn has_unfinished(side: Side, position: usize, number: u32, past: &[JournalItem]) -> bool
    ensures { result ≡ list_any (λ n. n == number)
        (unfinished (reply side position (history_of past.now))) }
{
    match last_of_reply(side, position, past) {
        None => false,
        Some((head, before)) => {
            let had = has_unfinished(side, position, number, before);
            if !head.kind.is_ans() {
                had
            } else if head.ansno == number {
                head.more
            } else {
                had
            }
        }
    }
}

/// How many answers of the reply to the request at this place are unfinished.
#[tactic(auto, using(crate::proofs::AnswersLemmas::unfinished_steps))]
pub fn unfinished_count(side: Side, position: usize, past: &[JournalItem]) -> usize
    ensures value { result ≡ length (unfinished (reply side position (history_of past.now))) }
    ensures within { result ≤ length past.now }
{
    match last_of_reply(side, position, past) {
        None => 0,
        Some((head, before)) => {
            let count = unfinished_count(side, position, before);
            if !head.kind.is_ans() {
                return count;
            }
            match (
                head.more,
                has_unfinished(side, position, head.ansno, before),
            ) {
                (true, false) => count + 1,
                (false, true) => count - 1,
                (true, true) | (false, false) => count,
            }
        }
    }
}

/// The octets so far of the unfinished answer of this number.
pub fn octets_of_answer(side: Side, position: usize, number: u32, past: &[JournalItem]) -> u128
    ensures value { result ≡ answer_octets number (reply side position (history_of past.now)) }
    ensures within { result ≤ length past.now * numbers_32 }
{
    match last_of_reply(side, position, past) {
        None => 0,
        Some((head, before)) => {
            let octets = octets_of_answer(side, position, number, before);
            if !head.kind.is_ans() || head.ansno != number {
                octets
            } else if head.more {
                u128::from(head.size) + octets
            } else {
                0
            }
        }
    }
}

/// The octets of the frames before this header that belong to its message, where it is no ANS.
pub fn octets_begun(side: Side, past: &[JournalItem], head: &Head) -> u128
    ensures value { result ≡ begun_octets head.now (frames side (history_of past.now)) }
    ensures within { result ≤ length past.now * numbers_32 }
{
    match past {
        [] => 0,
        [JournalItem::Passed(by, before, _), others @ ..] => {
            let octets = octets_begun(side, others, head);
            if !by.is_same(side) {
                octets
            } else if before.kind.is_same(head.kind) && is_going_on(head, before) {
                u128::from(before.size) + octets
            } else {
                0
            }
        }
        [JournalItem::Began(..) | JournalItem::Told(..), before @ ..] => {
            octets_begun(side, before, head)
        }
    }
}

/// How many requests that began in a part of a history are not answered in the whole.
pub fn waiting_count(side: Side, past: &[JournalItem], part: &[JournalItem]) -> usize
    ensures value { result ≡ length
        (unanswered side (history_of past.now) (requests side (history_of part.now))) }
    ensures within { result ≤ length part.now }
{
    match part {
        [] => 0,
        [JournalItem::Began(by, head), before @ ..] => {
            let count = waiting_count(side, past, before);
            let begins = by.is_same(side) && is_new_request(side, before, head);
            if begins && !has_answer(side, request_count(side, before), past) {
                count + 1
            } else {
                count
            }
        }
        [JournalItem::Passed(..) | JournalItem::Told(..), before @ ..] => {
            waiting_count(side, past, before)
        }
    }
}

/// Whether a request that began in a part of a history, and isn't answered in the whole, is before
/// a place.
pub fn has_waiting_before(
    side: Side,
    position: usize,
    past: &[JournalItem],
    part: &[JournalItem],
) -> bool
    ensures { result ≡ list_any (λ earlier. nat_lt earlier.position position)
        (unanswered side (history_of past.now) (requests side (history_of part.now))) }
{
    match part {
        [] => false,
        [JournalItem::Began(by, head), before @ ..] => {
            let begins = by.is_same(side) && is_new_request(side, before, head);
            let place = request_count(side, before);
            (begins && place < position && !has_answer(side, place, past))
                || has_waiting_before(side, position, past, before)
        }
        [JournalItem::Passed(..) | JournalItem::Told(..), before @ ..] => {
            has_waiting_before(side, position, past, before)
        }
    }
}

/// Whether a request that began in a part of a history, has wholly passed and isn't answered, has
/// this number.
pub fn has_number(side: Side, number: u32, past: &[JournalItem], part: &[JournalItem]) -> bool
    ensures { result ≡ list_any (is_used side (history_of past.now) number)
        (unanswered side (history_of past.now) (requests side (history_of part.now))) }
{
    match part {
        [] => false,
        [JournalItem::Began(by, head), before @ ..] => {
            let begins = by.is_same(side) && is_new_request(side, before, head);
            let place = request_count(side, before);
            let rest = has_number(side, number, past, before);
            if !begins {
                rest
            } else if is_use(side, number, place, head.msgno, past) {
                true
            } else {
                rest
            }
        }
        [JournalItem::Passed(..) | JournalItem::Told(..), before @ ..] => {
            has_number(side, number, past, before)
        }
    }
}

/// Whether the request at this place, of the number `own`, uses a number: it has wholly passed and
/// isn't answered.
fn is_use(side: Side, number: u32, position: usize, own: u32, past: &[JournalItem]) -> bool
    ensures { result ≡ (not (is_answered side position (history_of past.now))
        && (own == number && is_whole side position (history_of past.now))) }
{
    own == number && has_passed_whole(side, position, past) && !has_answer(side, position, past)
}
