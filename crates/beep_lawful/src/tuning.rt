//! Tuning starts, which a caller names (RFC 3080, section 2.3.1.2).
//!
//! No session runs this: it is the definitions in code, slow, so that they can be tried on
//! examples.
ghost use Rattle.std.specs.Prelude.{◌≡◌, IfOk};
ghost use Rattle.std.specs.List.{list_any};
ghost use Rattle.beep_history.specs.declared.journal.Side.{Side};
ghost use Rattle.beep_history.specs.Journal.{history_of};
ghost use Rattle.beep_history.specs.Marks.{unanswered, requests};
ghost use Rattle.beep_journal.specs.Plain.{tunes_of};
ghost use Rattle.beep_lawful.specs.Tuned.{grants_tuning, has_tuned, is_tuning, tunes_next};

use beep_decide::is_start;
use beep_frame::{Head, Kind};
use beep_history::{JournalItem, Side, has_answer, is_new_request, latest_request, request_count};
use beep_journal::{StartPlace, asked, completes_form, said_at, zero_history};
use beep_octets::{NoMemory, Octets};
use std::alloc::Global;

/// Whether the request of a side at a position is one of those that are tuning.
fn names(tuning: &[StartPlace], side: Side, position: usize) -> bool
    ensures { result ≡ tunes_of tuning.now side position }
{
    match tuning {
        [] => false,
        [StartPlace(by, at), others @ ..] => {
            (side.is_same(*by) && *at == position) || names(others, side, position)
        }
    }
}

/// Whether a passing frame is the positive reply to a tuning start.
fn grants_tuning(
    alloc: Global,
    tuning: &[StartPlace],
    by: Side,
    head: &Head,
    payload: &Octets,
    zero: &[JournalItem],
) -> Result<bool, NoMemory>
    ensures { IfOk result (λ grants. grants ≡ grants_tuning (tunes_of tuning.now) by head.now
        payload.now.octets (history_of zero.now)) }
{
    if !head.kind.is_same(Kind::Rpy) || head.more {
        return Ok(false);
    }
    if !completes_form(alloc, by, head, payload, zero)? {
        return Ok(false);
    }
    let position = latest_request(by.other(), head.msgno, zero).unwrap_or(0);
    let forms = asked(alloc, by.other(), zero)?;
    Ok(is_start(said_at(position, &forms)) && names(tuning, by.other(), position))
}

/// Whether the positive reply to a tuning start has passed.
pub fn has_tuned(
    alloc: Global,
    tuning: &[StartPlace],
    zero: &[JournalItem],
) -> Result<bool, NoMemory>
    ensures { IfOk result (λ has. has ≡ has_tuned (tunes_of tuning.now) (history_of zero.now)) }
{
    match zero {
        [] => Ok(false),
        [JournalItem::Passed(by, head, payload), before @ ..] => {
            Ok(
                grants_tuning(alloc, tuning, *by, head, payload, before)?
                    || has_tuned(alloc, tuning, before)?,
            )
        }
        [JournalItem::Began(..) | JournalItem::Told(..), before @ ..] => {
            has_tuned(alloc, tuning, before)
        }
    }
}

/// Whether a tuning start waits among the own requests that began in a part of a history.
fn has_waiting_tuning(tuning: &[StartPlace], zero: &[JournalItem], part: &[JournalItem]) -> bool
    ensures { result ≡ list_any (λ request. tunes_of tuning.now Side.Sent request.position)
        (unanswered Side.Sent (history_of zero.now) (requests Side.Sent (history_of part.now))) }
{
    match part {
        [] => false,
        [JournalItem::Began(by, head), before @ ..] => {
            let begins = by.is_same(Side::Sent) && is_new_request(Side::Sent, before, head);
            let place = request_count(Side::Sent, before);
            let rest = has_waiting_tuning(tuning, zero, before);
            if !begins {
                rest
            } else {
                (!has_answer(Side::Sent, place, zero) && names(tuning, Side::Sent, place)) || rest
            }
        }
        [JournalItem::Passed(..) | JournalItem::Told(..), before @ ..] => {
            has_waiting_tuning(tuning, zero, before)
        }
    }
}

/// Whether an own tuning start has begun and isn't answered.
pub fn is_tuning(
    alloc: Global,
    tuning: &[StartPlace],
    journal: &[JournalItem],
) -> Result<bool, NoMemory>
    ensures { IfOk result (λ is. is ≡ is_tuning (tunes_of tuning.now) (history_of journal.now)) }
{
    let zero = zero_history(alloc, journal)?;
    Ok(has_waiting_tuning(tuning, &zero, &zero))
}

/// Whether the next own request of channel zero is a tuning start.
pub fn tunes_next(
    alloc: Global,
    tuning: &[StartPlace],
    journal: &[JournalItem],
) -> Result<bool, NoMemory>
    ensures { IfOk result (λ tunes. tunes ≡ tunes_next (tunes_of tuning.now)
        (history_of journal.now)) }
{
    let zero = zero_history(alloc, journal)?;
    Ok(names(tuning, Side::Sent, request_count(Side::Sent, &zero)))
}
