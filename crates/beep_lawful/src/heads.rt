//! What a header breaks that goes out, by plain tests on a journal.
//!
//! No session runs this: it is the definitions in code, slow, so that they can be tried on
//! examples.
ghost use Rattle.std.specs.Prelude.{◌≡◌, IfOk};
ghost use Rattle.beep_history.specs.Journal.{history_of};
ghost use Rattle.beep_journal.specs.Plain.{tunes_of};
ghost use Rattle.beep_lawful.specs.Lawful.{is_apart, breaks_after_end, breaks_rule, breaks_room, begins_own, breaks_own_number, breaks_asked_closing, follows_full_seq, begins_tuning, goes_on_zero, breaks_beside_tuning, unlawful_head};

use crate::breach::Breach;
use crate::limits::MESSAGE_NUMBERS;
use crate::terms::Terms;
use crate::tuning::{has_tuned, is_tuning, tunes_next};
use crate::windows::octets_open;
use beep_decide::has_own_close;
use beep_frame::Head;
use beep_history::{JournalItem, Side, is_new_request, request_count};
use beep_journal::{StartPlace, broken_head, history, is_released, life_now, zero_history};
use beep_octets::NoMemory;
use std::alloc::Global;

/// Whether the session was released, or a tuning start was granted.
pub fn breaks_after_end(
    alloc: Global,
    tuning: &[StartPlace],
    journal: &[JournalItem],
) -> Result<bool, NoMemory>
    ensures { IfOk result (λ breaks. breaks ≡ breaks_after_end (tunes_of tuning.now)
        (history_of journal.now)) }
{
    let zero = zero_history(alloc, journal)?;
    Ok(is_released(alloc, journal)? || has_tuned(alloc, tuning, &zero)?)
}

/// Whether a frame of this end is under way.
pub fn is_apart(journal: &[JournalItem]) -> bool
    ensures { result ≡ is_apart (history_of journal.now) }
{
    match journal {
        [] | [JournalItem::Passed(Side::Sent, _, _), ..] => false,
        [JournalItem::Began(Side::Sent, _), ..] => true,
        [
            JournalItem::Began(Side::Received, _)
            | JournalItem::Passed(Side::Received, _, _)
            | JournalItem::Told(..),
            before @ ..,
        ] => is_apart(before),
    }
}

/// Whether the peer would find a broken rule.
fn breaks_rule(
    alloc: Global,
    tuning: &[StartPlace],
    journal: &[JournalItem],
    head: &Head,
) -> Result<bool, NoMemory>
    ensures { IfOk result (λ breaks. breaks ≡ breaks_rule (tunes_of tuning.now)
        (history_of journal.now) head.now) }
{
    Ok(broken_head(alloc, tuning, Side::Sent, journal, head)?.is_some())
}

/// Whether the payload is larger than the piece, or than the octets that are open.
fn breaks_room(
    alloc: Global,
    terms: &Terms,
    journal: &[JournalItem],
    head: &Head,
) -> Result<bool, NoMemory>
    ensures { IfOk result (λ breaks. breaks ≡ breaks_room terms.now (history_of journal.now)
        head.now) }
{
    let past = history(alloc, head.channel, journal)?;
    Ok(terms.piece < head.size || octets_open(&past) < u128::from(head.size))
}

/// Whether a header begins an own request.
fn begins_own(alloc: Global, journal: &[JournalItem], head: &Head) -> Result<bool, NoMemory>
    ensures { IfOk result (λ begins. begins ≡ begins_own (history_of journal.now) head.now) }
{
    let past = history(alloc, head.channel, journal)?;
    Ok(is_new_request(Side::Sent, &past, head))
}

/// Whether an own request has another number than its position, modulo `MESSAGE_NUMBERS`.
fn breaks_own_number(alloc: Global, journal: &[JournalItem], head: &Head) -> Result<bool, NoMemory>
    ensures { IfOk result (λ breaks. breaks ≡ breaks_own_number (history_of journal.now)
        head.now) }
{
    let past = history(alloc, head.channel, journal)?;
    let position = request_count(Side::Sent, &past);
    Ok(is_new_request(Side::Sent, &past, head) && head.msgno as usize != position % MESSAGE_NUMBERS)
}

/// Whether an own request begins in a life whose own close waits.
fn breaks_asked_closing(
    alloc: Global,
    journal: &[JournalItem],
    head: &Head,
) -> Result<bool, NoMemory>
    ensures { IfOk result (λ breaks. breaks ≡ breaks_asked_closing (history_of journal.now)
        head.now) }
{
    let count = life_now(alloc, head.channel, journal)?;
    Ok(begins_own(alloc, journal, head)? && has_own_close(alloc, head.channel, count, journal)?)
}

/// Whether the last thing that was sent is a SEQ of channel zero with this window.
fn follows_full_seq(window: u32, journal: &[JournalItem]) -> bool
    ensures { result ≡ follows_full_seq window (history_of journal.now) }
{
    match journal {
        [] => false,
        [JournalItem::Told(Side::Sent, seq), ..] => seq.channel == 0 && seq.window == window,
        [
            JournalItem::Began(Side::Sent, _) | JournalItem::Passed(Side::Sent, _, _),
            ..
        ] => false,
        [
            JournalItem::Began(Side::Received, _)
            | JournalItem::Passed(Side::Received, _, _)
            | JournalItem::Told(Side::Received, _),
            before @ ..,
        ] => follows_full_seq(window, before),
    }
}

/// Whether something else goes out beside an own tuning start.
fn breaks_beside_tuning(
    alloc: Global,
    terms: &Terms,
    tuning: &[StartPlace],
    journal: &[JournalItem],
    head: &Head,
) -> Result<bool, NoMemory>
    ensures { IfOk result (λ breaks. breaks ≡ breaks_beside_tuning terms.now
        (tunes_of tuning.now) (history_of journal.now) head.now) }
{
    let begins = begins_own(alloc, journal, head)?;
    if is_tuning(alloc, tuning, journal)? {
        return Ok(!(head.channel == 0 && head.kind.is_msg() && !begins));
    }
    let starts = head.channel == 0 && begins && tunes_next(alloc, tuning, journal)?;
    Ok(starts && !follows_full_seq(terms.window, journal))
}

/// What a header breaks that goes out.
#[tactic(auto, unfolding(crate::specs::Lawful::unlawful_head))]
pub fn unlawful_head(
    alloc: Global,
    terms: &Terms,
    tuning: &[StartPlace],
    journal: &[JournalItem],
    head: &Head,
) -> Result<Option<Breach>, NoMemory>
    ensures { IfOk result (λ breach. breach ≡ unlawful_head terms.now (tunes_of tuning.now)
        (history_of journal.now) head.now) }
{
    Ok(if is_apart(journal) {
        Some(Breach::Apart)
    } else if breaks_rule(alloc, tuning, journal, head)? {
        Some(Breach::Rule)
    } else if breaks_room(alloc, terms, journal, head)? {
        Some(Breach::Room)
    } else if breaks_own_number(alloc, journal, head)? {
        Some(Breach::OwnNumber)
    } else if breaks_asked_closing(alloc, journal, head)? {
        Some(Breach::AskedClosing)
    } else if breaks_beside_tuning(alloc, terms, tuning, journal, head)? {
        Some(Breach::BesideTuning)
    } else if breaks_after_end(alloc, tuning, journal)? {
        Some(Breach::AfterEnd)
    } else {
        None
    })
}
