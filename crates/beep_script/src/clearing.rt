//! Whether an answer waits for something, by plain look-back over a journal and what is listed.
//!
//! No session runs this: it is the definitions in code, slow, so that they can be tried on
//! examples.
ghost use Rattle.std.specs.Prelude.{◌≡◌, ◌≤◌, length, IfOk};
ghost use Rattle.std.specs.List.{list_all, prefix_len};
ghost use Rattle.beep_history.specs.Journal.{history_of};
ghost use Rattle.beep_journal.specs.Life.{life_now};
ghost use Rattle.beep_talk.specs.Plain.{plain_plan, plain_zeros, plain_answer, plain_answers};
ghost use Rattle.beep_script.specs.Desk.{is_said, is_free, are_free, is_clear_of, is_clear};

use crate::standing_now::{has_listed_other, live_numbers};
use beep_history::{JournalItem, Side};
use beep_journal::{events, has_ended, life, life_named, life_now, zero_history};
use beep_octets::NoMemory;
use beep_talk::{OwedAnswer, Plan, ZeroMessage, is_drained, message_count, talk};
use std::alloc::Global;

/// Whether each message that an end has to say in a life has wholly passed.
fn is_said(
    alloc: Global,
    plan: &Plan,
    number: u32,
    count: usize,
    journal: &[JournalItem],
) -> Result<bool, NoMemory>
    ensures { IfOk result (λ is. is ≡ is_said (plain_plan plan.now) number count
        (history_of journal.now)) }
{
    let past = life(alloc, number, count, journal)?;
    let messages = talk(alloc, plan, number, count, journal)?;
    Ok(message_count(Side::Sent, &past) == messages.len())
}

/// Whether a life has ended, or is drained and nothing is left to say in it.
fn is_free(
    alloc: Global,
    plan: &Plan,
    number: u32,
    count: usize,
    journal: &[JournalItem],
) -> Result<bool, NoMemory>
    ensures { IfOk result (λ is. is ≡ is_free (plain_plan plan.now) number count
        (history_of journal.now)) }
{
    if count == 0 || has_ended(number, count, &events(alloc, journal)?) {
        return Ok(true);
    }
    let past = life(alloc, number, count, journal)?;
    Ok(is_drained(&past) && is_said(alloc, plan, number, count, journal)?)
}

/// Whether the live life of each of these numbers is free.
fn are_free_among(
    alloc: Global,
    plan: &Plan,
    numbers: &[u32],
    journal: &[JournalItem],
) -> Result<bool, NoMemory>
    ensures { IfOk result (λ are. are ≡ list_all (λ number. is_free (plain_plan plan.now) number
        (life_now number (history_of journal.now)) (history_of journal.now)) numbers.now) }
{
    match numbers {
        [] => Ok(true),
        [number, others @ ..] => {
            let count = life_now(alloc, *number, journal)?;
            Ok(
                is_free(alloc, plan, *number, count, journal)?
                    && are_free_among(alloc, plan, others, journal)?,
            )
        }
    }
}

/// Whether each live life is free, and no own request waits but closes of 0.
fn are_free(
    alloc: Global,
    plan: &Plan,
    listed: &[ZeroMessage],
    journal: &[JournalItem],
) -> Result<bool, NoMemory>
    ensures { IfOk result (λ are. are ≡ are_free (plain_plan plan.now) (plain_zeros listed.now)
        (history_of journal.now)) }
{
    let numbers = live_numbers(alloc, journal)?;
    let zero = zero_history(alloc, journal)?;
    Ok(are_free_among(alloc, plan, &numbers, journal)? && !has_listed_other(&zero, listed))
}

/// Whether an answer waits for nothing.
fn is_clear(
    alloc: Global,
    plan: &Plan,
    listed: &[ZeroMessage],
    journal: &[JournalItem],
    answer: &OwedAnswer,
) -> Result<bool, NoMemory>
    ensures { IfOk result (λ is. is ≡ is_clear (plain_plan plan.now) (plain_zeros listed.now)
        (history_of journal.now) (plain_answer answer.now)) }
{
    let Some(number) = answer.closes else {
        return Ok(true);
    };
    if number == 0 {
        return are_free(alloc, plan, listed, journal);
    }
    let moments = events(alloc, journal)?;
    let count = life_named(number, Side::Received, answer.position, &moments);
    is_free(alloc, plan, number, count, journal)
}

/// How many of these answers wait for nothing, up to the first that waits.
pub(crate) fn clear_count(
    alloc: Global,
    plan: &Plan,
    listed: &[ZeroMessage],
    journal: &[JournalItem],
    answers: &[OwedAnswer],
) -> Result<usize, NoMemory>
    ensures value { IfOk result (λ count. count ≡ prefix_len (is_clear (plain_plan plan.now)
        (plain_zeros listed.now) (history_of journal.now)) (plain_answers answers.now)) }
    ensures within { IfOk result (λ count. count ≤ length answers.now) }
{
    match answers {
        [] => Ok(0),
        [answer, others @ ..] => {
            if is_clear(alloc, plan, listed, journal, answer)? {
                Ok(clear_count(alloc, plan, listed, journal, others)? + 1)
            } else {
                Ok(0)
            }
        }
    }
}
