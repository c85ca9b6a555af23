//! Whether nothing of a script is due, by plain look-back over a journal.
//!
//! No session runs this: it is the definitions in code, slow, so that they can be tried on
//! examples.
ghost use Rattle.std.specs.Prelude.{◌≡◌, IfOk};
ghost use Rattle.std.specs.List.{list_all};
ghost use Rattle.beep_history.specs.Journal.{history_of};
ghost use Rattle.beep_talk.specs.Plan.{HasAllowedUris};
ghost use Rattle.beep_talk.specs.Plain.{plain_plan};
ghost use Rattle.beep_script.specs.Prompt.{is_settled_at, is_settled};

use crate::scripts::unsent_may_go;
use crate::standing_now::live_numbers;
use beep_history::JournalItem;
use beep_journal::is_there;
use beep_lawful::{due, open_octets};
use beep_octets::NoMemory;
use beep_talk::Plan;
use std::alloc::Global;

/// Whether nothing is due on the channel of a number.
fn is_settled_at(
    alloc: Global,
    plan: &Plan,
    journal: &[JournalItem],
    number: u32,
) -> Result<bool, NoMemory>
    requires uris { HasAllowedUris (plain_plan plan.now) }
    ensures { IfOk result (λ is. is ≡ is_settled_at (plain_plan plan.now)
        (history_of journal.now) number) }
{
    if due(alloc, plan.terms.window, 0, number, journal)?.is_some() {
        return Ok(false);
    }
    if !is_there(alloc, number, journal)? {
        return Ok(true);
    }
    let open_now = open_octets(alloc, number, journal)?;
    Ok(!unsent_may_go(alloc, plan, number, journal, open_now)?)
}

/// Whether nothing is due on the channels of these numbers.
fn are_settled(
    alloc: Global,
    plan: &Plan,
    journal: &[JournalItem],
    numbers: &[u32],
) -> Result<bool, NoMemory>
    requires uris { HasAllowedUris (plain_plan plan.now) }
    ensures { IfOk result (λ are. are ≡ list_all (is_settled_at (plain_plan plan.now)
        (history_of journal.now)) numbers.now) }
{
    match numbers {
        [] => Ok(true),
        [number, others @ ..] => {
            Ok(
                is_settled_at(alloc, plan, journal, *number)?
                    && are_settled(alloc, plan, journal, others)?,
            )
        }
    }
}

/// Whether nothing is due: no SEQ, and no message that may go.
pub fn is_settled(alloc: Global, plan: &Plan, journal: &[JournalItem]) -> Result<bool, NoMemory>
    requires uris { HasAllowedUris (plain_plan plan.now) }
    ensures { IfOk result (λ is. is ≡ is_settled (plain_plan plan.now) (history_of journal.now)) }
{
    let numbers = live_numbers(alloc, journal)?;
    Ok(is_settled_at(alloc, plan, journal, 0)? && are_settled(alloc, plan, journal, &numbers)?)
}
