//! What a thing breaks that an end sends, item by item over a journal, the latest first.
//!
//! No session runs this: it is the definitions in code, slow, so that they can be tried on
//! examples.
ghost use Rattle.std.specs.Prelude.{◌≡◌, IfOk};
ghost use Rattle.beep_history.specs.Journal.{item_of, history_of};
ghost use Rattle.beep_journal.specs.Plain.{tunes_of};
ghost use Rattle.beep_lawful.specs.Lawful.{unlawful_item, is_lawful};

use crate::breach::Breach;
use crate::frames::unlawful_frame;
use crate::heads::unlawful_head;
use crate::seqs::unlawful_seq;
use crate::terms::Terms;
use beep_history::{JournalItem, Side};
use beep_journal::StartPlace;
use beep_octets::NoMemory;
use std::alloc::Global;

/// What an item breaks first that comes after those of a journal, where these starts are tuning. An
/// item that was received breaks nothing.
pub fn unlawful_item(
    alloc: Global,
    terms: &Terms,
    tuning: &[StartPlace],
    journal: &[JournalItem],
    item: &JournalItem,
) -> Result<Option<Breach>, NoMemory>
    ensures { IfOk result (λ breach. breach ≡ unlawful_item terms.now (tunes_of tuning.now)
        (history_of journal.now) (item_of item.now)) }
{
    match item {
        JournalItem::Began(Side::Sent, head) => unlawful_head(alloc, terms, tuning, journal, head),
        JournalItem::Passed(Side::Sent, head, payload) => {
            unlawful_frame(alloc, terms, tuning, journal, head, payload)
        }
        JournalItem::Told(Side::Sent, seq) => unlawful_seq(alloc, terms, tuning, journal, seq),
        JournalItem::Began(Side::Received, _)
        | JournalItem::Passed(Side::Received, _, _)
        | JournalItem::Told(Side::Received, _) => Ok(None),
    }
}

/// Whether each item of a journal breaks nothing, over those before it.
pub fn is_lawful(
    alloc: Global,
    terms: &Terms,
    tuning: &[StartPlace],
    journal: &[JournalItem],
) -> Result<bool, NoMemory>
    ensures { IfOk result (λ is. is ≡ is_lawful terms.now (tunes_of tuning.now)
        (history_of journal.now)) }
{
    match journal {
        [] => Ok(true),
        [item, before @ ..] => {
            Ok(
                unlawful_item(alloc, terms, tuning, before, item)?.is_none()
                    && is_lawful(alloc, terms, tuning, before)?,
            )
        }
    }
}
