//! The history of each life of a channel, by plain look-back over a journal, the latest item first.
//!
//! No session runs this: it is the definitions in code, slow, so that they can be tried on
//! examples.
ghost use Rattle.std.specs.Prelude.{◌≡◌, IfOk};
ghost use Rattle.beep_history.specs.Journal.{item_of, history_of};
ghost use Rattle.beep_journal.specs.Life.{life_now, life_under_way, is_of_life, life, is_there, history, is_released};

use crate::item::{copied, put_first};
use crate::of_lives::{has_release, is_live, live_life};
use crate::zero::{events, zero_history};
use beep_history::{JournalItem, Side};
use beep_octets::NoMemory;
use std::alloc::Global;

/// The count of the life of a number that is live, 0 where none is.
pub fn life_now(alloc: Global, number: u32, journal: &[JournalItem]) -> Result<usize, NoMemory>
    ensures { IfOk result (λ count. count ≡ life_now number (history_of journal.now)) }
{
    let events = events(alloc, journal)?;
    Ok(live_life(number, &events))
}

/// The count of the life of a number in which the last header of a side came.
pub fn life_under_way(
    alloc: Global,
    number: u32,
    side: Side,
    journal: &[JournalItem],
) -> Result<usize, NoMemory>
    ensures { IfOk result (λ count. count ≡ life_under_way number side (history_of journal.now)) }
{
    match journal {
        [] => Ok(0),
        [JournalItem::Began(by, head), before @ ..] => {
            if !side.is_same(*by) {
                life_under_way(alloc, number, side, before)
            } else if head.channel == number {
                life_now(alloc, number, before)
            } else {
                Ok(0)
            }
        }
        [JournalItem::Passed(..) | JournalItem::Told(..), before @ ..] => {
            life_under_way(alloc, number, side, before)
        }
    }
}

/// Whether an item belongs to the life of this number and count.
fn is_of_life(
    alloc: Global,
    number: u32,
    count: usize,
    item: &JournalItem,
    journal: &[JournalItem],
) -> Result<bool, NoMemory>
    ensures { IfOk result (λ is. is
        ≡ is_of_life number count (item_of item.now) (history_of journal.now)) }
{
    match item {
        JournalItem::Began(_, head) => {
            Ok(head.channel == number && life_now(alloc, number, journal)? == count)
        }
        JournalItem::Passed(by, head, _) => {
            Ok(head.channel == number && life_under_way(alloc, number, *by, journal)? == count)
        }
        JournalItem::Told(_, seq) => {
            Ok(seq.channel == number && life_now(alloc, number, journal)? == count)
        }
    }
}

/// The history of the life of this number and count.
pub fn life(
    alloc: Global,
    number: u32,
    count: usize,
    journal: &[JournalItem],
) -> Result<Vec<JournalItem>, NoMemory>
    ensures { IfOk result (λ past. history_of past.items
        ≡ life number count (history_of journal.now)) }
{
    match journal {
        [] => Ok(Vec::new(alloc)),
        [item, before @ ..] => {
            let mut past = life(alloc, number, count, before)?;
            if is_of_life(alloc, number, count, item, before)? {
                put_first(&mut past, copied(alloc, item)?)?;
            }
            Ok(past)
        }
    }
}

/// Whether the number is 0 or has a live life.
pub fn is_there(alloc: Global, number: u32, journal: &[JournalItem]) -> Result<bool, NoMemory>
    ensures { IfOk result (λ is. is ≡ is_there number (history_of journal.now)) }
{
    let events = events(alloc, journal)?;
    Ok(number == 0 || is_live(number, &events))
}

/// The history of the live life of a number; that of 0 is channel zero's.
pub fn history(
    alloc: Global,
    number: u32,
    journal: &[JournalItem],
) -> Result<Vec<JournalItem>, NoMemory>
    ensures { IfOk result (λ past. history_of past.items
        ≡ history number (history_of journal.now)) }
{
    if number == 0 {
        return zero_history(alloc, journal);
    }
    let count = life_now(alloc, number, journal)?;
    life(alloc, number, count, journal)
}

/// Whether a close of 0 was granted.
pub fn is_released(alloc: Global, journal: &[JournalItem]) -> Result<bool, NoMemory>
    ensures { IfOk result (λ is. is ≡ is_released (history_of journal.now)) }
{
    let events = events(alloc, journal)?;
    Ok(has_release(&events))
}
