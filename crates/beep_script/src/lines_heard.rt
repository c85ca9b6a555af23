//! The lines that a listener writes, by plain look-back over a journal.
//!
//! No session runs this: it is the definitions in code, slow, so that they can be tried on
//! examples.
ghost use Rattle.std.specs.Prelude.{◌≡◌, ◌≤◌, ◌++◌, length, drop, flat_map, IfOk, OnOk};
ghost use Rattle.beep_history.specs.Journal.{item_of, history_of};
ghost use Rattle.prof_raw.specs.Line.{line_of};
ghost use Rattle.beep_talk.specs.Plain.{plain_plan};
ghost use Rattle.beep_script.specs.Lines.{ends_answer, content_with, heard_at, entries_in, entries, lines};

use beep_frame::Head;
use beep_history::{JournalItem, Side};
use beep_journal::{life, life_now};
use beep_mime::body;
use beep_octets::{NoMemory, Octets};
use beep_talk::{Plan, gathered, has_profile, life_under_way, line_at, position_of, tag_of};
use prof_raw::{Entries, entries as entries_of, line_room, write_line};
use std::alloc::Global;

/// Whether a frame of the peer completes an answer to the first request of a life of RAW.
fn ends_answer(
    alloc: Global,
    plan: &Plan,
    head: &Head,
    journal: &[JournalItem],
) -> Result<bool, NoMemory>
    ensures { IfOk result (λ ends. ends ≡ ends_answer (plain_plan plan.now) head.now
        (history_of journal.now)) }
{
    if !head.kind.is_ans() || head.more {
        return Ok(false);
    }
    let count = life_now(alloc, head.channel, journal)?;
    if life_under_way(alloc, head.channel, Side::Received, journal)? != count {
        return Ok(false);
    }
    let past = life(alloc, head.channel, count, journal)?;
    if position_of(Side::Received, &past, head) != 0 {
        return Ok(false);
    }
    has_profile(alloc, &plan.raw_uri, head.channel, count, journal)
}

/// The octets of the message that a frame of the peer completes.
fn content_with(
    alloc: Global,
    head: &Head,
    payload: &Octets,
    past: &[JournalItem],
) -> Result<Octets, NoMemory>
    ensures { IfOk result (λ content. content.octets
        ≡ content_with head.now payload.now.octets (history_of past.now)) }
{
    let tag = tag_of(Side::Received, past, head);
    let mut content = gathered(alloc, Side::Received, &tag, past)?;
    content.extend(payload.as_slice())?;
    Ok(content)
}

/// Appends the entries from a place on.
fn put_entries(more: &Entries, from: usize, list: &mut Entries) -> Result<(), NoMemory>
    requires within { from ≤ length more.now }
    ensures ok { OnOk result (list.new ≡ list.old ++ drop from more.now) }
{
    if more.len() <= from {
        return Ok(());
    }
    list.push(line_at(more, from))?;
    put_entries(more, from + 1, list)
}

/// Appends the entries of the answer that an item completes, where it does.
fn put_entries_at(
    alloc: Global,
    plan: &Plan,
    item: &JournalItem,
    journal: &[JournalItem],
    list: &mut Entries,
) -> Result<(), NoMemory>
    ensures ok { OnOk result (list.new ≡ list.old
        ++ entries_in (heard_at (plain_plan plan.now) (item_of item.now)
        (history_of journal.now))) }
{
    match item {
        JournalItem::Passed(Side::Received, head, payload) => {
            if !ends_answer(alloc, plan, head, journal)? {
                return Ok(());
            }
            let count = life_now(alloc, head.channel, journal)?;
            let past = life(alloc, head.channel, count, journal)?;
            let content = content_with(alloc, head, payload, &past)?;
            let more = entries_of(alloc, body(content.as_slice()))?;
            put_entries(&more, 0, list)
        }
        JournalItem::Passed(Side::Sent, ..) | JournalItem::Began(..) | JournalItem::Told(..) => {
            Ok(())
        }
    }
}

/// The entries that came, in the order in which the last frames of their answers passed.
pub fn entries(alloc: Global, plan: &Plan, journal: &[JournalItem]) -> Result<Entries, NoMemory>
    ensures { IfOk result (λ list. list ≡ entries (plain_plan plan.now)
        (history_of journal.now)) }
{
    match journal {
        [] => Ok(Entries::new(alloc)),
        [item, before @ ..] => {
            let mut list = entries(alloc, plan, before)?;
            put_entries_at(alloc, plan, item, before, &mut list)?;
            Ok(list)
        }
    }
}

/// Appends the lines of the entries from a place on.
fn put_lines(list: &Entries, from: usize, out: &mut Octets) -> Result<(), NoMemory>
    requires within { from ≤ length list.now }
    ensures ok { OnOk result (out.new.octets
        ≡ out.old.octets ++ flat_map line_of (drop from list.now)) }
{
    if list.len() <= from {
        return Ok(());
    }
    let entry = line_at(list, from);
    out.reserve(line_room(entry.len()))?;
    write_line(entry, out);
    put_lines(list, from + 1, out)
}

/// The lines of these entries.
pub fn lines(alloc: Global, plan: &Plan, journal: &[JournalItem]) -> Result<Octets, NoMemory>
    ensures { IfOk result (λ text. text.octets
        ≡ lines (plain_plan plan.now) (history_of journal.now)) }
{
    let list = entries(alloc, plan, journal)?;
    let mut out = Octets::new(alloc);
    put_lines(&list, 0, &mut out)?;
    Ok(out)
}
