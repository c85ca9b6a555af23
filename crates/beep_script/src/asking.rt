//! What an end asks on channel zero, by plain look-back over a journal.
//!
//! No session runs this: it is the definitions in code, slow, so that they can be tried on
//! examples.
ghost use Rattle.std.specs.Prelude.{◌≡◌, ◌++◌, [], ◌∷◌, IfOk, OnOk, None};
ghost use Rattle.beep_history.specs.Journal.{item_of, history_of};
ghost use Rattle.beep_frame.specs.declared.kind.Kind.{Kind};
ghost use Rattle.beep_talk.specs.Plan.{HasAllowedUris};
ghost use Rattle.beep_talk.specs.Plain.{plain_plan, plain_zeros};
ghost use Rattle.beep_talk.specs.AtZero.{zero_message, profile_of};
ghost use Rattle.beep_script.specs.Desk.{grants_own, ends_lines, asks_where, sender_asks, asks};

use beep_frame::Kind;
use beep_history::{JournalItem, Side};
use beep_journal::{completes_form, life, zero_history};
use beep_octets::NoMemory;
use beep_talk::{
    Command, Plan, Words, ZeroMessage, has_profile, life_under_way, position_of, put_last,
    zero_message,
};
use std::alloc::Global;

/// Whether an item passes the last frame of the positive reply to the own request at a position.
fn grants_own(
    alloc: Global,
    position: usize,
    item: &JournalItem,
    journal: &[JournalItem],
) -> Result<bool, NoMemory>
    ensures { IfOk result (λ grants. grants ≡ grants_own position (item_of item.now)
        (history_of journal.now)) }
{
    match item {
        JournalItem::Passed(Side::Received, head, payload) => {
            if head.channel != 0 || !head.kind.is_same(Kind::Rpy) || head.more {
                return Ok(false);
            }
            let zero = zero_history(alloc, journal)?;
            if position_of(Side::Received, &zero, head) != position {
                return Ok(false);
            }
            completes_form(alloc, Side::Received, head, payload, &zero)
        }
        JournalItem::Passed(Side::Sent, ..) | JournalItem::Began(..) | JournalItem::Told(..) => {
            Ok(false)
        }
    }
}

/// Whether an item passes the end of the answers to the listener's first request on channel 1.
fn ends_lines(
    alloc: Global,
    plan: &Plan,
    item: &JournalItem,
    journal: &[JournalItem],
) -> Result<bool, NoMemory>
    ensures { IfOk result (λ ends. ends ≡ ends_lines (plain_plan plan.now) (item_of item.now)
        (history_of journal.now)) }
{
    match item {
        JournalItem::Passed(Side::Sent, head, _) => {
            if !head.kind.is_nul() || head.more || head.channel != 1 {
                return Ok(false);
            }
            if life_under_way(alloc, 1, Side::Sent, journal)? != 1 {
                return Ok(false);
            }
            let past = life(alloc, 1, 1, journal)?;
            if position_of(Side::Sent, &past, head) != 0 {
                return Ok(false);
            }
            has_profile(alloc, &plan.raw_uri, 1, 1, journal)
        }
        JournalItem::Passed(Side::Received, ..) | JournalItem::Began(..) | JournalItem::Told(..) =>
            Ok(false),
    }
}

/// Appends the own request at a position that says this, where a test holds.
fn put_where(
    holds: bool,
    position: usize,
    words: Words,
    asked: &mut Vec<ZeroMessage>,
) -> Result<(), NoMemory>
    ensures ok { OnOk result (plain_zeros asked.new.items
        ≡ plain_zeros asked.old.items ++ asks_where holds position words) }
{
    if !holds {
        return Ok(());
    }
    put_last(asked, zero_message(Kind::Msg, position, words))
}

/// Appends the requests of a sender.
fn put_sender_asks(
    alloc: Global,
    plan: &Plan,
    item: &JournalItem,
    journal: &[JournalItem],
    asked: &mut Vec<ZeroMessage>,
) -> Result<(), NoMemory>
    requires uris { HasAllowedUris (plain_plan plan.now) }
    ensures ok { OnOk result (plain_zeros asked.new.items ≡ plain_zeros asked.old.items
        ++ sender_asks (plain_plan plan.now) (item_of item.now) (history_of journal.now)) }
{
    let start = Words::start(alloc, 1, plan.raw_uri.copy()?)?;
    put_where(grants_own(alloc, 0, item, journal)?, 1, start, asked)?;
    let close = Words::close(alloc, 1)?;
    put_where(ends_lines(alloc, plan, item, journal)?, 2, close, asked)?;
    let release = Words::close(alloc, 0)?;
    put_where(grants_own(alloc, 2, item, journal)?, 3, release, asked)
}

/// Appends what an item has an end ask.
pub(crate) fn put_asks(
    alloc: Global,
    plan: &Plan,
    item: &JournalItem,
    journal: &[JournalItem],
    asked: &mut Vec<ZeroMessage>,
) -> Result<(), NoMemory>
    requires uris { HasAllowedUris (plain_plan plan.now) }
    ensures ok { OnOk result (plain_zeros asked.new.items ≡ plain_zeros asked.old.items
        ++ asks plan.now.command (plain_plan plan.now) (item_of item.now)
        (history_of journal.now)) }
{
    match plan.command {
        Command::Send => put_sender_asks(alloc, plan, item, journal, asked),
        Command::Listen => Ok(()),
    }
}
