//! How the peer refused an end, by plain look-back over a journal.
//!
//! No session runs this: it is the definitions in code, slow, so that they can be tried on
//! examples.
ghost use Rattle.std.specs.Prelude.{◌≡◌, IfOk};
ghost use Rattle.std.specs.Option.{option_copied};
ghost use Rattle.beep_history.specs.Journal.{item_of, history_of};
ghost use Rattle.beep_journal.specs.Plain.{form_in, events_of};
ghost use Rattle.beep_lawful.specs.Closing.{has_begun};
ghost use Rattle.beep_script.specs.Refused.{fault_code, close_code, refused_by, refused_at, refusal};

use beep_frame::{Head, Kind};
use beep_history::{JournalItem, Side, request_count};
use beep_journal::{LifeEvent, completed, events, is_live, zero_history};
use beep_mgmt::Mgmt;
use beep_octets::NoMemory;
use beep_talk::Command;
use std::alloc::Global;

/// The code of an error.
fn fault_code(said: Option<&Mgmt>) -> Option<u16>
    ensures { result ≡ fault_code (form_in (option_copied said.entry)) }
{
    match said {
        Some(Mgmt::Fault { code, .. }) => Some(*code),
        Some(
            Mgmt::Greeting { .. }
            | Mgmt::Start { .. }
            | Mgmt::Chosen { .. }
            | Mgmt::Close { .. }
            | Mgmt::Okay,
        )
        | None => None,
    }
}

/// The code of a close of 0, or of channel 1 where that is live.
fn close_code(events: &[LifeEvent], said: Option<&Mgmt>) -> Option<u16>
    ensures { result ≡ close_code (events_of events.now) (form_in (option_copied said.entry)) }
{
    match said {
        Some(Mgmt::Close { number, code, .. }) => {
            if *number == 0 || (*number == 1 && is_live(1, events)) {
                Some(*code)
            } else {
                None
            }
        }
        Some(
            Mgmt::Greeting { .. }
            | Mgmt::Start { .. }
            | Mgmt::Chosen { .. }
            | Mgmt::Okay
            | Mgmt::Fault { .. },
        )
        | None => None,
    }
}

/// Whether the own request of channel zero at this position has begun.
fn has_begun(alloc: Global, position: usize, journal: &[JournalItem]) -> Result<bool, NoMemory>
    ensures { IfOk result (λ has. has ≡ has_begun position (history_of journal.now)) }
{
    let zero = zero_history(alloc, journal)?;
    Ok(position < request_count(Side::Sent, &zero))
}

/// The code with which a whole message of the peer on channel zero refuses an end.
fn refused_by(
    alloc: Global,
    command: Command,
    head: &Head,
    said: Option<&Mgmt>,
    journal: &[JournalItem],
) -> Result<Option<u16>, NoMemory>
    ensures { IfOk result (λ code. code ≡ refused_by command head.now
        (form_in (option_copied said.entry)) (history_of journal.now)) }
{
    if head.kind.is_same(Kind::Err) {
        return Ok(fault_code(said));
    }
    match command {
        Command::Send => {
            if !head.kind.is_msg() || has_begun(alloc, 2, journal)? {
                return Ok(None);
            }
            let moments = events(alloc, journal)?;
            Ok(close_code(&moments, said))
        }
        Command::Listen => Ok(None),
    }
}

/// The code with which an item refuses an end.
fn refused_at(
    alloc: Global,
    command: Command,
    item: &JournalItem,
    journal: &[JournalItem],
) -> Result<Option<u16>, NoMemory>
    ensures { IfOk result (λ code. code ≡ refused_at command (item_of item.now)
        (history_of journal.now)) }
{
    match item {
        JournalItem::Passed(Side::Received, head, payload) => {
            if head.channel != 0 || head.more {
                return Ok(None);
            }
            let zero = zero_history(alloc, journal)?;
            let said = completed(alloc, Side::Received, payload, &zero)?;
            refused_by(alloc, command, head, said.as_ref(), journal)
        }
        JournalItem::Passed(Side::Sent, ..) | JournalItem::Began(..) | JournalItem::Told(..) => {
            Ok(None)
        }
    }
}

/// The code with which the peer first refused an end, where it did.
pub fn refusal(
    alloc: Global,
    command: Command,
    journal: &[JournalItem],
) -> Result<Option<u16>, NoMemory>
    ensures { IfOk result (λ code. code ≡ refusal command (history_of journal.now)) }
{
    match journal {
        [] => Ok(None),
        [item, before @ ..] => match refusal(alloc, command, before)? {
            Some(code) => Ok(Some(code)),
            None => refused_at(alloc, command, item, before),
        },
    }
}
