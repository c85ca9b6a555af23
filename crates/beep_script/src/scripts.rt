//! The messages that an end has to have given, life by life, by plain look-back over a journal.
//!
//! No session runs this: it is the definitions in code, slow, so that they can be tried on
//! examples.
ghost use Rattle.std.specs.Prelude.{◌≡◌, map, drop, flat_map, IfOk};
ghost use Rattle.beep_history.specs.Journal.{history_of};
ghost use Rattle.beep_lawful.specs.Due.{may_go};
ghost use Rattle.beep_talk.specs.Plan.{HasAllowedUris};
ghost use Rattle.beep_talk.specs.Plain.{plain_plan, plain_zeros, plain_messages};
ghost use Rattle.beep_script.specs.Script.{whole_message, script, message_marks, unsent};

use crate::desks::desk;
use beep_history::{JournalItem, Side};
use beep_journal::{history, life_now};
use beep_octets::{NoMemory, Octets};
use beep_talk::{Message, Plan, ZeroMessage, mark_count, talk};
use std::alloc::Global;

/// The messages of channel zero with their octets.
fn whole_messages(alloc: Global, listed: &[ZeroMessage]) -> Result<Vec<Message>, NoMemory>
    ensures { IfOk result (λ messages. plain_messages messages.items
        ≡ map whole_message (plain_zeros listed.now)) }
{
    match listed {
        [] => Ok(Vec::new(alloc)),
        [one, others @ ..] => {
            let mut messages = whole_messages(alloc, others)?;
            let mut content = Octets::new(alloc);
            content.extend(one.words.text())?;
            let first = Message {
                tag: one.tag,
                content,
            };
            match messages.insert(0, first) {
                Ok(()) => Ok(messages),
                Err(_) => Err(NoMemory),
            }
        }
    }
}

/// The messages of the life of this number and count; 0 is channel zero, whatever the count.
pub fn script(
    alloc: Global,
    plan: &Plan,
    number: u32,
    count: usize,
    journal: &[JournalItem],
) -> Result<Vec<Message>, NoMemory>
    requires uris { HasAllowedUris (plain_plan plan.now) }
    ensures { IfOk result (λ messages. plain_messages messages.items
        ≡ script (plain_plan plan.now) number count (history_of journal.now)) }
{
    if number == 0 {
        let now = desk(alloc, plan, journal)?;
        return whole_messages(alloc, &now.listed);
    }
    talk(alloc, plan, number, count, journal)
}

/// Whether of the marks of these messages the first may go after so many, where so many octets are
/// open.
fn may_go(messages: &[Message], sent: u128, open_octets: u128) -> bool
    ensures { result ≡ may_go open_octets
        (drop sent (flat_map message_marks (plain_messages messages.now))) }
{
    match messages {
        [] => false,
        [message, others @ ..] => {
            let size = message.content.len() as u128;
            if sent < size {
                0 < open_octets
            } else if sent == size {
                true
            } else {
                may_go(others, sent - size - 1, open_octets)
            }
        }
    }
}

/// Whether of the script of the live life of a number something hasn't passed that may go, where so
/// many octets are open.
pub(crate) fn unsent_may_go(
    alloc: Global,
    plan: &Plan,
    number: u32,
    journal: &[JournalItem],
    open_octets: u128,
) -> Result<bool, NoMemory>
    requires uris { HasAllowedUris (plain_plan plan.now) }
    ensures { IfOk result (λ may. may ≡ may_go open_octets
        (unsent (plain_plan plan.now) number (history_of journal.now))) }
{
    let past = history(alloc, number, journal)?;
    let count = life_now(alloc, number, journal)?;
    let messages = script(alloc, plan, number, count, journal)?;
    Ok(may_go(&messages, mark_count(Side::Sent, &past), open_octets))
}
