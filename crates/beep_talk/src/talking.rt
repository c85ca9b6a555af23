//! What an end has to say in a life of a channel above zero, by plain look-back over a journal.
//!
//! No session runs this: it is the definitions in code, slow, so that they can be tried on
//! examples.
ghost use Rattle.std.specs.Prelude.{◌≡◌, ◌≤◌, ◌<◌, ◌+◌, [], ◌∷◌, ◌++◌, length, drop, if◌then◌else◌, IfOk, OnOk};
ghost use Rattle.std.specs.Option.{option_copied};
ghost use Rattle.beep_history.specs.Journal.{item_of, history_of};
ghost use Rattle.beep_journal.specs.Plain.{form_in, events_of};
ghost use Rattle.beep_journal.specs.Zero.{events};
ghost use Rattle.beep_mgmt.specs.Message.{message_text};
ghost use Rattle.beep_talk.specs.Plain.{plain_plan, plain_message, plain_messages};
ghost use Rattle.beep_talk.specs.Talk.{message_of, says_profile, chooses, begins_with, has_profile, ready, answers_from, nul, refusal, reply_of, has_peer_release, asked_first, ends_request, replied, called_for, talk};

use crate::look::{life_under_way, position_of};
use crate::message::{Message, message_of, put_last};
use crate::plan::{Command, Plan};
use crate::words::Words;
use beep_chars::Text;
use beep_frame::{Head, Kind};
use beep_history::{JournalItem, Side};
use beep_journal::{LifeEvent, completed, events, life, life_now, lives, zero_history};
use beep_lawful::MESSAGE_NUMBERS;
use beep_mgmt::{Mgmt, NOT_TAKEN};
use beep_octets::{NoMemory, Octets};
use prof_raw::{Entries, entry_body};
use std::alloc::Global;

/// What a listener asks: an empty MIME header, and a word of its own.
const READY: &[u8] = b"\r\nready\r\n";

/// Whether a message says that this profile is chosen.
fn says_profile(uri: &Text, said: Option<&Mgmt>) -> bool
    ensures { result ≡ says_profile uri.now (form_in (option_copied said.entry)) }
{
    match said {
        Some(Mgmt::Chosen { profile }) => profile.uri.same(uri),
        Some(
            Mgmt::Greeting { .. }
            | Mgmt::Start { .. }
            | Mgmt::Close { .. }
            | Mgmt::Okay
            | Mgmt::Fault { .. },
        )
        | None => false,
    }
}

/// Whether an item passes the last frame of a message of channel zero that says so.
fn chooses(
    alloc: Global,
    uri: &Text,
    item: &JournalItem,
    journal: &[JournalItem],
) -> Result<bool, NoMemory>
    ensures { IfOk result (λ is. is ≡ chooses uri.now (item_of item.now)
        (history_of journal.now)) }
{
    match item {
        JournalItem::Passed(by, head, payload) => {
            if head.channel != 0 || head.more {
                return Ok(false);
            }
            let zero = zero_history(alloc, journal)?;
            let said = completed(alloc, *by, payload, &zero)?;
            Ok(says_profile(uri, said.as_ref()))
        }
        JournalItem::Began(..) | JournalItem::Told(..) => Ok(false),
    }
}

/// Whether the life of this number and count begins with this profile as an item happens, which
/// makes this journal of the one before it.
fn begins_with(
    alloc: Global,
    uri: &Text,
    number: u32,
    count: usize,
    item: &JournalItem,
    before: &[JournalItem],
    journal: &[JournalItem],
) -> Result<bool, NoMemory>
    requires latest { history_of journal.now ≡ item_of item.now ∷ history_of before.now }
    ensures { IfOk result (λ is. is ≡ begins_with uri.now number count (item_of item.now)
        (history_of before.now)) }
{
    if !chooses(alloc, uri, item, before)? {
        return Ok(false);
    }
    let earlier = lives(number, &events(alloc, before)?);
    let now = lives(number, &events(alloc, journal)?);
    Ok(count.checked_sub(1) == Some(earlier) && earlier < now)
}

/// Whether the life of this number and count began with this profile.
pub fn has_profile(
    alloc: Global,
    uri: &Text,
    number: u32,
    count: usize,
    journal: &[JournalItem],
) -> Result<bool, NoMemory>
    ensures { IfOk result (λ has. has ≡ has_profile uri.now number count
        (history_of journal.now)) }
{
    match journal {
        [] => Ok(false),
        [item, before @ ..] => {
            if begins_with(alloc, uri, number, count, item, before, journal)? {
                return Ok(true);
            }
            has_profile(alloc, uri, number, count, before)
        }
    }
}

/// Appends what a listener asks.
fn put_ready(alloc: Global, said: &mut Vec<Message>) -> Result<(), NoMemory>
    ensures { OnOk result (plain_messages said.new.items
        ≡ plain_messages said.old.items ++ ready ∷ []) }
{
    let mut content = Octets::new(alloc);
    content.extend(READY)?;
    put_last(said, message_of(Kind::Msg, 0, 0, content))
}

/// Appends an answer for each line from a place on.
fn put_answers(
    alloc: Global,
    position: usize,
    lines: &Entries,
    from: usize,
    said: &mut Vec<Message>,
) -> Result<(), NoMemory>
    requires within { from ≤ length lines.now }
    ensures { OnOk result (plain_messages said.new.items ≡ plain_messages said.old.items
        ++ answers_from position from (drop from lines.now)) }
{
    if lines.len() <= from {
        return Ok(());
    }
    let mut content = Octets::new(alloc);
    entry_body(line_at(lines, from), &mut content)?;
    let ansno = (from % MESSAGE_NUMBERS as usize) as u32;
    put_last(said, message_of(Kind::Ans, position, ansno, content))?;
    put_answers(alloc, position, lines, from + 1, said)
}

/// The line at a place.
pub fn line_at(lines: &Entries, place: usize) -> &[u8]
    requires { place < length lines.now }
    ensures { drop place lines.now ≡ result.now ∷ drop (place + 1) lines.now }
{
    match lines.get(place) {
        Some(line) => line,
        None => &[],
    }
}

/// Appends the end of the answers to a request.
fn put_nul(alloc: Global, position: usize, said: &mut Vec<Message>) -> Result<(), NoMemory>
    ensures { OnOk result (plain_messages said.new.items
        ≡ plain_messages said.old.items ++ nul position ∷ []) }
{
    put_last(said, message_of(Kind::Nul, position, 0, Octets::new(alloc)))
}

/// Appends a message that says this, to the request at a position.
fn put_words(
    alloc: Global,
    kind: Kind,
    position: usize,
    words: &Words,
    said: &mut Vec<Message>,
) -> Result<(), NoMemory>
    ensures { OnOk result (plain_messages said.new.items ≡ plain_messages said.old.items
        ++ message_of kind position 0 (message_text words.now) ∷ []) }
{
    let mut content = Octets::new(alloc);
    content.extend(words.text())?;
    put_last(said, message_of(kind, position, 0, content))
}

/// Appends the refusal of a request.
fn put_refusal(alloc: Global, position: usize, said: &mut Vec<Message>) -> Result<(), NoMemory>
    ensures { OnOk result (plain_messages said.new.items
        ≡ plain_messages said.old.items ++ refusal position ∷ []) }
{
    let words = Words::refusal(alloc, NOT_TAKEN)?;
    put_words(alloc, Kind::Err, position, &words, said)
}

/// Appends the reply to the request at a position.
fn put_reply(
    alloc: Global,
    command: Command,
    lines: &Entries,
    position: usize,
    said: &mut Vec<Message>,
) -> Result<(), NoMemory>
    ensures { OnOk result (plain_messages said.new.items
        ≡ plain_messages said.old.items ++ reply_of command lines.now position) }
{
    match command {
        Command::Send => {
            if position == 0 {
                put_answers(alloc, position, lines, 0, said)?;
            }
            put_nul(alloc, position, said)
        }
        Command::Listen => put_refusal(alloc, position, said),
    }
}

/// Whether a close of 0 by the peer is among these moments.
fn has_peer_release(events: &[LifeEvent]) -> bool
    ensures { result ≡ has_peer_release (events_of events.now) }
{
    match events {
        [] => false,
        [LifeEvent::CloseCame(side, _, number), before @ ..] => {
            (side.is_same(Side::Received) && *number == 0) || has_peer_release(before)
        }
        [
            LifeEvent::StartGranted(..) | LifeEvent::CloseGranted(..),
            before @ ..,
        ] => has_peer_release(before),
    }
}

/// Appends what is asked as a life begins after this journal.
fn put_first_asked(
    alloc: Global,
    command: Command,
    journal: &[JournalItem],
    said: &mut Vec<Message>,
) -> Result<(), NoMemory>
    ensures { OnOk result (plain_messages said.new.items ≡ plain_messages said.old.items
        ++ asked_first command (events (history_of journal.now))) }
{
    match command {
        Command::Send => Ok(()),
        Command::Listen => {
            if has_peer_release(&events(alloc, journal)?) {
                return Ok(());
            }
            put_ready(alloc, said)
        }
    }
}

/// Whether the last frame of a request of the peer passes in this life, while that is live.
fn ends_request(
    alloc: Global,
    number: u32,
    count: usize,
    head: &Head,
    journal: &[JournalItem],
) -> Result<bool, NoMemory>
    ensures { IfOk result (λ ends. ends ≡ ends_request number count head.now
        (history_of journal.now)) }
{
    if !head.kind.is_msg() || head.more || head.channel != number {
        return Ok(false);
    }
    if life_under_way(alloc, number, Side::Received, journal)? != count {
        return Ok(false);
    }
    Ok(life_now(alloc, number, journal)? == count)
}

/// Appends the reply to the request that an item completes in a life, where the profile is RAW.
fn put_replied(
    alloc: Global,
    plan: &Plan,
    number: u32,
    count: usize,
    item: &JournalItem,
    journal: &[JournalItem],
    said: &mut Vec<Message>,
) -> Result<(), NoMemory>
    ensures { OnOk result (plain_messages said.new.items ≡ plain_messages said.old.items
        ++ replied (plain_plan plan.now) number count (item_of item.now)
        (history_of journal.now)) }
{
    match item {
        JournalItem::Passed(Side::Received, head, _) => {
            if !ends_request(alloc, number, count, head, journal)?
                || !has_profile(alloc, &plan.raw_uri, number, count, journal)?
            {
                return Ok(());
            }
            let past = life(alloc, number, count, journal)?;
            let position = position_of(Side::Received, &past, head);
            put_reply(alloc, plan.command, &plan.lines, position, said)
        }
        JournalItem::Passed(Side::Sent, ..) | JournalItem::Began(..) | JournalItem::Told(..) => {
            Ok(())
        }
    }
}

/// Appends what an item calls for in a life, which makes this journal of the one before it.
fn put_called_for(
    alloc: Global,
    plan: &Plan,
    number: u32,
    count: usize,
    item: &JournalItem,
    before: &[JournalItem],
    journal: &[JournalItem],
    said: &mut Vec<Message>,
) -> Result<(), NoMemory>
    requires latest { history_of journal.now ≡ item_of item.now ∷ history_of before.now }
    ensures { OnOk result (plain_messages said.new.items ≡ plain_messages said.old.items
        ++ called_for (plain_plan plan.now) number count (item_of item.now)
        (history_of before.now)) }
{
    if begins_with(alloc, &plan.raw_uri, number, count, item, before, journal)? {
        put_first_asked(alloc, plan.command, before, said)?;
    }
    put_replied(alloc, plan, number, count, item, before, said)
}

/// What an end has to say in the life of this number and count, in the order in which it is called
/// for.
pub fn talk(
    alloc: Global,
    plan: &Plan,
    number: u32,
    count: usize,
    journal: &[JournalItem],
) -> Result<Vec<Message>, NoMemory>
    ensures { IfOk result (λ said. plain_messages said.items
        ≡ talk (plain_plan plan.now) number count (history_of journal.now)) }
{
    match journal {
        [] => Ok(Vec::new(alloc)),
        [item, before @ ..] => {
            let mut said = talk(alloc, plan, number, count, before)?;
            put_called_for(alloc, plan, number, count, item, before, journal, &mut said)?;
            Ok(said)
        }
    }
}
