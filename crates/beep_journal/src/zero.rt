//! What channel zero says, by plain look-back over its history, the latest item first.
//!
//! No session runs this: it is the definitions in code, slow, so that they can be tried on
//! examples.
ghost use Rattle.std.specs.Prelude.{◌≡◌, ◌≤◌, ◌++◌, length, map, IfOk, IsTrue, option_map};
ghost use Rattle.std.specs.Option.{option_copied};
ghost use Rattle.beep_frame.specs.Frame.{is_reply};
ghost use Rattle.beep_history.specs.Marks.{position_of};
ghost use Rattle.beep_history.specs.Journal.{history_of, other};
ghost use Rattle.beep_mgmt.specs.Form.{form_of};
ghost use Rattle.beep_mgmt.specs.Message.{message_said};
ghost use Rattle.beep_journal.specs.Zero.{zero_history, gathered, asked, said_at, completes_form, coming, granting, effect, zero_events, events};
ghost use Rattle.beep_journal.specs.Plain.{forms_of, form_in, events_of, events_in};

use crate::event::LifeEvent;
use crate::form::has_form;
use crate::item::{channel_of, copied, opening, put_first};
use beep_frame::{Head, Kind};
use beep_history::{JournalItem, Side, latest_request};
use beep_mgmt::{Mgmt, MgmtError, read_mgmt};
use beep_octets::{NoMemory, Octets};
use std::alloc::Global;

/// The history of channel zero in a journal.
pub fn zero_history(alloc: Global, journal: &[JournalItem]) -> Result<Vec<JournalItem>, NoMemory>
    ensures { IfOk result (λ zero. history_of zero.items ≡ zero_history (history_of journal.now)) }
{
    match journal {
        [] => opening(alloc),
        [item, before @ ..] => {
            let mut zero = zero_history(alloc, before)?;
            if channel_of(item) == 0 {
                put_first(&mut zero, copied(alloc, item)?)?;
            }
            Ok(zero)
        }
    }
}

/// The octets of the message of a side that is under way.
pub fn gathered(alloc: Global, side: Side, zero: &[JournalItem]) -> Result<Octets, NoMemory>
    ensures { IfOk result (λ octets. octets.octets ≡ gathered side (history_of zero.now)) }
{
    match zero {
        [] => Ok(Octets::new(alloc)),
        [JournalItem::Passed(by, head, payload), before @ ..] => {
            if !side.is_same(*by) {
                gathered(alloc, side, before)
            } else if head.more {
                let mut octets = gathered(alloc, side, before)?;
                octets.extend(payload.as_slice())?;
                Ok(octets)
            } else {
                Ok(Octets::new(alloc))
            }
        }
        [JournalItem::Began(..) | JournalItem::Told(..), before @ ..] => {
            gathered(alloc, side, before)
        }
    }
}

/// What a whole message says, if it can be read.
pub fn message_said(alloc: Global, payload: &[u8]) -> Result<Option<Mgmt>, NoMemory>
    ensures { IfOk result (λ said. option_map form_of said ≡ message_said payload.now) }
{
    match read_mgmt(alloc, payload) {
        Ok(said) => Ok(Some(said)),
        Err(MgmtError::NoMemory) => Err(NoMemory),
        Err(
            MgmtError::Malformed(_) | MgmtError::Entity(_) | MgmtError::TooLong | MgmtError::Shape,
        ) => Ok(None),
    }
}

/// What the message says that a frame of this side completes.
pub fn completed(
    alloc: Global,
    side: Side,
    payload: &Octets,
    zero: &[JournalItem],
) -> Result<Option<Mgmt>, NoMemory>
    ensures { IfOk result (λ said. option_map form_of said
        ≡ message_said (gathered side (history_of zero.now) ++ payload.now.octets)) }
{
    let mut octets = gathered(alloc, side, zero)?;
    octets.extend(payload.as_slice())?;
    message_said(alloc, octets.as_slice())
}

/// What the whole requests of a side say, the latest first.
pub fn asked(alloc: Global, side: Side, zero: &[JournalItem]) -> Result<Vec<Option<Mgmt>>, NoMemory>
    ensures value { IfOk result (λ said. forms_of said.items ≡ asked side (history_of zero.now)) }
    ensures within { IfOk result (λ said. length said.items ≤ length zero.now) }
{
    match zero {
        [] => Ok(Vec::new(alloc)),
        [JournalItem::Passed(by, head, payload), before @ ..] => {
            let mut said = asked(alloc, side, before)?;
            if side.is_same(*by) && head.kind.is_msg() && !head.more {
                let form = completed(alloc, side, payload, before)?;
                put_first(&mut said, form)?;
            }
            Ok(said)
        }
        [JournalItem::Began(..) | JournalItem::Told(..), before @ ..] => asked(alloc, side, before),
    }
}

/// What the request at a position says.
pub fn said_at(position: usize, forms: &[Option<Mgmt>]) -> Option<&Mgmt>
    ensures { option_map (λ said. form_of said.now) result ≡ said_at position (forms_of forms.now) }
{
    match forms {
        [] => None,
        [form, before @ ..] => {
            if before.len() == position {
                form.as_ref()
            } else {
                said_at(position, before)
            }
        }
    }
}

/// The position that a reply of a side names: of the latest request of the other side with its
/// number, or 0.
fn replied_position(side: Side, zero: &[JournalItem], head: &Head) -> usize
    requires reply { IsTrue (is_reply head.now.kind) }
    ensures { result ≡ position_of side (history_of zero.now) head.now }
{
    latest_request(side.other(), head.msgno, zero).unwrap_or(0)
}

/// Whether the reply that a passing frame completes has the form that its request asks for.
pub fn completes_form(
    alloc: Global,
    side: Side,
    head: &Head,
    payload: &Octets,
    zero: &[JournalItem],
) -> Result<bool, NoMemory>
    requires reply { IsTrue (is_reply head.now.kind) }
    ensures { IfOk result (λ fits. fits
        ≡ completes_form side head.now payload.now.octets (history_of zero.now)) }
{
    let position = replied_position(side, zero, head);
    let requests = asked(alloc, side.other(), zero)?;
    let reply = completed(alloc, side, payload, zero)?;
    Ok(has_form(
        head.kind,
        position == 0,
        said_at(position, &requests),
        reply.as_ref(),
    ))
}

/// The moment that a whole request of a side, at a position, makes.
fn coming(side: Side, position: usize, request: Option<&Mgmt>) -> Option<LifeEvent>
    ensures { events_in result ≡ coming side position (form_in (option_copied request.entry)) }
{
    match request {
        Some(Mgmt::Close { number, .. }) => Some(LifeEvent::CloseCame(side, position, *number)),
        Some(
            Mgmt::Greeting { .. }
            | Mgmt::Start { .. }
            | Mgmt::Chosen { .. }
            | Mgmt::Okay
            | Mgmt::Fault { .. },
        )
        | None => None,
    }
}

/// The moment that a positive reply to the request of a side, at a position, makes.
fn granting(side: Side, position: usize, request: Option<&Mgmt>) -> Option<LifeEvent>
    ensures { events_in result ≡ granting side position (form_in (option_copied request.entry)) }
{
    match request {
        Some(Mgmt::Start { number, .. }) => {
            if 0 < *number {
                Some(LifeEvent::StartGranted(*number))
            } else {
                None
            }
        }
        Some(Mgmt::Close { number, .. }) => Some(LifeEvent::CloseGranted(side, position, *number)),
        Some(Mgmt::Greeting { .. } | Mgmt::Chosen { .. } | Mgmt::Okay | Mgmt::Fault { .. })
        | None => None,
    }
}

/// The moment that a passing frame of channel zero makes.
fn effect(
    alloc: Global,
    side: Side,
    head: &Head,
    payload: &Octets,
    zero: &[JournalItem],
) -> Result<Option<LifeEvent>, NoMemory>
    ensures { IfOk result (λ event. events_in event
        ≡ effect side head.now payload.now.octets (history_of zero.now)) }
{
    if head.more {
        return Ok(None);
    }
    if head.kind.is_msg() {
        let position = asked(alloc, side, zero)?.len();
        let request = completed(alloc, side, payload, zero)?;
        return Ok(coming(side, position, request.as_ref()));
    }
    if !head.kind.is_same(Kind::Rpy) || !completes_form(alloc, side, head, payload, zero)? {
        return Ok(None);
    }
    let position = replied_position(side, zero, head);
    let requests = asked(alloc, side.other(), zero)?;
    Ok(granting(side.other(), position, said_at(position, &requests)))
}

/// The moments of the history of channel zero, the latest first.
fn zero_events(alloc: Global, zero: &[JournalItem]) -> Result<Vec<LifeEvent>, NoMemory>
    ensures { IfOk result (λ found. events_of found.items ≡ zero_events (history_of zero.now)) }
{
    match zero {
        [] => Ok(Vec::new(alloc)),
        [JournalItem::Passed(by, head, payload), before @ ..] => {
            let mut events = zero_events(alloc, before)?;
            if let Some(event) = effect(alloc, *by, head, payload, before)? {
                put_first(&mut events, event)?;
            }
            Ok(events)
        }
        [JournalItem::Began(..) | JournalItem::Told(..), before @ ..] => {
            zero_events(alloc, before)
        }
    }
}

/// The moments of a journal, the latest first.
pub fn events(alloc: Global, journal: &[JournalItem]) -> Result<Vec<LifeEvent>, NoMemory>
    ensures { IfOk result (λ found. events_of found.items ≡ events (history_of journal.now)) }
{
    let zero = zero_history(alloc, journal)?;
    zero_events(alloc, &zero)
}
