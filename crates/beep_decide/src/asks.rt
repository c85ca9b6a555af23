//! The requests of channel zero by what they say, by plain look-back.
//!
//! No session runs this: it is the definitions in code, slow, so that they can be tried on
//! examples.
ghost use Rattle.std.specs.Prelude.{◌≡◌, IfOk};
ghost use Rattle.std.specs.Option.{option_copied};
ghost use Rattle.beep_history.specs.declared.journal.Side.{Side};
ghost use Rattle.beep_history.specs.Journal.{history_of};
ghost use Rattle.beep_journal.specs.Plain.{forms_of, form_in, events_of};
ghost use Rattle.beep_decide.specs.Asks.{is_start, is_start_of, is_close_of, has_waiting, has_own_start, has_own_release, has_close_among, has_own_close, is_greeted};

use beep_history::{JournalItem, Side, has_answer};
use beep_journal::{LifeEvent, asked, events, life_named, zero_history};
use beep_mgmt::Mgmt;
use beep_octets::NoMemory;
use std::alloc::Global;

/// Whether a request says a start.
pub fn is_start(form: Option<&Mgmt>) -> bool
    ensures { result ≡ is_start (form_in (option_copied form.entry)) }
{
    match form {
        Some(Mgmt::Start { .. }) => true,
        Some(
            Mgmt::Greeting { .. }
            | Mgmt::Chosen { .. }
            | Mgmt::Close { .. }
            | Mgmt::Okay
            | Mgmt::Fault { .. },
        )
        | None => false,
    }
}

/// Whether a request says a start of this channel.
pub fn is_start_of(channel: u32, form: Option<&Mgmt>) -> bool
    ensures { result ≡ is_start_of channel (form_in (option_copied form.entry)) }
{
    match form {
        Some(Mgmt::Start { number, .. }) => *number == channel,
        Some(
            Mgmt::Greeting { .. }
            | Mgmt::Chosen { .. }
            | Mgmt::Close { .. }
            | Mgmt::Okay
            | Mgmt::Fault { .. },
        )
        | None => false,
    }
}

/// Whether a request says a close of this channel.
pub fn is_close_of(channel: u32, form: Option<&Mgmt>) -> bool
    ensures { result ≡ is_close_of channel (form_in (option_copied form.entry)) }
{
    match form {
        Some(Mgmt::Close { number, .. }) => *number == channel,
        Some(
            Mgmt::Greeting { .. }
            | Mgmt::Start { .. }
            | Mgmt::Chosen { .. }
            | Mgmt::Okay
            | Mgmt::Fault { .. },
        )
        | None => false,
    }
}

/// Whether a start of this channel waits among own requests.
fn has_waiting_start(channel: u32, zero: &[JournalItem], forms: &[Option<Mgmt>]) -> bool
    ensures { result ≡ has_waiting (is_start_of channel) Side.Sent (history_of zero.now)
        (forms_of forms.now) }
{
    match forms {
        [] => false,
        [form, before @ ..] => {
            (is_start_of(channel, form.as_ref()) && !has_answer(Side::Sent, before.len(), zero))
                || has_waiting_start(channel, zero, before)
        }
    }
}

/// Whether a close of this channel waits among own requests.
fn has_waiting_close(channel: u32, zero: &[JournalItem], forms: &[Option<Mgmt>]) -> bool
    ensures { result ≡ has_waiting (is_close_of channel) Side.Sent (history_of zero.now)
        (forms_of forms.now) }
{
    match forms {
        [] => false,
        [form, before @ ..] => {
            (is_close_of(channel, form.as_ref()) && !has_answer(Side::Sent, before.len(), zero))
                || has_waiting_close(channel, zero, before)
        }
    }
}

/// Whether an own start of this channel waits.
pub fn has_own_start(alloc: Global, channel: u32, journal: &[JournalItem]) -> Result<bool, NoMemory>
    ensures { IfOk result (λ has. has ≡ has_own_start channel (history_of journal.now)) }
{
    let zero = zero_history(alloc, journal)?;
    let forms = asked(alloc, Side::Sent, &zero)?;
    Ok(has_waiting_start(channel, &zero, &forms))
}

/// Whether an own close of 0 waits.
pub fn has_own_release(alloc: Global, journal: &[JournalItem]) -> Result<bool, NoMemory>
    ensures { IfOk result (λ has. has ≡ has_own_release (history_of journal.now)) }
{
    let zero = zero_history(alloc, journal)?;
    let forms = asked(alloc, Side::Sent, &zero)?;
    Ok(has_waiting_close(0, &zero, &forms))
}

/// Whether a close that waits, among own requests, names this life of a channel.
fn has_close_among(
    channel: u32,
    count: usize,
    events: &[LifeEvent],
    zero: &[JournalItem],
    forms: &[Option<Mgmt>],
) -> bool
    ensures { result ≡ has_close_among channel count (events_of events.now)
        (history_of zero.now) (forms_of forms.now) }
{
    match forms {
        [] => false,
        [form, before @ ..] => {
            let position = before.len();
            (is_close_of(channel, form.as_ref())
                && !has_answer(Side::Sent, position, zero)
                && life_named(channel, Side::Sent, position, events) == count)
                || has_close_among(channel, count, events, zero, before)
        }
    }
}

/// Whether an own close of this life of a channel waits.
pub fn has_own_close(
    alloc: Global,
    channel: u32,
    count: usize,
    journal: &[JournalItem],
) -> Result<bool, NoMemory>
    ensures { IfOk result (λ has. has ≡ has_own_close channel count (history_of journal.now)) }
{
    let zero = zero_history(alloc, journal)?;
    let forms = asked(alloc, Side::Sent, &zero)?;
    let events = events(alloc, journal)?;
    Ok(has_close_among(channel, count, &events, &zero, &forms))
}

/// Whether the own greeting has wholly passed.
pub fn is_greeted(alloc: Global, journal: &[JournalItem]) -> Result<bool, NoMemory>
    ensures { IfOk result (λ is. is ≡ is_greeted (history_of journal.now)) }
{
    let zero = zero_history(alloc, journal)?;
    Ok(has_answer(Side::Received, 0, &zero))
}
