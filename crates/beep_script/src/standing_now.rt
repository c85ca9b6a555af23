//! What stands as a request of the peer comes, by plain look-back over a journal and what is
//! listed.
//!
//! No session runs this: it is the definitions in code, slow, so that they can be tried on
//! examples.
ghost use Rattle.std.specs.Prelude.{◌≡◌, ◌∷◌, ◌++◌, not, map, filter, IfOk, OnOk};
ghost use Rattle.std.specs.Option.{option_copied};
ghost use Rattle.beep_history.specs.declared.journal.Side.{Side};
ghost use Rattle.beep_history.specs.Journal.{history_of};
ghost use Rattle.beep_journal.specs.Plain.{forms_of, form_in, events_of};
ghost use Rattle.beep_journal.specs.Zero.{zero_history, asked};
ghost use Rattle.beep_decide.specs.Asks.{is_close_of};
ghost use Rattle.beep_decide.specs.Decide.{is_among};
ghost use Rattle.beep_decide.specs.Plain.{plain_offer, plain_standing};
ghost use Rattle.beep_talk.specs.Plain.{plain_plan, plain_zero, plain_zeros, plain_answers, plain_desk};
ghost use Rattle.beep_talk.specs.AtZero.{answer_message};
ghost use Rattle.beep_script.specs.Desk.{waits, has_listed, live_among, live_numbers, number_started, own_starting, peer_starting, has_peer_close, is_closing, standing};

use beep_decide::{Offer, Standing, is_close_of};
use beep_frame::Kind;
use beep_history::{JournalItem, Side, has_answer};
use beep_journal::{
    LifeEvent, asked, events, is_live, life_named, life_now, said_at, zero_history,
};
use beep_mgmt::Mgmt;
use beep_octets::NoMemory;
use beep_talk::{Desk, OwedAnswer, Plan, ZeroMessage, kind_of};
use std::alloc::Global;

// ---- own requests that wait

/// Whether a listed message is a request whose reply hasn't wholly passed.
fn waits(zero: &[JournalItem], one: &ZeroMessage) -> bool
    ensures { result ≡ waits (history_of zero.now) (plain_zero one.now) }
{
    one.tag.kind.is_msg() && !has_answer(Side::Sent, one.tag.request as usize, zero)
}

/// Whether a close of 0 is listed and waits.
pub(crate) fn has_listed_release(zero: &[JournalItem], listed: &[ZeroMessage]) -> bool
    ensures { result ≡ has_listed (is_close_of 0) (history_of zero.now) (plain_zeros listed.now) }
{
    match listed {
        [] => false,
        [one, others @ ..] => {
            (waits(zero, one) && is_close_of(0, Some(one.words.form())))
                || has_listed_release(zero, others)
        }
    }
}

/// Whether a request that is no close of 0 is listed and waits.
pub(crate) fn has_listed_other(zero: &[JournalItem], listed: &[ZeroMessage]) -> bool
    ensures { result ≡ has_listed (λ form. not (is_close_of 0 form)) (history_of zero.now)
        (plain_zeros listed.now) }
{
    match listed {
        [] => false,
        [one, others @ ..] => {
            (waits(zero, one) && !is_close_of(0, Some(one.words.form())))
                || has_listed_other(zero, others)
        }
    }
}

// ---- numbers

/// Whether a number is one of these.
pub(crate) fn is_among(number: u32, numbers: &[u32]) -> bool
    ensures { result ≡ is_among number numbers.now }
{
    match numbers {
        [] => false,
        [other, others @ ..] => *other == number || is_among(number, others),
    }
}

/// Puts a number before the others.
fn put_number(number: u32, numbers: &mut Vec<u32>) -> Result<(), NoMemory>
    ensures ok { OnOk result (numbers.new.items ≡ number ∷ numbers.old.items) }
{
    match numbers.insert(0, number) {
        Ok(()) => Ok(()),
        Err(_) => Err(NoMemory),
    }
}

/// The numbers whose start is among these moments and that are live.
fn live_among(alloc: Global, events: &[LifeEvent], part: &[LifeEvent]) -> Result<Vec<u32>, NoMemory>
    ensures { IfOk result (λ numbers. numbers.items
        ≡ live_among (events_of events.now) (events_of part.now)) }
{
    match part {
        [] => Ok(Vec::new(alloc)),
        [LifeEvent::StartGranted(number), before @ ..] => {
            let mut numbers = live_among(alloc, events, before)?;
            if is_live(*number, events) && !is_among(*number, &numbers) {
                put_number(*number, &mut numbers)?;
            }
            Ok(numbers)
        }
        [
            LifeEvent::CloseCame(..) | LifeEvent::CloseGranted(..),
            before @ ..,
        ] => live_among(alloc, events, before),
    }
}

/// The numbers above zero that are live.
pub(crate) fn live_numbers(alloc: Global, journal: &[JournalItem]) -> Result<Vec<u32>, NoMemory>
    ensures { IfOk result (λ numbers. numbers.items ≡ live_numbers (history_of journal.now)) }
{
    let moments = events(alloc, journal)?;
    live_among(alloc, &moments, &moments)
}

/// Puts the number of the start that a request says before the others.
fn put_started(request: Option<&Mgmt>, numbers: &mut Vec<u32>) -> Result<(), NoMemory>
    ensures ok { OnOk result (numbers.new.items
        ≡ number_started (form_in (option_copied request.entry)) ++ numbers.old.items) }
{
    match request {
        Some(Mgmt::Start { number, .. }) => put_number(*number, numbers),
        Some(
            Mgmt::Greeting { .. }
            | Mgmt::Chosen { .. }
            | Mgmt::Close { .. }
            | Mgmt::Okay
            | Mgmt::Fault { .. },
        )
        | None => Ok(()),
    }
}

/// Puts the numbers of the own starts that are listed and wait before the others.
fn put_own_starting(
    zero: &[JournalItem],
    listed: &[ZeroMessage],
    numbers: &mut Vec<u32>,
) -> Result<(), NoMemory>
    ensures ok { OnOk result (numbers.new.items
        ≡ own_starting (history_of zero.now) (plain_zeros listed.now) ++ numbers.old.items) }
{
    match listed {
        [] => Ok(()),
        [one, others @ ..] => {
            put_own_starting(zero, others, numbers)?;
            if waits(zero, one) {
                put_started(Some(one.words.form()), numbers)?;
            }
            Ok(())
        }
    }
}

/// Puts the numbers of the peer's starts that these messages grant before the others.
fn put_peer_starting(
    zero: &[JournalItem],
    forms: &[Option<Mgmt>],
    replies: &[ZeroMessage],
    numbers: &mut Vec<u32>,
) -> Result<(), NoMemory>
    ensures ok { OnOk result (numbers.new.items
        ≡ peer_starting (history_of zero.now) (forms_of forms.now) (plain_zeros replies.now)
        ++ numbers.old.items) }
{
    match replies {
        [] => Ok(()),
        [one, others @ ..] => {
            put_peer_starting(zero, forms, others, numbers)?;
            let position = one.tag.request as usize;
            if one.tag.kind.is_same(Kind::Rpy) && !has_answer(Side::Received, position, zero) {
                put_started(said_at(position, forms), numbers)?;
            }
            Ok(())
        }
    }
}

/// The same of answers that aren't listed.
fn put_owed_starting(
    zero: &[JournalItem],
    forms: &[Option<Mgmt>],
    owed: &[OwedAnswer],
    numbers: &mut Vec<u32>,
) -> Result<(), NoMemory>
    ensures ok { OnOk result (numbers.new.items
        ≡ peer_starting (history_of zero.now) (forms_of forms.now)
        (map answer_message (plain_answers owed.now)) ++ numbers.old.items) }
{
    match owed {
        [] => Ok(()),
        [one, others @ ..] => {
            put_owed_starting(zero, forms, others, numbers)?;
            let is_granted = kind_of(one.words.form()).is_same(Kind::Rpy);
            if is_granted && !has_answer(Side::Received, one.position, zero) {
                put_started(said_at(one.position, forms), numbers)?;
            }
            Ok(())
        }
    }
}

// ---- closes

/// Whether among these requests of the peer a close that waits names this life of a channel.
fn has_peer_close(
    number: u32,
    count: usize,
    events: &[LifeEvent],
    zero: &[JournalItem],
    forms: &[Option<Mgmt>],
) -> bool
    ensures { result ≡ has_peer_close number count (events_of events.now) (history_of zero.now)
        (forms_of forms.now) }
{
    match forms {
        [] => false,
        [form, before @ ..] => {
            let position = before.len();
            (is_close_of(number, form.as_ref())
                && !has_answer(Side::Received, position, zero)
                && life_named(number, Side::Received, position, events) == count)
                || has_peer_close(number, count, events, zero, before)
        }
    }
}

/// Whether a close of the live life of a number waits that the peer sent.
fn is_closing(alloc: Global, number: u32, journal: &[JournalItem]) -> Result<bool, NoMemory>
    ensures { IfOk result (λ is. is ≡ is_closing number (history_of journal.now)) }
{
    let count = life_now(alloc, number, journal)?;
    let moments = events(alloc, journal)?;
    let zero = zero_history(alloc, journal)?;
    let forms = asked(alloc, Side::Received, &zero)?;
    Ok(has_peer_close(number, count, &moments, &zero, &forms))
}

/// Those of some numbers whose close waits.
fn closing_among(
    alloc: Global,
    numbers: &[u32],
    journal: &[JournalItem],
) -> Result<Vec<u32>, NoMemory>
    ensures { IfOk result (λ closing. closing.items
        ≡ filter (λ number. is_closing number (history_of journal.now)) numbers.now) }
{
    match numbers {
        [] => Ok(Vec::new(alloc)),
        [number, others @ ..] => {
            let mut closing = closing_among(alloc, others, journal)?;
            if is_closing(alloc, *number, journal)? {
                put_number(*number, &mut closing)?;
            }
            Ok(closing)
        }
    }
}

// ---- all of it

/// The offers once more.
fn copied_offers(alloc: Global, offers: &[Offer]) -> Result<Vec<Offer>, NoMemory>
    ensures { IfOk result (λ copy. map plain_offer copy.items ≡ map plain_offer offers.now) }
{
    match offers {
        [] => Ok(Vec::new(alloc)),
        [offer, others @ ..] => {
            let mut copy = copied_offers(alloc, others)?;
            let first = Offer {
                uri: offer.uri.copy()?,
                tuning: offer.tuning,
            };
            match copy.insert(0, first) {
                Ok(()) => Ok(copy),
                Err(_) => Err(NoMemory),
            }
        }
    }
}

/// The numbers of which a start was listed, or is to be granted.
fn starting(alloc: Global, desk: &Desk, journal: &[JournalItem]) -> Result<Vec<u32>, NoMemory>
    ensures { IfOk result (λ numbers. numbers.items
        ≡ own_starting (zero_history (history_of journal.now)) (plain_desk desk.now).listed
        ++ peer_starting (zero_history (history_of journal.now))
        (asked Side.Received (zero_history (history_of journal.now))) (plain_desk desk.now).listed
        ++ peer_starting (zero_history (history_of journal.now))
        (asked Side.Received (zero_history (history_of journal.now)))
        (map answer_message (plain_desk desk.now).owed)) }
{
    let zero = zero_history(alloc, journal)?;
    let forms = asked(alloc, Side::Received, &zero)?;
    let mut numbers = Vec::new(alloc);
    put_owed_starting(&zero, &forms, &desk.owed, &mut numbers)?;
    put_peer_starting(&zero, &forms, &desk.listed, &mut numbers)?;
    put_own_starting(&zero, &desk.listed, &mut numbers)?;
    Ok(numbers)
}

/// What stands.
pub(crate) fn standing(
    alloc: Global,
    plan: &Plan,
    desk: &Desk,
    journal: &[JournalItem],
) -> Result<Standing, NoMemory>
    ensures { IfOk result (λ stands. plain_standing stands
        ≡ standing (plain_plan plan.now) (plain_desk desk.now) (history_of journal.now)) }
{
    let mut closable = live_numbers(alloc, journal)?;
    put_number(0, &mut closable)?;
    let zero = zero_history(alloc, journal)?;
    Ok(Standing {
        role: plan.terms.role,
        offers: copied_offers(alloc, &plan.offers)?,
        live: live_numbers(alloc, journal)?,
        starting: starting(alloc, desk, journal)?,
        closing: closing_among(alloc, &closable, journal)?,
        leaving: has_listed_release(&zero, &desk.listed) || is_closing(alloc, 0, journal)?,
    })
}
