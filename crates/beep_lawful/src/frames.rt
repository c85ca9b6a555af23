//! What a whole frame breaks that goes out, by plain tests on a journal.
//!
//! No session runs this: it is the definitions in code, slow, so that they can be tried on
//! examples.
ghost use Rattle.std.specs.Prelude.{◌≡◌, ◌==◌, ◌&&◌, not, ℕ, true, None, IfOk, option_map};
ghost use Rattle.beep_frame.specs.declared.kind.Kind.{Kind};
ghost use Rattle.beep_frame.specs.Frame.{same_kind};
ghost use Rattle.beep_history.specs.declared.journal.Side.{Side};
ghost use Rattle.beep_history.specs.Marks.{position_of};
ghost use Rattle.beep_journal.specs.Zero.{zero_history, said_to};
ghost use Rattle.std.specs.Option.{option_copied};
ghost use Rattle.beep_history.specs.Journal.{history_of};
ghost use Rattle.beep_mgmt.specs.Form.{form_of};
ghost use Rattle.beep_journal.specs.Plain.{tunes_of, form_in};
ghost use Rattle.beep_lawful.specs.Lawful.{same_flag, same_head, breaks_apart, breaks_content, request_said, breaks_ok_too_soon, breaks_close_unanswered, breaks_start_number, breaks_grant_number, breaks_close_starting, breaks_asked_drained, first_breach, content_tests, granted_position, granted_said, unlawful_frame};

use crate::breach::Breach;
use crate::closing::{was_idle_since, was_quiet_since, was_ready_since};
use crate::heads::breaks_after_end;
use crate::terms::Terms;
use beep_decide::{has_own_release, has_own_start, may_start, other_role};
use beep_frame::{Head, Kind};
use beep_history::{JournalItem, Side, latest_request};
use beep_journal::{
    Role, StartPlace, asked, broken_content, completed, events, is_live, life_named, lives,
    said_at, zero_history,
};
use beep_mgmt::Mgmt;
use beep_octets::{NoMemory, Octets};
use std::alloc::Global;

/// Whether two flags are one.
fn is_same_flag(one: bool, other: bool) -> bool
    ensures { result ≡ same_flag one other }
{
    if one { other } else { !other }
}

/// Whether two headers are one.
fn is_same_head(one: &Head, other: &Head) -> bool
    ensures { result ≡ same_head one.now other.now }
{
    one.kind.is_same(other.kind)
        && one.channel == other.channel
        && one.msgno == other.msgno
        && is_same_flag(one.more, other.more)
        && one.seqno == other.seqno
        && one.size == other.size
        && one.ansno == other.ansno
}

/// Whether something happened between the header of a frame and its end, or its payload has another
/// size.
fn breaks_apart(journal: &[JournalItem], head: &Head, payload: &Octets) -> bool
    ensures { result ≡ breaks_apart (history_of journal.now) head.now payload.now.octets }
{
    match journal {
        [JournalItem::Began(Side::Sent, begun), ..] => {
            !(is_same_head(begun, head) && payload.len() == head.size as usize)
        }
        []
        | [
            JournalItem::Began(Side::Received, _) | JournalItem::Passed(..) | JournalItem::Told(..),
            ..
        ] => true,
    }
}

/// Whether the peer would find that a reply of channel zero has not its form.
fn breaks_content(
    alloc: Global,
    journal: &[JournalItem],
    head: &Head,
    payload: &Octets,
) -> Result<bool, NoMemory>
    ensures { IfOk result (λ breaks. breaks ≡ breaks_content (history_of journal.now) head.now
        payload.now.octets) }
{
    Ok(broken_content(alloc, Side::Sent, journal, head, payload)?.is_some())
}

/// What the request says that a frame of channel zero completes.
fn request_said(
    alloc: Global,
    journal: &[JournalItem],
    head: &Head,
    payload: &Octets,
) -> Result<Option<Mgmt>, NoMemory>
    ensures { IfOk result (λ said. option_map form_of said ≡ request_said (history_of journal.now)
        head.now payload.now.octets) }
{
    if head.channel != 0 || !head.kind.is_msg() || head.more {
        return Ok(None);
    }
    let zero = zero_history(alloc, journal)?;
    completed(alloc, Side::Sent, payload, &zero)
}

/// Whether `ok` goes out to the close at a position, and at no moment since it came had its life
/// ended or was it drained.
fn breaks_ok_too_soon(
    alloc: Global,
    journal: &[JournalItem],
    position: usize,
    form: Option<&Mgmt>,
) -> Result<bool, NoMemory>
    ensures { IfOk result (λ breaks. breaks ≡ breaks_ok_too_soon (history_of journal.now) position
        (form_in (option_copied form.entry))) }
{
    match form {
        Some(Mgmt::Close { number, .. }) => {
            let moments = events(alloc, journal)?;
            let count = life_named(*number, Side::Received, position, &moments);
            let zero = zero_history(alloc, journal)?;
            let forms = asked(alloc, Side::Sent, &zero)?;
            Ok(!was_ready_since(alloc, position, *number, count, &forms, journal)?)
        }
        Some(
            Mgmt::Greeting { .. }
            | Mgmt::Start { .. }
            | Mgmt::Chosen { .. }
            | Mgmt::Okay
            | Mgmt::Fault { .. },
        )
        | None => Ok(false),
    }
}

/// Whether an own close goes out of a life whose own requests were not all answered since its
/// header.
fn breaks_close_unanswered(
    alloc: Global,
    journal: &[JournalItem],
    form: Option<&Mgmt>,
) -> Result<bool, NoMemory>
    ensures { IfOk result (λ breaks. breaks ≡ breaks_close_unanswered (history_of journal.now)
        (form_in (option_copied form.entry))) }
{
    match form {
        Some(Mgmt::Close { number, .. }) => {
            let zero = zero_history(alloc, journal)?;
            let position = asked(alloc, Side::Sent, &zero)?.len();
            let count = lives(*number, &events(alloc, journal)?);
            Ok(!was_idle_since(alloc, position, *number, count, journal)?)
        }
        Some(
            Mgmt::Greeting { .. }
            | Mgmt::Start { .. }
            | Mgmt::Chosen { .. }
            | Mgmt::Okay
            | Mgmt::Fault { .. },
        )
        | None => Ok(false),
    }
}

/// Whether an own start goes out of a number that isn't this end's, or isn't free.
fn breaks_start_number(
    alloc: Global,
    role: Role,
    journal: &[JournalItem],
    form: Option<&Mgmt>,
) -> Result<bool, NoMemory>
    ensures { IfOk result (λ breaks. breaks ≡ breaks_start_number role (history_of journal.now)
        (form_in (option_copied form.entry))) }
{
    match form {
        Some(Mgmt::Start { number, .. }) => {
            let moments = events(alloc, journal)?;
            let waits = has_own_start(alloc, *number, journal)?;
            Ok(!may_start(role, *number) || is_live(*number, &moments) || waits)
        }
        Some(
            Mgmt::Greeting { .. }
            | Mgmt::Chosen { .. }
            | Mgmt::Close { .. }
            | Mgmt::Okay
            | Mgmt::Fault { .. },
        )
        | None => Ok(false),
    }
}

/// Whether a start is granted of a number that isn't the peer's, or isn't free, or while an own
/// close of 0 waits.
fn breaks_grant_number(
    alloc: Global,
    role: Role,
    journal: &[JournalItem],
    form: Option<&Mgmt>,
) -> Result<bool, NoMemory>
    ensures { IfOk result (λ breaks. breaks ≡ breaks_grant_number role (history_of journal.now)
        (form_in (option_copied form.entry))) }
{
    match form {
        Some(Mgmt::Start { number, .. }) => {
            let moments = events(alloc, journal)?;
            let leaves = has_own_release(alloc, journal)?;
            Ok(!may_start(other_role(role), *number) || is_live(*number, &moments) || leaves)
        }
        Some(
            Mgmt::Greeting { .. }
            | Mgmt::Chosen { .. }
            | Mgmt::Close { .. }
            | Mgmt::Okay
            | Mgmt::Fault { .. },
        )
        | None => Ok(false),
    }
}

/// Whether an own close goes out of a number above 0 whose own start waits.
fn breaks_close_starting(
    alloc: Global,
    journal: &[JournalItem],
    form: Option<&Mgmt>,
) -> Result<bool, NoMemory>
    ensures { IfOk result (λ breaks. breaks ≡ breaks_close_starting (history_of journal.now)
        (form_in (option_copied form.entry))) }
{
    match form {
        Some(Mgmt::Close { number, .. }) => {
            Ok(0 < *number && has_own_start(alloc, *number, journal)?)
        }
        Some(
            Mgmt::Greeting { .. }
            | Mgmt::Start { .. }
            | Mgmt::Chosen { .. }
            | Mgmt::Okay
            | Mgmt::Fault { .. },
        )
        | None => Ok(false),
    }
}

/// Whether `ok` goes out to the close at a position, in whose life an own request has begun since
/// each moment at which it had ended or was drained.
fn breaks_asked_drained(
    alloc: Global,
    journal: &[JournalItem],
    position: usize,
    form: Option<&Mgmt>,
) -> Result<bool, NoMemory>
    ensures { IfOk result (λ breaks. breaks ≡ breaks_asked_drained (history_of journal.now)
        position (form_in (option_copied form.entry))) }
{
    match form {
        Some(Mgmt::Close { number, .. }) => {
            let moments = events(alloc, journal)?;
            let count = life_named(*number, Side::Received, position, &moments);
            let zero = zero_history(alloc, journal)?;
            let forms = asked(alloc, Side::Sent, &zero)?;
            Ok(!was_quiet_since(alloc, position, *number, count, &forms, journal)?)
        }
        Some(
            Mgmt::Greeting { .. }
            | Mgmt::Start { .. }
            | Mgmt::Chosen { .. }
            | Mgmt::Okay
            | Mgmt::Fault { .. },
        )
        | None => Ok(false),
    }
}

/// The tests on a frame that goes out, in their order, where its request or the request that it
/// grants says these things.
fn first_of_frame(
    alloc: Global,
    terms: &Terms,
    tuning: &[StartPlace],
    journal: &[JournalItem],
    asks: Option<&Mgmt>,
    position: usize,
    grants: Option<&Mgmt>,
) -> Result<Option<Breach>, NoMemory>
    ensures { IfOk result (λ breach. breach ≡ first_breach (content_tests terms.now
        (tunes_of tuning.now) (history_of journal.now) (form_in (option_copied asks.entry))
        position (form_in (option_copied grants.entry)))) }
{
    Ok(if breaks_ok_too_soon(alloc, journal, position, grants)? {
        Some(Breach::OkTooSoon)
    } else if breaks_close_unanswered(alloc, journal, asks)? {
        Some(Breach::CloseUnanswered)
    } else if breaks_after_end(alloc, tuning, journal)? {
        Some(Breach::AfterEnd)
    } else if breaks_start_number(alloc, terms.role, journal, asks)? {
        Some(Breach::StartNumber)
    } else if breaks_grant_number(alloc, terms.role, journal, grants)? {
        Some(Breach::GrantNumber)
    } else if breaks_close_starting(alloc, journal, asks)? {
        Some(Breach::CloseStarting)
    } else if breaks_asked_drained(alloc, journal, position, grants)? {
        Some(Breach::AskedDrained)
    } else {
        None
    })
}

/// Whether a frame completes a positive reply on channel zero.
fn is_grant(head: &Head) -> bool
    ensures { result ≡ (head.now.channel == 0 && same_kind Kind.Rpy head.now.kind
        && not head.now.more) }
{
    head.channel == 0 && head.kind.is_same(Kind::Rpy) && !head.more
}

/// The position of the request that a reply names, and 0 where there is none.
fn named_position(head: &Head, zero: &[JournalItem]) -> usize
    requires reply { same_kind Kind.Rpy head.now.kind ≡ true }
    ensures { result ≡ position_of Side.Sent (history_of zero.now) head.now }
{
    latest_request(Side::Received, head.msgno, zero).unwrap_or(0)
}

/// The tests on a frame that completes a positive reply on channel zero.
fn first_of_grant(
    alloc: Global,
    terms: &Terms,
    tuning: &[StartPlace],
    journal: &[JournalItem],
    asks: Option<&Mgmt>,
    head: &Head,
) -> Result<Option<Breach>, NoMemory>
    requires reply { same_kind Kind.Rpy head.now.kind ≡ true }
    ensures { IfOk result (λ breach. breach ≡ first_breach (content_tests terms.now
        (tunes_of tuning.now) (history_of journal.now) (form_in (option_copied asks.entry))
        (granted_position (history_of journal.now) head.now)
        (said_to Side.Sent head.now (zero_history (history_of journal.now))))) }
{
    let zero = zero_history(alloc, journal)?;
    let forms = asked(alloc, Side::Received, &zero)?;
    let position = named_position(head, &zero);
    let grants = said_at(position, &forms);
    first_of_frame(alloc, terms, tuning, journal, asks, position, grants)
}

/// The tests on a frame that completes no positive reply on channel zero.
fn first_of_other(
    alloc: Global,
    terms: &Terms,
    tuning: &[StartPlace],
    journal: &[JournalItem],
    asks: Option<&Mgmt>,
) -> Result<Option<Breach>, NoMemory>
    ensures { (position : ℕ) → IfOk result (λ breach. breach ≡ first_breach (content_tests terms.now
        (tunes_of tuning.now) (history_of journal.now) (form_in (option_copied asks.entry))
        position None)) }
{
    first_of_frame(alloc, terms, tuning, journal, asks, 0, None)
}

/// The tests on what a frame says and grants, in their order.
fn first_of_content(
    alloc: Global,
    terms: &Terms,
    tuning: &[StartPlace],
    journal: &[JournalItem],
    asks: Option<&Mgmt>,
    head: &Head,
) -> Result<Option<Breach>, NoMemory>
    ensures { IfOk result (λ breach. breach ≡ first_breach (content_tests terms.now
        (tunes_of tuning.now) (history_of journal.now) (form_in (option_copied asks.entry))
        (granted_position (history_of journal.now) head.now)
        (granted_said (history_of journal.now) head.now))) }
{
    if is_grant(head) {
        return first_of_grant(alloc, terms, tuning, journal, asks, head);
    }
    first_of_other(alloc, terms, tuning, journal, asks)
}

/// What a frame breaks that goes out whole.
#[tactic(auto, unfolding(crate::specs::Lawful::unlawful_frame))]
pub fn unlawful_frame(
    alloc: Global,
    terms: &Terms,
    tuning: &[StartPlace],
    journal: &[JournalItem],
    head: &Head,
    payload: &Octets,
) -> Result<Option<Breach>, NoMemory>
    ensures { IfOk result (λ breach. breach ≡ unlawful_frame terms.now (tunes_of tuning.now)
        (history_of journal.now) head.now payload.now.octets) }
{
    if breaks_apart(journal, head, payload) {
        return Ok(Some(Breach::Apart));
    }
    if breaks_content(alloc, journal, head, payload)? {
        return Ok(Some(Breach::Rule));
    }
    let asks = request_said(alloc, journal, head, payload)?;
    first_of_content(alloc, terms, tuning, journal, asks.as_ref(), head)
}
