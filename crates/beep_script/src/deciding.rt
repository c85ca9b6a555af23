//! What a request of the peer is answered, by plain look-back over a journal and what is listed.
//!
//! No session runs this: it is the definitions in code, slow, so that they can be tried on
//! examples.
ghost use Rattle.std.specs.Prelude.{◌≡◌, ◌++◌, true, length, map, IfOk, OnOk, option_to_list, option_map};
ghost use Rattle.std.specs.List.{list_all};
ghost use Rattle.std.specs.Option.{option_copied};
ghost use Rattle.beep_chars.specs.Characters.{is_allowed};
ghost use Rattle.beep_history.specs.Journal.{item_of, history_of};
ghost use Rattle.beep_mgmt.specs.Form.{plain_profile, chosen};
ghost use Rattle.beep_journal.specs.Plain.{form_in};
ghost use Rattle.beep_decide.specs.Decide.{Decision, uri_at, decide, answer_of};
ghost use Rattle.beep_decide.specs.Plain.{plain_offer, plain_standing, decision_of};
ghost use Rattle.beep_talk.specs.Plan.{HasAllowedUris};
ghost use Rattle.beep_talk.specs.Plain.{plain_plan, plain_answer, plain_answers, plain_desk};
ghost use Rattle.beep_talk.specs.AtZero.{profile_of};
ghost use Rattle.beep_script.specs.Desk.{standing, number_closed, closes_by, answered, decided};
ghost use Rattle.beep_script.specs.Laws.{HasThreeDigits};

use crate::standing_now::standing;
use beep_chars::Text;
use beep_decide::{Answer, Offer, Standing, decide};
use beep_history::{JournalItem, Side};
use beep_journal::{asked, completed, zero_history};
use beep_mgmt::Mgmt;
use beep_octets::NoMemory;
use beep_talk::{Desk, OwedAnswer, Plan, Words, put_last};
use std::alloc::Global;

/// The number of the close that a request says.
fn number_closed(request: Option<&Mgmt>) -> Option<u32>
    ensures { result ≡ number_closed (form_in (option_copied request.entry)) }
{
    match request {
        Some(Mgmt::Close { number, .. }) => Some(*number),
        Some(
            Mgmt::Greeting { .. }
            | Mgmt::Start { .. }
            | Mgmt::Chosen { .. }
            | Mgmt::Okay
            | Mgmt::Fault { .. },
        )
        | None => None,
    }
}

/// Of a decision that grants a close, its number.
fn closes_by(answer: &Answer, request: Option<&Mgmt>) -> Option<u32>
    ensures { result ≡ closes_by (decision_of answer.now) (form_in (option_copied request.entry)) }
{
    match answer {
        Answer::GrantClose => number_closed(request),
        Answer::Refuse(_) | Answer::Choose(_) | Answer::Tune(..) => None,
    }
}

/// The URI of the offer at a place.
fn uri_at(alloc: Global, place: usize, offers: &[Offer]) -> Result<Text, NoMemory>
    requires uris { list_all (λ offer. list_all is_allowed offer.uri)
        (map plain_offer offers.now) ≡ true }
    ensures value { IfOk result (λ uri. uri ≡ uri_at place (map plain_offer offers.now)) }
    ensures allowed { IfOk result (λ uri. list_all is_allowed uri ≡ true) }
{
    match offers {
        [] => Ok(Text::new(alloc)),
        [offer, others @ ..] => {
            if place == 0 {
                offer.uri.copy()
            } else {
                uri_at(alloc, place - 1, others)
            }
        }
    }
}

/// What an answer says; of a tuning start the caller says it.
fn words_of(alloc: Global, standing: &Standing, answer: &Answer) -> Result<Option<Words>, NoMemory>
    requires digits { HasThreeDigits (decision_of answer.now) }
    requires uris { list_all (λ offer. list_all is_allowed offer.uri)
        (plain_standing standing.now).offers ≡ true }
    ensures { IfOk result (λ words. words
        ≡ answer_of (plain_standing standing.now) (decision_of answer.now)) }
{
    match answer {
        Answer::Refuse(code) => Ok(Some(Words::refusal(alloc, *code)?)),
        Answer::Choose(place) => {
            let uri = uri_at(alloc, *place, &standing.offers)?;
            Ok(Some(Words::chosen(alloc, uri)?))
        }
        Answer::Tune(..) => Ok(None),
        Answer::GrantClose => Ok(Some(Words::new(alloc, Mgmt::Okay)?)),
    }
}

/// Appends the answer to the request at a position that says this.
fn put_answer(
    alloc: Global,
    standing: &Standing,
    position: usize,
    request: Option<&Mgmt>,
    owed: &mut Vec<OwedAnswer>,
) -> Result<(), NoMemory>
    requires uris { list_all (λ offer. list_all is_allowed offer.uri)
        (plain_standing standing.now).offers ≡ true }
    ensures ok { OnOk result (plain_answers owed.new.items ≡ plain_answers owed.old.items
        ++ answered (plain_standing standing.now) position (form_in (option_copied request.entry))
        (decide (plain_standing standing.now) (form_in (option_copied request.entry)))) }
{
    let answer = decide(alloc, standing, request)?;
    let Some(words) = words_of(alloc, standing, &answer)? else {
        return Ok(());
    };
    let closes = closes_by(&answer, request);
    put_last(
        owed,
        OwedAnswer {
            position,
            words,
            closes,
        },
    )
}

/// Appends the answer to the request that an item completes, where it does.
pub(crate) fn put_decided(
    alloc: Global,
    plan: &Plan,
    desk: &Desk,
    item: &JournalItem,
    journal: &[JournalItem],
    owed: &mut Vec<OwedAnswer>,
) -> Result<(), NoMemory>
    requires uris { HasAllowedUris (plain_plan plan.now) }
    ensures ok { OnOk result (plain_answers owed.new.items ≡ plain_answers owed.old.items
        ++ decided (plain_plan plan.now) (plain_desk desk.now) (item_of item.now)
        (history_of journal.now)) }
{
    match item {
        JournalItem::Passed(Side::Received, head, payload) => {
            if head.channel != 0 || !head.kind.is_msg() || head.more {
                return Ok(());
            }
            let zero = zero_history(alloc, journal)?;
            let position = asked(alloc, Side::Received, &zero)?.len();
            let request = completed(alloc, Side::Received, payload, &zero)?;
            let stands = standing(alloc, plan, desk, journal)?;
            put_answer(alloc, &stands, position, request.as_ref(), owed)
        }
        JournalItem::Passed(Side::Sent, ..) | JournalItem::Began(..) | JournalItem::Told(..) => {
            Ok(())
        }
    }
}
