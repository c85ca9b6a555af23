//! What an end has to say on channel zero, by plain look-back over a journal.
//!
//! No session runs this: it is the definitions in code, slow, so that they can be tried on
//! examples.
ghost use Rattle.std.specs.Prelude.{◌≡◌, ◌<◌, ◌≤◌, [], ◌∷◌, ◌++◌, length, map, take, drop, IfOk, OnOk};
ghost use Rattle.beep_history.specs.Journal.{item_of, history_of};
ghost use Rattle.beep_decide.specs.Plain.{plain_offer};
ghost use Rattle.beep_talk.specs.Plan.{HasAllowedUris};
ghost use Rattle.beep_talk.specs.Plain.{plain_plan, plain_zero, plain_zeros, plain_answers, plain_desk};
ghost use Rattle.beep_talk.specs.AtZero.{answer_message};
ghost use Rattle.beep_script.specs.Desk.{own_greeting, desk_after, desk};

use crate::asking::put_asks;
use crate::clearing::clear_count;
use crate::deciding::put_decided;
use beep_frame::Kind;
use beep_history::JournalItem;
use beep_octets::NoMemory;
use beep_talk::{
    Desk, OwedAnswer, Plan, Words, ZeroMessage, answer_message, put_last, zero_message,
};
use std::alloc::Global;

/// Takes the first of some answers out.
fn take_first(answers: &mut Vec<OwedAnswer>) -> OwedAnswer
    requires some { 0 < length answers.old.items }
    ensures { answers.old.items ≡ result ∷ answers.new.items }
{
    answers.remove(0)
}

/// Lists the first so many answers, and gives back the others.
fn list_answers(
    mut answers: Vec<OwedAnswer>,
    count: usize,
    listed: &mut Vec<ZeroMessage>,
) -> Result<Vec<OwedAnswer>, NoMemory>
    requires within { count ≤ length answers.items }
    ensures listed { OnOk result (plain_zeros listed.new.items ≡ plain_zeros listed.old.items
        ++ map answer_message (take count (plain_answers answers.items))) }
    ensures rest { IfOk result (λ rest. plain_answers rest.items
        ≡ drop count (plain_answers answers.items)) }
{
    if count == 0 {
        return Ok(answers);
    }
    let first = take_first(&mut answers);
    put_last(listed, answer_message(first))?;
    list_answers(answers, count - 1, listed)
}

/// What is listed and owed after an item, which makes this journal of the one before it.
fn desk_after(
    alloc: Global,
    plan: &Plan,
    mut desk: Desk,
    item: &JournalItem,
    before: &[JournalItem],
    journal: &[JournalItem],
) -> Result<Desk, NoMemory>
    requires uris { HasAllowedUris (plain_plan plan.now) }
    requires latest { history_of journal.now ≡ item_of item.now ∷ history_of before.now }
    ensures { IfOk result (λ after. plain_desk after ≡ desk_after (plain_plan plan.now)
        (plain_desk desk) (item_of item.now) (history_of before.now)) }
{
    let mut decided = Vec::new(alloc);
    put_decided(alloc, plan, &desk, item, before, &mut decided)?;
    desk.owed.append(&mut decided)?;
    let Desk { mut listed, owed } = desk;
    let count = clear_count(alloc, plan, &listed, journal, &owed)?;
    let owed = list_answers(owed, count, &mut listed)?;
    put_asks(alloc, plan, item, before, &mut listed)?;
    Ok(Desk { listed, owed })
}

/// The greeting alone.
fn first_desk(alloc: Global, plan: &Plan) -> Result<Desk, NoMemory>
    requires uris { HasAllowedUris (plain_plan plan.now) }
    ensures { IfOk result (λ first. plain_desk first ≡ desk (plain_plan plan.now) []) }
{
    let words = Words::greeting(alloc, &plan.offers)?;
    let mut listed = Vec::new(alloc);
    put_last(&mut listed, zero_message(Kind::Rpy, 0, words))?;
    Ok(Desk {
        listed,
        owed: Vec::new(alloc),
    })
}

/// What is listed on channel zero once this has happened, and which answers aren't.
pub fn desk(alloc: Global, plan: &Plan, journal: &[JournalItem]) -> Result<Desk, NoMemory>
    requires uris { HasAllowedUris (plain_plan plan.now) }
    ensures { IfOk result (λ now. plain_desk now
        ≡ desk (plain_plan plan.now) (history_of journal.now)) }
{
    match journal {
        [] => first_desk(alloc, plan),
        [item, before @ ..] => {
            let earlier = desk(alloc, plan, before)?;
            desk_after(alloc, plan, earlier, item, before, journal)
        }
    }
}
