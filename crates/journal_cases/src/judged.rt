//! A judge of both directions, on sessions as text.
ghost use Rattle.std.specs.Prelude.{◌≡◌, Some};
ghost use Rattle.beep_judge.specs.Kept.{under_way_of};

use crate::rules::put_rule;
use crate::story::Story;
use beep_frame::{Head, Rule};
use beep_history::{JournalItem, Side};
use beep_judge::Judge;
use beep_octets::Octets;
use case_lines::{Bad, Fields, put_word};
use std::alloc::Global;

/// What happens in a few words, and what has happened: the rule that a judge finds in it, or
/// whether the session is released.
pub(crate) fn judge(alloc: Global, fields: &mut Fields<'_>, out: &mut Octets) -> Result<(), Bad> {
    fields.next()?;
    let past = fields.next()?;
    let mut story = Story::new(alloc, false);
    story.play(past)?;
    story.items.reverse();
    put_judged(alloc, story.items.as_slice(), out)
}

/// Writes what a judge finds in a journal, the earliest item first.
fn put_judged(alloc: Global, items: &[JournalItem], out: &mut Octets) -> Result<(), Bad> {
    let mut judge = Judge::new(alloc)?;
    put_found(&mut judge, items, out)
}

fn put_found(judge: &mut Judge, items: &[JournalItem], out: &mut Octets) -> Result<(), Bad> {
    for item in items {
        if let Some(rule) = judged(judge, item)? {
            return put_rule(rule, out);
        }
    }
    put_word(
        if judge.is_released() {
            "released"
        } else {
            "none"
        },
        out,
    )?;
    Ok(())
}

/// The rule that an item breaks.
fn judged(judge: &mut Judge, item: &JournalItem) -> Result<Option<Rule>, Bad> {
    match item {
        JournalItem::Began(side, head) => begin(judge, *side, head),
        JournalItem::Passed(side, _, payload) => pass(judge, *side, payload.as_slice()),
        JournalItem::Told(side, seq) => Ok(judge.seq(*side, seq)),
    }
}

fn begin(judge: &mut Judge, side: Side, head: &Head) -> Result<Option<Rule>, Bad> {
    if judge.under_way(side).is_some() {
        return Err(Bad::Field);
    }
    Ok(judge.begin(side, head))
}

fn pass(judge: &mut Judge, side: Side, payload: &[u8]) -> Result<Option<Rule>, Bad> {
    match judge.under_way(side) {
        Some(head) => pass_begun(judge, side, &head, payload),
        None => Err(Bad::Field),
    }
}

fn pass_begun(
    judge: &mut Judge,
    side: Side,
    head: &Head,
    payload: &[u8],
) -> Result<Option<Rule>, Bad>
    requires { under_way_of side judge.old ≡ Some head.now }
{
    if payload.len() != head.size as usize {
        return Err(Bad::Field);
    }
    Ok(judge.pass(side, payload)?)
}
