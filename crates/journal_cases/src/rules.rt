//! The rule that what comes next breaks, and the number of the octet at which it does.

use crate::story::{Frame, Story, seq_len, spelled_len};
use crate::text::{first_word, seq_of, side_of};
use beep_frame::{Rule, Seq};
use beep_history::Side;
use beep_journal::{StartPlace, broken_content, broken_head, broken_seq, is_released};
use beep_octets::Octets;
use case_lines::{Bad, Fields, put_number, put_word, put_yes};
use std::alloc::Global;

/// A rule, and the octet at which it breaks.
pub(crate) type Broken = Option<(Rule, usize)>;

/// What happens in a few words, what has happened, and what comes: the rule that it breaks and the
/// octet, as it is and with the sides exchanged. Where `tunes`, the start at position 1 of the
/// received side is tuning.
pub(crate) fn rule(
    alloc: Global,
    tunes: bool,
    fields: &mut Fields<'_>,
    out: &mut Octets,
) -> Result<(), Bad> {
    fields.next()?;
    let past = fields.next()?;
    let next = fields.next()?;
    put_broken(after(alloc, false, past, tunes, next)?, out)?;
    let mut other = Octets::new(alloc);
    put_broken(after(alloc, true, past, tunes, next)?, &mut other)?;
    put_apart(out, other.as_slice())
}

/// The rule that is broken after a history.
fn after(
    alloc: Global,
    exchanged: bool,
    past: &str,
    tunes: bool,
    next: &str,
) -> Result<Broken, Bad> {
    let mut story = Story::new(alloc, exchanged);
    let tuning = [StartPlace(story.side(Side::Received), 1)];
    let count = if tunes { 1 } else { 0 };
    verdict_after(&mut story, &tuning[..count], past, next)
}

/// The rule that is broken after what has happened in a story and this.
pub(crate) fn verdict_after(
    story: &mut Story,
    tuning: &[StartPlace],
    past: &str,
    next: &str,
) -> Result<Broken, Bad> {
    story.play(past)?;
    verdict(story, tuning, next)
}

pub(crate) fn put_broken(broken: Broken, out: &mut Octets) -> Result<(), Bad> {
    let Some((rule, place)) = broken else {
        put_word("none", out)?;
        return Ok(());
    };
    put_rule(rule, out)?;
    put_number(place as u64, out)?;
    Ok(())
}

pub(crate) fn put_rule(rule: Rule, out: &mut Octets) -> Result<(), Bad> {
    let name = format!(in out.alloc(); "{rule:?}")?;
    put_word(name.as_str(), out)?;
    Ok(())
}

/// Appends what comes of a case with the sides exchanged, where it is something else.
pub(crate) fn put_apart(out: &mut Octets, other: &[u8]) -> Result<(), Bad> {
    if out.as_slice() == other {
        return Ok(());
    }
    put_word("exchanged: ", out)?;
    out.extend(other)?;
    Ok(())
}

/// The rule that a text breaks, and the number of the octet at which it does.
fn verdict(story: &mut Story, tuning: &[StartPlace], text: &str) -> Result<Broken, Bad> {
    let (word, rest) = first_word(text);
    let side = side_of(word)?;
    if let Some(seq) = rest.strip_prefix("SEQ ") {
        return of_seq(story, side, seq_of(seq)?);
    }
    let frame = story.frame(side, rest)?;
    let before = of_head(story, tuning, side, &frame)?;
    if before.is_some() {
        return Ok(before);
    }
    of_content(story, side, frame)
}

fn of_seq(story: &Story, side: Side, seq: Seq) -> Result<Broken, Bad> {
    let rule = broken_seq(
        story.alloc(),
        story.side(side),
        story.items.as_slice(),
        &seq,
    )?;
    let count = seq_len(story.alloc(), &seq)?;
    Ok(at(rule, story.octets(side).wrapping_add(count), 1))
}

/// The place of a rule's octet is so many before the end.
fn at(rule: Option<Rule>, end: usize, before: usize) -> Broken {
    match rule {
        Some(rule) => Some((rule, end.wrapping_sub(before))),
        None => None,
    }
}

/// A header ends one octet before its payload, after which `END` and two CR LFs or so stand: six
/// octets in all.
fn of_head(story: &Story, tuning: &[StartPlace], side: Side, frame: &Frame) -> Result<Broken, Bad> {
    let items = story.items.as_slice();
    let rule = broken_head(story.alloc(), tuning, story.side(side), items, &frame.head)?;
    let count = spelled_len(story.alloc(), &frame.head, &frame.payload)?;
    let end = story.octets(side).wrapping_add(count);
    Ok(at(rule, end, frame.payload.len().wrapping_add(6)))
}

fn of_content(story: &mut Story, side: Side, frame: Frame) -> Result<Broken, Bad> {
    story.begin(side, frame.head)?;
    let by = story.side(side);
    let items = story.items.as_slice();
    let rule = broken_content(story.alloc(), by, items, &frame.head, &frame.payload)?;
    let count = spelled_len(story.alloc(), &frame.head, &frame.payload)?;
    Ok(at(rule, story.octets(side).wrapping_add(count), 1))
}

/// What has happened: whether the session is released, as it is and with the sides exchanged.
pub(crate) fn released(
    alloc: Global,
    fields: &mut Fields<'_>,
    out: &mut Octets,
) -> Result<(), Bad> {
    let past = fields.next()?;
    put_yes(is_over(alloc, false, past)?, out)?;
    let mut other = Octets::new(alloc);
    put_yes(is_over(alloc, true, past)?, &mut other)?;
    put_apart(out, other.as_slice())
}

fn is_over(alloc: Global, exchanged: bool, past: &str) -> Result<bool, Bad> {
    let mut story = Story::new(alloc, exchanged);
    is_over_after(&mut story, past)
}

fn is_over_after(story: &mut Story, past: &str) -> Result<bool, Bad> {
    story.play(past)?;
    Ok(is_released(story.alloc(), story.items.as_slice())?)
}
