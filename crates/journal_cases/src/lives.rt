//! The rules of one life of a channel, whose frames are headers with a size alone.

use crate::limits::{answer, ask};
use crate::rules::{put_apart, put_rule};
use crate::story::{Frame, Story};
use crate::text::{first_word, side_of};
use beep_frame::{Head, Rule};
use beep_history::{Side, broken_rule, broken_within};
use beep_octets::Octets;
use case_lines::{Bad, Fields, put_word};
use std::alloc::Global;

/// An edge that no frame passes whose size and sequence number have 32 bits each.
const WIDE: u128 = 1 << 33;

/// What happens in a few words, what has happened, and the header that comes: the rule that it
/// breaks, as it is and with the sides exchanged.
pub(crate) fn life(alloc: Global, fields: &mut Fields<'_>, out: &mut Octets) -> Result<(), Bad> {
    fields.next()?;
    let past = fields.next()?;
    let next = fields.next()?;
    put_broken(after(alloc, false, (0, 0), past, next)?, out)?;
    let mut other = Octets::new(alloc);
    put_broken(after(alloc, true, (0, 0), past, next)?, &mut other)?;
    put_apart(out, other.as_slice())
}

/// The same, where so many requests of the sent side and so many unfinished answers to the first of
/// them came before.
pub(crate) fn limit(alloc: Global, fields: &mut Fields<'_>, out: &mut Octets) -> Result<(), Bad> {
    fields.next()?;
    let counts = (fields.number()?, fields.number()?);
    let past = fields.next()?;
    let next = fields.next()?;
    put_broken(after(alloc, false, counts, past, next)?, out)?;
    let mut other = Octets::new(alloc);
    put_broken(after(alloc, true, counts, past, next)?, &mut other)?;
    put_apart(out, other.as_slice())
}

/// The same as `life`: the rule as it is, and that with the sides exchanged.
pub(crate) fn window(alloc: Global, fields: &mut Fields<'_>, out: &mut Octets) -> Result<(), Bad> {
    fields.next()?;
    let past = fields.next()?;
    let next = fields.next()?;
    put_broken(after(alloc, false, (0, 0), past, next)?, out)?;
    put_broken(after(alloc, true, (0, 0), past, next)?, out)
}

/// The same as `life`, in a window whose edge is at 2^33 octets.
pub(crate) fn wide(alloc: Global, fields: &mut Fields<'_>, out: &mut Octets) -> Result<(), Bad> {
    fields.next()?;
    let past = fields.next()?;
    let next = fields.next()?;
    put_broken(after_in_wide(alloc, false, past, next)?, out)?;
    let mut other = Octets::new(alloc);
    put_broken(after_in_wide(alloc, true, past, next)?, &mut other)?;
    put_apart(out, other.as_slice())
}

fn put_broken(rule: Option<Rule>, out: &mut Octets) -> Result<(), Bad> {
    match rule {
        Some(rule) => put_rule(rule, out),
        None => {
            put_word("none", out)?;
            Ok(())
        }
    }
}

fn after(
    alloc: Global,
    exchanged: bool,
    counts: (u32, u32),
    past: &str,
    next: &str,
) -> Result<Option<Rule>, Bad> {
    let mut story = Story::bare(alloc, exchanged);
    ask(&mut story, counts.0, 0)?;
    answer(&mut story, counts.1)?;
    broken_after(&mut story, past, next)
}

fn broken_after(story: &mut Story, past: &str, next: &str) -> Result<Option<Rule>, Bad> {
    story.play(past)?;
    let (side, head) = header(story, next)?;
    Ok(broken_rule(side, story.items.as_slice(), &head))
}

/// The side and the header of a text.
fn header(story: &Story, text: &str) -> Result<(Side, Head), Bad> {
    let (word, rest) = first_word(text);
    let side = side_of(word)?;
    let Frame { head, .. } = story.frame(side, rest)?;
    Ok((story.side(side), head))
}

fn after_in_wide(
    alloc: Global,
    exchanged: bool,
    past: &str,
    next: &str,
) -> Result<Option<Rule>, Bad> {
    let mut story = Story::bare(alloc, exchanged);
    broken_in_wide(&mut story, past, next)
}

fn broken_in_wide(story: &mut Story, past: &str, next: &str) -> Result<Option<Rule>, Bad> {
    story.play(past)?;
    let (side, head) = header(story, next)?;
    Ok(broken_within(WIDE, side, story.items.as_slice(), &head))
}
