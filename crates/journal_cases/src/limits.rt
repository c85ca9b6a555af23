//! Rules on how much there may be, after sessions that a loop makes.

use crate::rules::{Broken, put_apart, put_broken, verdict_after};
use crate::story::Story;
use beep_octets::Octets;
use case_lines::{Bad, Fields};
use std::alloc::Global;

/// What happens in a few words, how many sent requests of one octet there are on channel 1, how
/// many received answers of one octet to the first go on, what has happened after these, and what
/// comes: the rule that it breaks and the octet, as it is and with the sides exchanged.
pub(crate) fn limit(alloc: Global, fields: &mut Fields<'_>, out: &mut Octets) -> Result<(), Bad> {
    fields.next()?;
    let counts = (fields.number()?, fields.number()?);
    let past = fields.next()?;
    let next = fields.next()?;
    put_broken(after(alloc, false, counts, past, next)?, out)?;
    let mut other = Octets::new(alloc);
    put_broken(after(alloc, true, counts, past, next)?, &mut other)?;
    put_apart(out, other.as_slice())
}

fn after(
    alloc: Global,
    exchanged: bool,
    counts: (u32, u32),
    past: &str,
    next: &str,
) -> Result<Broken, Bad> {
    let mut story = Story::new(alloc, exchanged);
    begin(&mut story, counts.0, counts.1)?;
    verdict_after(&mut story, &[], past, next)
}

fn begin(story: &mut Story, requests: u32, answers: u32) -> Result<(), Bad> {
    story.play("started")?;
    ask(story, requests, 1)?;
    answer(story, answers)
}

/// So many requests of this size pass, of numbers from 0.
pub(crate) fn ask(story: &mut Story, count: u32, size: u32) -> Result<(), Bad> {
    for number in 0..count {
        let text = format!(in story.alloc(); "S MSG 1 {number} . {size}")?;
        story.step(text.as_str())?;
    }
    Ok(())
}

/// So many answers of one octet to the first go on, of numbers from 0.
pub(crate) fn answer(story: &mut Story, count: u32) -> Result<(), Bad> {
    for number in 0..count {
        let text = format!(in story.alloc(); "R ANS 1 0 * 1 {number}")?;
        story.step(text.as_str())?;
    }
    Ok(())
}

/// What happens in a few words, the SEQ that makes a window of 2,000,000 octets, a frame of 65,536
/// octets that passes 16 times, and what comes: the rule that it breaks and the octet, as it is and
/// with the sides exchanged.
pub(crate) fn longest(alloc: Global, fields: &mut Fields<'_>, out: &mut Octets) -> Result<(), Bad> {
    fields.next()?;
    let seq = fields.next()?;
    let frame = fields.next()?;
    let next = fields.next()?;
    put_broken(after_16(alloc, false, seq, frame, next)?, out)?;
    let mut other = Octets::new(alloc);
    put_broken(after_16(alloc, true, seq, frame, next)?, &mut other)?;
    put_apart(out, other.as_slice())
}

fn after_16(
    alloc: Global,
    exchanged: bool,
    seq: &str,
    frame: &str,
    next: &str,
) -> Result<Broken, Bad> {
    let mut story = Story::new(alloc, exchanged);
    pass_16(&mut story, seq, frame)?;
    verdict_after(&mut story, &[], "-", next)
}

fn pass_16(story: &mut Story, seq: &str, frame: &str) -> Result<(), Bad> {
    story.play("started")?;
    story.step(seq)?;
    for _ in 0..16 {
        story.step(frame)?;
    }
    Ok(())
}
