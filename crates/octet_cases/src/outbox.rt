//! The messages of one life that were given and not wholly sent.

use beep_frame::{Kind, Tag};
use beep_octets::Octets;
use beep_outbox::{GiveError, MAX_UNLIMITED, Outbox};
use case_lines::{Bad, Fields, begin, number_of, put_number, put_word};
use std::alloc::Global;

/// The most octets of an outbox, or `none`, and what is done with it.
pub(crate) fn outbox(alloc: Global, fields: &mut Fields<'_>, out: &mut Octets) -> Result<(), Bad> {
    let mut outbox = Outbox::new(alloc, limit_of(fields.next()?)?)?;
    for step in fields.next()?.split(' ') {
        step_of(&mut outbox, step, out)?;
    }
    Ok(())
}

fn limit_of(field: &str) -> Result<Option<u32>, Bad> {
    if field == "none" {
        return Ok(None);
    }
    Ok(Some(number_of(field)?))
}

/// `+0ab`: a request of this position is given. `-4`: frames of at most so many octets are cut
/// until nothing is left. `!4`: one is cut. `next`, `queued`: what the outbox says. `reserve`: it
/// makes room for two messages of five octets together.
fn step_of(outbox: &mut Outbox, step: &str, out: &mut Octets) -> Result<(), Bad> {
    if let Some(message) = step.strip_prefix('+') {
        return give(outbox, message.as_bytes(), out);
    }
    if let Some(most) = step.strip_prefix('-') {
        return cut_all(outbox, number_of(most)?, out);
    }
    if let Some(most) = step.strip_prefix('!') {
        return cut(outbox, number_of(most)?, out);
    }
    match step {
        "next" => put_next(outbox, out),
        "queued" => put(outbox.queued(), out),
        "reserve" => reserve(outbox),
        _ => Err(Bad::Field),
    }
}

fn put(number: u32, out: &mut Octets) -> Result<(), Bad> {
    put_number(number as u64, out)?;
    Ok(())
}

fn reserve(outbox: &mut Outbox) -> Result<(), Bad> {
    outbox.reserve(5, 2)?;
    Ok(())
}

/// Gives a request: a digit, its position, and its octets.
fn give(outbox: &mut Outbox, message: &[u8], out: &mut Octets) -> Result<(), Bad> {
    let [digit, octets @ ..] = message else {
        return Err(Bad::Field);
    };
    if (MAX_UNLIMITED as usize) < octets.len() {
        return Err(Bad::Field);
    }
    match outbox.give(request(*digit), octets) {
        Ok(()) => Ok(()),
        Err(error) => put_refusal(error, out),
    }
}

fn request(digit: u8) -> Tag {
    Tag {
        kind: Kind::Msg,
        request: digit.wrapping_sub(b'0') as u64,
        ansno: 0,
    }
}

fn put_refusal(error: GiveError, out: &mut Octets) -> Result<(), Bad> {
    match error {
        GiveError::Full { queued, limit } => {
            put_word("full", out)?;
            put(queued, out)?;
            put(limit, out)
        }
        GiveError::NoMemory => Err(Bad::NoMemory),
    }
}

fn cut_all(outbox: &mut Outbox, most: u32, out: &mut Octets) -> Result<(), Bad> {
    for _frame in 0..20 {
        if !outbox.has_next() {
            return Ok(());
        }
        cut(outbox, most, out)?;
    }
    Err(Bad::Field)
}

/// Cuts a frame: the position, `*` where more of the message follows and `.` where none does, and
/// the octets.
fn cut(outbox: &mut Outbox, most: u32, out: &mut Octets) -> Result<(), Bad> {
    let mut payload = Octets::new(out.alloc());
    payload.reserve(most as usize)?;
    if most == 0 || !outbox.has_next() {
        return Err(Bad::Field);
    }
    let (tag, count, more) = outbox.cut(most, &mut payload);
    if payload.len() != count as usize {
        return Err(Bad::Field);
    }
    put_frame(tag, more, payload.as_slice(), out)
}

fn put_frame(tag: Tag, more: bool, payload: &[u8], out: &mut Octets) -> Result<(), Bad> {
    let mark = if more { b'*' } else { b'.' };
    begin(out)?;
    out.extend(&[b'0' + (tag.request % 10) as u8, mark])?;
    out.extend(payload)?;
    Ok(())
}

/// How many octets are left of the first message, and its position.
fn put_next(outbox: &mut Outbox, out: &mut Octets) -> Result<(), Bad> {
    if !outbox.has_next() {
        put_word("none", out)?;
        return Ok(());
    }
    put(outbox.next_len(), out)?;
    put_number(outbox.next_tag().request, out)?;
    Ok(())
}
