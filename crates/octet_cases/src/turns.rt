//! The order of the channels, and whose turn it is.

use beep_octets::Octets;
use beep_turns::{MAX_CHANNELS, Turns};
use case_lines::{Bad, Fields, number_of, put_number, put_word};
use std::alloc::{AllocError, Global};

/// What is done with the channels.
pub(crate) fn turns(alloc: Global, fields: &mut Fields<'_>, out: &mut Octets) -> Result<(), Bad> {
    let mut turns = Turns::new(alloc)?;
    for step in fields.next()?.split(' ') {
        step_of(&mut turns, step, out)?;
    }
    Ok(())
}

/// `+5`: a channel is added. `-5`: one is removed. `all`: the channels. `?011`: the channel that
/// has the turn where those with a 1 are ready.
fn step_of(turns: &mut Turns, step: &str, out: &mut Octets) -> Result<(), Bad> {
    if let Some(channel) = step.strip_prefix('+') {
        return add(turns, number_of(channel)?);
    }
    if let Some(channel) = step.strip_prefix('-') {
        turns.remove(number_of(channel)?);
        return Ok(());
    }
    if let Some(flags) = step.strip_prefix('?') {
        return put_next(turns, flags, out);
    }
    put_all(turns, out)
}

fn add(turns: &mut Turns, channel: u32) -> Result<(), Bad> {
    if turns.find(channel).is_some() || MAX_CHANNELS < turns.len() {
        return Err(Bad::Field);
    }
    turns.add(channel);
    Ok(())
}

fn put_next(turns: &mut Turns, flags: &str, out: &mut Octets) -> Result<(), Bad> {
    let ready = flags_of(out.alloc(), flags)?;
    if ready.len() != turns.len() {
        return Err(Bad::Field);
    }
    put_channel(turns.next(ready.as_slice()), out)
}

fn flags_of(alloc: Global, flags: &str) -> Result<Vec<bool>, AllocError> {
    let mut ready = Vec::new(alloc);
    for flag in flags.chars() {
        ready.push(flag == '1')?;
    }
    Ok(ready)
}

fn put_all(turns: &Turns, out: &mut Octets) -> Result<(), Bad> {
    for place in 0..turns.len() {
        put_channel(turns.place(place), out)?;
    }
    Ok(())
}

fn put_channel(channel: Option<u32>, out: &mut Octets) -> Result<(), Bad> {
    match channel {
        Some(number) => put_number(number as u64, out)?,
        None => put_word("none", out)?,
    }
    Ok(())
}
