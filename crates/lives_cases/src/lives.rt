//! Three channels in memory: who sends and who tells first, what arrives where, and lives that
//! begin and end.

use crate::carry::{arrive, begin, receive, take};
use beep_channel::Channel;
use beep_frame::{MAX_NUMBER, Rule, Seq};
use beep_lives::Lives;
use beep_octets::{NoMemory, Octets};
use beep_seq::INITIAL_WINDOW;
use beep_turns::MAX_CHANNELS;
use case_lines::{Bad, Fields, begin as begin_word, number_of, put_number, put_word, put_yes};
use std::alloc::Global;

/// The most octets of a frame that is cut.
const PIECE: u32 = 1024;

/// What is done with channel zero and the channels 3 and 1, whose windows have 4,096 octets.
pub(crate) fn lives(alloc: Global, fields: &mut Fields<'_>, out: &mut Octets) -> Result<(), Bad> {
    let steps = fields.next()?;
    let mut lives = Lives::new(alloc, INITIAL_WINDOW)?;
    with_three(alloc, &mut lives, steps, out)
}

fn with_three(alloc: Global, lives: &mut Lives, steps: &str, out: &mut Octets) -> Result<(), Bad> {
    add(alloc, lives, 3)?;
    add(alloc, lives, 1)?;
    for step in steps.split(' ') {
        step_of(lives, step, out)?;
    }
    Ok(())
}

fn add(alloc: Global, lives: &mut Lives, number: u32) -> Result<(), Bad> {
    if number == 0 || MAX_NUMBER < number {
        return Err(Bad::Field);
    }
    let channel = Channel::new(alloc, number, INITIAL_WINDOW)?;
    if lives.is_live(channel.number()) || MAX_CHANNELS < lives.len() {
        return Err(Bad::Field);
    }
    lives.add(channel);
    Ok(())
}

/// `ready`, `due`: whether a channel is. `cut`: the next frame of at most 1,024 octets. `tell`: the
/// next SEQ. Others name a channel.
fn step_of(lives: &mut Lives, step: &str, out: &mut Octets) -> Result<(), Bad> {
    match step {
        "ready" => put_yes(lives.has_ready(), out)?,
        "due" => put_yes(lives.has_due(), out)?,
        "cut" => cut(lives, out)?,
        "tell" => put_seq(lives.tell(), out)?,
        _ => of_number(lives, step, out)?,
    }
    Ok(())
}

/// `at:1`: the number of the channel at a place. `live:1`: whether it is. `end:1`: it ends.
/// `give:3:one`: a request is given. `come:3`: a request of 4,096 octets arrives. `take:3`: it is
/// taken. `begin:3`: a frame of one octet begins. `whole:3`: it arrives. `judge:3`: what such a
/// header breaks. `seq:3:9`: a SEQ with this ackno and a window of 4,096 octets arrives.
fn of_number(lives: &mut Lives, step: &str, out: &mut Octets) -> Result<(), Bad> {
    let Some((word, text)) = step.split_once(':') else {
        return Err(Bad::Field);
    };
    match word {
        "at" => put_place(lives.place(number_of(text)? as usize), out),
        "live" => live(lives, number_of(text)?, out),
        "end" => end(lives, number_of(text)?),
        "give" => give(lives, text),
        "come" => receive(lives, number_of(text)?, INITIAL_WINDOW),
        "take" => take(lives, number_of(text)?, out),
        "begin" => begin(lives, number_of(text)?, 1),
        "whole" => arrive(lives, number_of(text)?, out),
        "judge" => judge(lives, number_of(text)?, out),
        "seq" => acked(lives, text, out),
        _ => Err(Bad::Field),
    }
}

fn put_place(place: Option<u32>, out: &mut Octets) -> Result<(), Bad> {
    match place {
        Some(number) => put_number(number as u64, out)?,
        None => put_word("none", out)?,
    }
    Ok(())
}

fn live(lives: &Lives, number: u32, out: &mut Octets) -> Result<(), Bad> {
    put_yes(lives.is_live(number), out)?;
    Ok(())
}

fn end(lives: &mut Lives, number: u32) -> Result<(), Bad> {
    if number == 0 {
        return Err(Bad::Field);
    }
    lives.remove(number);
    Ok(())
}

fn give(lives: &mut Lives, text: &str) -> Result<(), Bad> {
    let Some((number, octets)) = text.split_once(':') else {
        return Err(Bad::Field);
    };
    let number = number_of(number)?;
    if number == 0 || !lives.is_live(number) {
        return Err(Bad::Field);
    }
    match lives.give_ask(number, octets.as_bytes()) {
        Ok(_) => Ok(()),
        Err(_) => Err(Bad::Field),
    }
}

/// Cuts the next frame: its channel, number, size and octets.
fn cut(lives: &mut Lives, out: &mut Octets) -> Result<(), Bad> {
    let mut payload = Octets::new(out.alloc());
    payload.reserve(PIECE as usize)?;
    let Some(head) = lives.cut(PIECE, &mut payload) else {
        return put_none(out);
    };
    put_number(head.channel as u64, out)?;
    put_number(head.msgno as u64, out)?;
    put_number(head.size as u64, out)?;
    Ok(put_octets(payload.as_slice(), out)?)
}

fn put_none(out: &mut Octets) -> Result<(), Bad> {
    put_word("none", out)?;
    Ok(())
}

fn put_octets(octets: &[u8], out: &mut Octets) -> Result<(), NoMemory> {
    begin_word(out)?;
    out.extend(octets)
}

fn put_seq(seq: Option<Seq>, out: &mut Octets) -> Result<(), Bad> {
    let Some(seq) = seq else {
        return put_none(out);
    };
    put_number(seq.channel as u64, out)?;
    put_number(seq.ackno as u64, out)?;
    put_number(seq.window as u64, out)?;
    Ok(())
}

fn judge(lives: &Lives, number: u32, out: &mut Octets) -> Result<(), Bad> {
    let head = crate::carry::head_of(number, 1)?;
    put_word(name_of(lives.judge(&head)), out)?;
    Ok(())
}

fn name_of(rule: Option<Rule>) -> &'static str {
    match rule {
        None => "none",
        Some(Rule::NoSuchChannel) => "NoSuchChannel",
        Some(_) => "another rule",
    }
}

fn acked(lives: &mut Lives, text: &str, out: &mut Octets) -> Result<(), Bad> {
    let Some((channel, ackno)) = text.split_once(':') else {
        return Err(Bad::Field);
    };
    let seq = Seq {
        channel: number_of(channel)?,
        ackno: number_of(ackno)?,
        window: INITIAL_WINDOW,
    };
    match lives.acked(&seq) {
        Ok(live) => put_yes(live, out)?,
        Err(_) => put_word("bad", out)?,
    }
    Ok(())
}
