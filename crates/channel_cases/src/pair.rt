//! Two ends of one life, which drive each other.

use crate::alone::{new_channel, word_of};
use crate::give::give_all;
use beep_channel::Channel;
use beep_frame::Head;
use beep_inbox::Part;
use beep_octets::Octets;
use case_lines::{Bad, Fields, begin, put_number, put_word, put_yes};
use std::alloc::Global;

/// The most octets of a frame, and four turns: what the other end takes in each, and whether both
/// ends are drained at last.
pub(crate) fn play(alloc: Global, fields: &mut Fields<'_>, out: &mut Octets) -> Result<(), Bad> {
    let most = fields.number()?;
    let mut a = new_channel(alloc)?;
    play_with(&mut a, most, fields, out)
}

fn play_with(
    a: &mut Channel,
    most: u32,
    fields: &mut Fields<'_>,
    out: &mut Octets,
) -> Result<(), Bad> {
    let mut b = new_channel(out.alloc())?;
    turns(a, &mut b, most, fields, out)
}

fn turns(
    a: &mut Channel,
    b: &mut Channel,
    most: u32,
    fields: &mut Fields<'_>,
    out: &mut Octets,
) -> Result<(), Bad> {
    for _turn in 0..4 {
        turn(a, b, fields.next()?, most, out)?;
    }
    put_yes(a.is_drained() && b.is_drained(), out)?;
    Ok(())
}

/// `a`, or `b`, and the messages that it gives before the first frame goes.
fn turn(
    a: &mut Channel,
    b: &mut Channel,
    text: &str,
    most: u32,
    out: &mut Octets,
) -> Result<(), Bad> {
    if let Some(messages) = text.strip_prefix("a ") {
        return pass(a, b, messages, most, out);
    }
    if let Some(messages) = text.strip_prefix("b ") {
        return pass(b, a, messages, most, out);
    }
    Err(Bad::Field)
}

fn pass(
    from: &mut Channel,
    to: &mut Channel,
    messages: &str,
    most: u32,
    out: &mut Octets,
) -> Result<(), Bad> {
    give_all(from, messages)?;
    carry(from, to, most, out.alloc())?;
    take_all(to, out)
}

/// Carries each frame that is ready, of at most so many octets.
fn carry(from: &mut Channel, to: &mut Channel, most: u32, alloc: Global) -> Result<(), Bad> {
    for _ in 0..1000u32 {
        if !from.is_ready() {
            return Ok(());
        }
        carry_one(from, to, most, alloc)?;
    }
    Err(Bad::Field)
}

fn carry_one(from: &mut Channel, to: &mut Channel, most: u32, alloc: Global) -> Result<(), Bad> {
    let mut octets = Octets::new(alloc);
    octets.reserve(most as usize)?;
    if most == 0 || !from.is_ready() {
        return Err(Bad::Field);
    }
    let head = from.cut(most, &mut octets);
    receive(to, &head, octets.as_slice())
}

/// Receives a frame, which must break no rule.
fn receive(to: &mut Channel, head: &Head, payload: &[u8]) -> Result<(), Bad> {
    if to.judge(head).is_some() || to.receiving().is_some() {
        return Err(Bad::Field);
    }
    if head.channel != to.number() || payload.len() != head.size as usize {
        return Err(Bad::Field);
    }
    to.begin(head);
    to.make_room()?;
    to.arrive(payload)?;
    Ok(())
}

fn take_all(to: &mut Channel, out: &mut Octets) -> Result<(), Bad> {
    for _ in 0..100u32 {
        if !is_taken(to, out)? {
            return Ok(());
        }
    }
    Err(Bad::Field)
}

/// Takes the next part, where there is one.
fn is_taken(to: &mut Channel, out: &mut Octets) -> Result<bool, Bad> {
    let mut buf = [0u8; 64];
    match to.take(&mut buf) {
        Some(part) => {
            put_part(part, &buf, out)?;
            Ok(true)
        }
        None => Ok(false),
    }
}

/// The keyword, the position of the request, the answer number, and the octets with a full stop
/// where the message ends.
fn put_part(part: Part, octets: &[u8], out: &mut Octets) -> Result<(), Bad> {
    let Some(octets) = octets.get(..part.len as usize) else {
        return Err(Bad::Field);
    };
    put_word(word_of(part.tag.kind), out)?;
    put_number(part.tag.request, out)?;
    put_number(part.tag.ansno as u64, out)?;
    begin(out)?;
    out.extend(octets)?;
    if part.ended {
        out.extend(b".")?;
    }
    Ok(())
}
