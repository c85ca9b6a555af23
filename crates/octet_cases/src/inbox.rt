//! What arrived in one life and was not taken.

use beep_frame::{Kind, Tag};
use beep_inbox::{Inbox, Part};
use beep_octets::Octets;
use case_lines::{Bad, Fields, begin, number_of, put_number, put_yes};
use std::alloc::Global;

/// The window of an inbox, and what is done with it.
pub(crate) fn inbox(alloc: Global, fields: &mut Fields<'_>, out: &mut Octets) -> Result<(), Bad> {
    let mut inbox = Inbox::new(alloc, fields.number()?)?;
    for step in fields.next()?.split(' ') {
        step_of(&mut inbox, step, out)?;
    }
    Ok(())
}

/// `+M0ab.`: a piece is put. `-4`: parts are taken until there is none, each into so many octets.
/// `room`, `untaken`, `empty`: what the inbox says. `make`: it makes room for one more run.
fn step_of(inbox: &mut Inbox, step: &str, out: &mut Octets) -> Result<(), Bad> {
    if let Some(piece) = step.strip_prefix('+') {
        return put_piece(inbox, piece.as_bytes());
    }
    if let Some(size) = step.strip_prefix('-') {
        return take_all(inbox, number_of(size)? as usize, out);
    }
    match step {
        "room" => put_number(inbox.room() as u64, out)?,
        "untaken" => put_number(inbox.untaken() as u64, out)?,
        "empty" => put_yes(inbox.is_empty(), out)?,
        "make" => inbox.make_room()?,
        _ => return Err(Bad::Field),
    }
    Ok(())
}

/// A letter for the kind, a digit, the octets, and a full stop where the message ends.
fn put_piece(inbox: &mut Inbox, piece: &[u8]) -> Result<(), Bad> {
    let [letter, digit, text @ ..] = piece else {
        return Err(Bad::Field);
    };
    let tag = tag_of(*letter, *digit)?;
    match text {
        [octets @ .., b'.'] => put(inbox, tag, octets, true),
        octets => put(inbox, tag, octets, false),
    }
}

fn put(inbox: &mut Inbox, tag: Tag, octets: &[u8], ended: bool) -> Result<(), Bad> {
    if octets.len() > inbox.room() as usize {
        return Err(Bad::Field);
    }
    inbox.put(tag, octets, ended)?;
    Ok(())
}

/// The digit is the position of the request, and of an ANS the answer number.
fn tag_of(letter: u8, digit: u8) -> Result<Tag, Bad> {
    let kind = kind_of(letter)?;
    let number = digit.wrapping_sub(b'0') as u32;
    let ansno = if kind.is_ans() { number } else { 0 };
    let request = if kind.is_ans() { 0 } else { number as u64 };
    Ok(Tag {
        kind,
        request,
        ansno,
    })
}

fn kind_of(letter: u8) -> Result<Kind, Bad> {
    match letter {
        b'M' => Ok(Kind::Msg),
        b'R' => Ok(Kind::Rpy),
        b'E' => Ok(Kind::Err),
        b'A' => Ok(Kind::Ans),
        b'N' => Ok(Kind::Nul),
        _ => Err(Bad::Field),
    }
}

fn letter_of(kind: Kind) -> u8 {
    match kind {
        Kind::Msg => b'M',
        Kind::Rpy => b'R',
        Kind::Err => b'E',
        Kind::Ans => b'A',
        Kind::Nul => b'N',
    }
}

fn take_all(inbox: &mut Inbox, size: usize, out: &mut Octets) -> Result<(), Bad> {
    for _part in 0..20 {
        if !is_taken(inbox, size, out)? {
            return Ok(());
        }
    }
    Err(Bad::Field)
}

/// Takes a part into so many octets, where there is one.
fn is_taken(inbox: &mut Inbox, size: usize, out: &mut Octets) -> Result<bool, Bad> {
    let mut buf = [0u8; 8];
    if size == 0 || buf.len() < size {
        return Err(Bad::Field);
    }
    match inbox.take(&mut buf[..size]) {
        Some(part) => {
            put_part(part, &buf, out)?;
            Ok(true)
        }
        None => Ok(false),
    }
}

/// Writes a part as it is put.
fn put_part(part: Part, octets: &[u8], out: &mut Octets) -> Result<(), Bad> {
    let Some(octets) = octets.get(..part.len as usize) else {
        return Err(Bad::Field);
    };
    begin(out)?;
    out.extend(&[letter_of(part.tag.kind), digit_of(part.tag)])?;
    out.extend(octets)?;
    if part.ended {
        out.extend(b".")?;
    }
    Ok(())
}

fn digit_of(tag: Tag) -> u8 {
    let number = if tag.kind.is_ans() {
        tag.ansno as u64
    } else {
        tag.request
    };
    b'0' + (number % 10) as u8
}
