//! The spelling of a frame, of a header and of a SEQ.

use beep_frame::{
    Head, Kind, MAX_HEADER_LINE, SEQ_ROOM, SPELL_ROOM, Seq, spell, spell_header_line, spell_seq,
};
use beep_octets::Octets;
use case_lines::{Bad, Fields, begin, number_of, octets_of, put_number};
use std::alloc::Global;

/// A header and a payload: the text of the frame.
pub(crate) fn frame(alloc: Global, fields: &mut Fields<'_>, out: &mut Octets) -> Result<(), Bad> {
    let head = head_of(fields.next()?)?;
    let payload = octets_of(alloc, fields.next()?)?;
    if payload.len() != head.size as usize {
        return Err(Bad::Field);
    }
    out.reserve(head.size as usize + SPELL_ROOM)?;
    spell(&head, payload.as_slice(), out);
    Ok(())
}

/// A header: how many octets its line has, and the line.
pub(crate) fn line(fields: &mut Fields<'_>, out: &mut Octets) -> Result<(), Bad> {
    let head = head_of(fields.next()?)?;
    let mut line = Octets::new(out.alloc());
    line.reserve(MAX_HEADER_LINE)?;
    spell_header_line(&head, &mut line);
    put_number(line.len() as u64, out)?;
    begin(out)?;
    out.extend(line.as_slice())?;
    Ok(())
}

/// A SEQ: its text.
pub(crate) fn seq(fields: &mut Fields<'_>, out: &mut Octets) -> Result<(), Bad> {
    let (channel, rest) = first_word(fields.next()?);
    let (ackno, window) = first_word(rest);
    let seq = Seq {
        channel: number_of(channel)?,
        ackno: number_of(ackno)?,
        window: number_of(window)?,
    };
    out.reserve(SEQ_ROOM)?;
    spell_seq(&seq, out);
    Ok(())
}

fn first_word(text: &str) -> (&str, &str) {
    match text.split_once(' ') {
        Some(both) => both,
        None => (text, ""),
    }
}

/// The header of a keyword, a channel, a number, a flag, a sequence number, a size, and for an ANS
/// an answer number.
fn head_of(text: &str) -> Result<Head, Bad> {
    let (kind, rest) = first_word(text);
    let (channel, rest) = first_word(rest);
    let (msgno, rest) = first_word(rest);
    let (flag, rest) = first_word(rest);
    let (seqno, rest) = first_word(rest);
    let (size, ansno) = first_word(rest);
    Ok(Head {
        kind: kind_of(kind)?,
        channel: number_of(channel)?,
        msgno: number_of(msgno)?,
        more: flag == "*",
        seqno: number_of(seqno)?,
        size: number_of(size)?,
        ansno: number_of(ansno).unwrap_or(0),
    })
}

fn kind_of(word: &str) -> Result<Kind, Bad> {
    match word {
        "MSG" => Ok(Kind::Msg),
        "RPY" => Ok(Kind::Rpy),
        "ERR" => Ok(Kind::Err),
        "ANS" => Ok(Kind::Ans),
        "NUL" => Ok(Kind::Nul),
        _ => Err(Bad::Field),
    }
}
