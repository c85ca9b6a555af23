//! Frames and faults as words.

use beep_frame::{Head, Kind, Rule, Seq};
use beep_octets::Octets;
use case_lines::{Bad, begin, put_number, put_word};

/// The words of a header.
pub(crate) fn put_head(head: &Head, out: &mut Octets) -> Result<(), Bad> {
    put_word(word_of(head.kind), out)?;
    put_number(head.channel as u64, out)?;
    put_number(head.msgno as u64, out)?;
    put_word(if head.more { "*" } else { "." }, out)?;
    put_sizes(head, out)
}

fn put_sizes(head: &Head, out: &mut Octets) -> Result<(), Bad> {
    put_number(head.seqno as u64, out)?;
    put_number(head.size as u64, out)?;
    if head.kind.is_ans() {
        put_number(head.ansno as u64, out)?;
    }
    Ok(())
}

fn word_of(kind: Kind) -> &'static str {
    match kind {
        Kind::Msg => "MSG",
        Kind::Rpy => "RPY",
        Kind::Err => "ERR",
        Kind::Ans => "ANS",
        Kind::Nul => "NUL",
    }
}

/// `frame:` and the payload.
pub(crate) fn put_payload(payload: &[u8], out: &mut Octets) -> Result<(), Bad> {
    put_word("frame:", out)?;
    out.extend(payload)?;
    Ok(())
}

pub(crate) fn put_seq(seq: &Seq, out: &mut Octets) -> Result<(), Bad> {
    put_word("SEQ", out)?;
    put_number(seq.channel as u64, out)?;
    put_number(seq.ackno as u64, out)?;
    put_number(seq.window as u64, out)?;
    Ok(())
}

/// A word, a rule, and the place of an octet.
pub(crate) fn put_broken(word: &str, rule: Rule, at: u64, out: &mut Octets) -> Result<(), Bad> {
    let name = format!(in out.alloc(); "{rule:?}")?;
    put_word(word, out)?;
    put_word(name.as_str(), out)?;
    put_number(at, out)?;
    Ok(())
}

/// A word and a number.
pub(crate) fn put_count(word: &str, count: u64, out: &mut Octets) -> Result<(), Bad> {
    begin(out)?;
    out.extend(word.as_bytes())?;
    put_number(count, out)?;
    Ok(())
}
