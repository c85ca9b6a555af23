//! One channel by itself.
ghost use Rattle.std.specs.Prelude.{◌≡◌, IfOk};

use crate::give::put_refusal;
use beep_channel::Channel;
use beep_frame::{Head, Kind, Rule, Seq};
use beep_octets::{NoMemory, Octets};
use beep_seq::INITIAL_WINDOW;
use case_lines::{Bad, Fields, put_number, put_word, put_yes};
use std::alloc::Global;

/// The most octets of a frame that is cut.
const PIECE: u32 = 4096;

/// A new life of channel 1 with a window of 4,096 octets.
pub(crate) fn new_channel(alloc: Global) -> Result<Channel, NoMemory>
    ensures { IfOk result (λ channel. channel.held.number ≡ 1) }
{
    Channel::new(alloc, 1, INITIAL_WINDOW)
}

/// The size of a first request: the rule that its header breaks.
pub(crate) fn judge(alloc: Global, fields: &mut Fields<'_>, out: &mut Octets) -> Result<(), Bad> {
    let Some(head) = Head::new(Kind::Msg, 1, 0, false, 0, fields.number()?, 0) else {
        return Err(Bad::Field);
    };
    let channel = new_channel(alloc)?;
    put_word(name_of(channel.judge(&head)), out)?;
    Ok(())
}

fn name_of(rule: Option<Rule>) -> &'static str {
    match rule {
        None => "none",
        Some(Rule::Window) => "Window",
        Some(_) => "another rule",
    }
}

/// The ackno of a SEQ in a life in which nothing was sent: whether it is obeyed.
pub(crate) fn acked(alloc: Global, fields: &mut Fields<'_>, out: &mut Octets) -> Result<(), Bad> {
    let seq = Seq {
        channel: 1,
        ackno: fields.number()?,
        window: INITIAL_WINDOW,
    };
    let mut channel = new_channel(alloc)?;
    match channel.acked(&seq) {
        Ok(()) => put_word("ok", out)?,
        Err(_) => put_word("bad", out)?,
    }
    Ok(())
}

/// The octets of a first request, and those of a second: the positions of both, or why they are
/// refused, the first frame, and whether another one is ready then.
pub(crate) fn fill(alloc: Global, fields: &mut Fields<'_>, out: &mut Octets) -> Result<(), Bad> {
    let first = fields.number()?;
    let second = fields.number()?;
    let mut channel = new_channel(alloc)?;
    fill_channel(alloc, &mut channel, first, second, out)
}

fn fill_channel(
    alloc: Global,
    channel: &mut Channel,
    first: u32,
    second: u32,
    out: &mut Octets,
) -> Result<(), Bad> {
    ask(alloc, channel, first, out)?;
    ask(alloc, channel, second, out)?;
    cut(alloc, channel, out)?;
    put_yes(channel.is_ready(), out)?;
    Ok(())
}

fn ask(alloc: Global, channel: &mut Channel, count: u32, out: &mut Octets) -> Result<(), Bad> {
    let mut octets = Octets::new(alloc);
    for _ in 0..count {
        octets.extend(b"x")?;
    }
    if channel.number() == 0 {
        return Err(Bad::Field);
    }
    match channel.give_ask(octets.as_slice()) {
        Ok(position) => put_number(position, out)?,
        Err(error) => put_refusal(error, out)?,
    }
    Ok(())
}

/// Cuts a frame of at most 4,096 octets: its keyword, number, flag, sequence number and size.
fn cut(alloc: Global, channel: &mut Channel, out: &mut Octets) -> Result<(), Bad> {
    let mut octets = Octets::new(alloc);
    octets.reserve(PIECE as usize)?;
    if !channel.is_ready() {
        return Err(Bad::Field);
    }
    let head = channel.cut(PIECE, &mut octets);
    put_head(&head, out)
}

fn put_head(head: &Head, out: &mut Octets) -> Result<(), Bad> {
    put_word(word_of(head.kind), out)?;
    put_number(head.msgno as u64, out)?;
    put_word(if head.more { "*" } else { "." }, out)?;
    put_number(head.seqno as u64, out)?;
    put_number(head.size as u64, out)?;
    Ok(())
}

pub(crate) fn word_of(kind: Kind) -> &'static str {
    match kind {
        Kind::Msg => "MSG",
        Kind::Rpy => "RPY",
        Kind::Err => "ERR",
        Kind::Ans => "ANS",
        Kind::Nul => "NUL",
    }
}
