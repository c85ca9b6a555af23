//! Frames that arrive on the live channels, and what is taken of them.
ghost use Rattle.std.specs.Prelude.{◌≡◌, None, Some};
ghost use Rattle.beep_lives.specs.Lives.{live_at, receiving_of};

use beep_frame::{Head, Kind};
use beep_lives::Lives;
use beep_octets::Octets;
use case_lines::{Bad, put_number, put_word, put_yes};

/// The most octets that arrive, or are taken, at once.
const PIECE: usize = 4096;

/// The header of a first request of so many octets.
pub(crate) fn head_of(channel: u32, size: u32) -> Result<Head, Bad> {
    match Head::new(Kind::Msg, channel, 0, false, 0, size, 0) {
        Some(head) => Ok(head),
        None => Err(Bad::Field),
    }
}

/// Begins a frame, which must break no rule.
pub(crate) fn begin(lives: &mut Lives, channel: u32, size: u32) -> Result<(), Bad> {
    let head = head_of(channel, size)?;
    if lives.judge(&head).is_some() || lives.receiving(head.channel).is_some() {
        return Err(Bad::Field);
    }
    lives.begin(&head);
    Ok(())
}

/// Receives a frame of so many octets.
pub(crate) fn receive(lives: &mut Lives, channel: u32, size: u32) -> Result<(), Bad> {
    begin(lives, channel, size)?;
    lives.make_room(channel)?;
    if has_arrived(lives, channel, size)? {
        return Ok(());
    }
    Err(Bad::Field)
}

/// Lets the frame of one octet arrive that has begun in a life, or in one that has ended.
pub(crate) fn arrive(lives: &mut Lives, channel: u32, out: &mut Octets) -> Result<(), Bad> {
    put_yes(has_arrived(lives, channel, 1)?, out)?;
    Ok(())
}

fn has_arrived(lives: &mut Lives, channel: u32, size: u32) -> Result<bool, Bad> {
    let head = head_of(channel, size)?;
    let payload = [b'x'; PIECE];
    let Some(payload) = payload.get(..size as usize) else {
        return Err(Bad::Field);
    };
    match lives.receiving(head.channel) {
        Some(begun) => whole(lives, head.channel, &begun, payload),
        None => late(lives, &head, payload),
    }
}

/// A frame that has begun in a live life.
fn whole(lives: &mut Lives, channel: u32, begun: &Head, payload: &[u8]) -> Result<bool, Bad>
    requires { receiving_of (live_at channel lives.old) ≡ Some begun.now }
{
    if begun.channel != channel || payload.len() != begun.size as usize {
        return Err(Bad::Field);
    }
    Ok(lives.arrive(begun, payload)?)
}

/// A frame whose life has ended.
fn late(lives: &mut Lives, head: &Head, payload: &[u8]) -> Result<bool, Bad>
    requires { receiving_of (live_at head.now.channel lives.old) ≡ None }
{
    if payload.len() != head.size as usize {
        return Err(Bad::Field);
    }
    Ok(lives.arrive(head, payload)?)
}

/// Takes at most 4,096 octets: how many, and `ended` where their message ends.
pub(crate) fn take(lives: &mut Lives, channel: u32, out: &mut Octets) -> Result<(), Bad> {
    if !lives.is_live(channel) {
        return Err(Bad::Field);
    }
    let mut buf = [0u8; PIECE];
    match lives.take(channel, &mut buf) {
        Some(part) => put_part(part.len, part.ended, out),
        None => Err(Bad::Field),
    }
}

fn put_part(len: u32, ended: bool, out: &mut Octets) -> Result<(), Bad> {
    put_number(len as u64, out)?;
    if ended {
        put_word("ended", out)?;
    }
    Ok(())
}
