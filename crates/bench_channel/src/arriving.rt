//! Frames that arrive, and marks that are taken.
use crate::stop::Stop;
use beep_channel::Channel;
use beep_frame::{Head, Kind};

/// The most octets in a frame.
const PIECE: usize = 4096;

/// More parts than any run takes of one channel.
const MOST_PARTS: u32 = 4096;

/// Has so many requests arrive, within one window.
pub(crate) fn arrive_all(channel: &mut Channel, payload: &[u8], messages: u32) -> Result<(), Stop> {
    channel.seq_told();
    let mut seqno: u32 = 0;
    for msgno in 0..messages {
        seqno = arrive_message(channel, payload, msgno, seqno)?;
    }
    Ok(())
}

/// Has one request arrive, in frames of at most 4,096 octets, and answers the next sequence number.
fn arrive_message(
    channel: &mut Channel,
    payload: &[u8],
    msgno: u32,
    first: u32,
) -> Result<u32, Stop> {
    let mut seqno = first;
    let mut rest = payload;
    for _ in 0..=payload.len() / PIECE {
        let count = rest.len().min(PIECE);
        let more = count < rest.len();
        arrive(channel, &rest[..count], msgno, seqno, more)?;
        if !more {
            return Ok(seqno.wrapping_add(count as u32));
        }
        seqno = seqno.wrapping_add(count as u32);
        rest = &rest[count..];
    }
    Ok(seqno)
}

/// Has one frame of a request arrive.
fn arrive(
    channel: &mut Channel,
    payload: &[u8],
    msgno: u32,
    seqno: u32,
    more: bool,
) -> Result<(), Stop> {
    let Ok(size) = u32::try_from(payload.len()) else {
        return Err(Stop::Refused);
    };
    let head = Head {
        kind: Kind::Msg,
        channel: channel.number(),
        msgno,
        more,
        seqno,
        size,
        ansno: 0,
    };
    if channel.judge(&head).is_some() || channel.receiving().is_some() {
        return Err(Stop::Refused);
    }
    if payload.len() != head.size as usize {
        return Err(Stop::Refused);
    }
    channel.begin(&head);
    channel.make_room()?;
    channel.arrive(payload)?;
    Ok(())
}

/// Takes all that is untaken.
pub(crate) fn take_all(channel: &mut Channel) {
    let mut buf = [0u8; PIECE];
    for _ in 0..MOST_PARTS {
        if channel.take(&mut buf).is_none() {
            return;
        }
    }
}
