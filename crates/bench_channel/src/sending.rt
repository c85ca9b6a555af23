//! Messages that are given, and frames that are cut.
use crate::WINDOW;
use crate::stop::Stop;
use beep_channel::Channel;
use beep_frame::Seq;
use beep_octets::Octets;

/// The most octets in a frame.
pub(crate) const PIECE: u32 = 4096;

/// More frames than any run cuts of one channel.
const MOST_FRAMES: u32 = 4096;

/// Gives so many requests.
pub(crate) fn give_all(channel: &mut Channel, payload: &[u8], messages: u32) -> Result<(), Stop> {
    for _ in 0..messages {
        if channel.number() == 0 {
            return Err(Stop::Refused);
        }
        if channel.give_ask(payload).is_err() {
            return Err(Stop::Refused);
        }
    }
    Ok(())
}

/// Cuts all that was given. The peer's window is opened anew where it closes.
pub(crate) fn cut_all(channel: &mut Channel, out: &mut Octets) -> Result<(), Stop> {
    let mut sent: u32 = 0;
    for _ in 0..MOST_FRAMES {
        if !channel.is_ready() {
            open(channel, sent)?;
        }
        if !channel.is_ready() {
            return Ok(());
        }
        out.clear();
        if out.spare() < PIECE as usize {
            return Err(Stop::NoMemory);
        }
        let head = channel.cut(PIECE, out);
        sent = sent.wrapping_add(head.size);
    }
    Err(Stop::Refused)
}

/// Obeys a SEQ that acknowledges what was sent, with a window of 65,536 octets.
fn open(channel: &mut Channel, sent: u32) -> Result<(), Stop> {
    let seq = Seq {
        channel: 1,
        ackno: sent,
        window: WINDOW,
    };
    match channel.acked(&seq) {
        Ok(()) => Ok(()),
        Err(_) => Err(Stop::Refused),
    }
}
