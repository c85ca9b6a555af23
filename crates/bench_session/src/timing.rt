//! Requests that one session sends to another, each answered by an empty reply, to be timed.

use crate::peer::{a_peer, start};
use crate::stop::Stop;
use beep_session::beep_frame::Kind;
use beep_session::beep_journal::Role;
use beep_session::beep_octets::Octets;
use beep_session::beep_speaking::Emit;
use beep_session::{Duty, Event, Limits, MAX_PIECE, Session};
use std::alloc::Global;

/// The octets that go over a wire at once, and room for one frame more.
const PIECE: usize = 65536;

const ROOM: usize = 8192;

/// The most requests that wait for their reply.
const MOST_WAITING: u32 = 512;

/// What is timed.
#[derive(Clone, Copy, Debug)]
pub(crate) struct Load {
    pub(crate) messages: u32,
    pub(crate) size: u32,
    pub(crate) window: u32,
    pub(crate) channels: u32,
}

/// One end: its session, what it sent and wasn't heard, and how many replies it took.
#[derive(Drop)]
struct Side {
    session: Session,
    wire: Octets,
    buf: Vec<u8>,
    replies: u32,
}

/// Carries the messages from one session to the other, over each channel in turn.
pub(crate) fn time(alloc: Global, load: Load) -> Result<(), Stop> {
    let text = octets_of(alloc, load.size)?;
    let mut a = Side::new(alloc, Role::Initiator, load.window)?;
    let mut b = Side::new(alloc, Role::Listener, load.window)?;
    carry(alloc, &load, text.as_slice(), &mut a, &mut b)
}

/// So many octets.
fn octets_of(alloc: Global, size: u32) -> Result<Octets, Stop> {
    let mut text = Octets::new(alloc);
    for _ in 0..size {
        text.extend(b"x")?;
    }
    Ok(text)
}

/// Begins the channels, and carries the messages.
fn carry(alloc: Global, load: &Load, text: &[u8], a: &mut Side, b: &mut Side) -> Result<(), Stop> {
    turn(a, b)?;
    for i in 0..load.channels {
        start(alloc, &mut a.session, i.wrapping_mul(2).wrapping_add(1))?;
        turn(a, b)?;
    }
    turn(a, b)?;
    let mut asked = 0;
    for _ in 0..u64::MAX {
        asked = a.ask(asked, load, text)?;
        turn(a, b)?;
        if a.replies >= load.messages {
            return Ok(());
        }
    }
    Err(Stop::Refused)
}

/// What each end may send goes over its wire once.
fn turn(a: &mut Side, b: &mut Side) -> Result<(), Stop> {
    a.emit()?;
    b.hear(a.wire.as_slice())?;
    a.wire.clear();
    b.emit()?;
    a.hear(b.wire.as_slice())?;
    b.wire.clear();
    Ok(())
}

impl Side {
    fn new(alloc: Global, role: Role, window: u32) -> Result<Side, Stop> {
        let limits = Limits {
            window,
            piece: MAX_PIECE,
        };
        let mut wire = Octets::new(alloc);
        wire.reserve(PIECE + ROOM)?;
        Ok(Side {
            buf: buffer(alloc)?,
            session: a_peer(alloc, role, limits)?,
            wire,
            replies: 0,
        })
    }

    /// Asks until as many requests wait as there may be, and answers how many were asked in all.
    fn ask(&mut self, asked: u32, load: &Load, text: &[u8]) -> Result<u32, Stop> {
        let mut count = asked;
        let most = load.messages.min(self.replies.saturating_add(MOST_WAITING));
        for i in asked..most {
            if self.session.zero_waits() || load.channels == 0 {
                return Err(Stop::Refused);
            }
            let number = (i % load.channels).wrapping_mul(2).wrapping_add(1);
            let Some(mut channel) = self.session.open_channel(number) else {
                return Err(Stop::Refused);
            };
            if channel.ask(text).is_err() {
                return Ok(count);
            }
            count = i.saturating_add(1);
        }
        Ok(count)
    }

    /// Emits until nothing is due, or as many octets as go over a wire at once.
    fn emit(&mut self) -> Result<(), Stop> {
        for _ in 0..PIECE {
            if self.session.zero_waits() {
                return Err(Stop::Refused);
            }
            if self.wire.len() >= PIECE || self.wire.spare() < ROOM {
                return Ok(());
            }
            match self.session.emit(MAX_PIECE, &mut self.wire) {
                Emit::Nothing => return Ok(()),
                Emit::Data(_) | Emit::Seq(_) => {}
            }
        }
        Ok(())
    }

    /// Hears these octets, settles and takes what comes, and replies.
    fn hear(&mut self, octets: &[u8]) -> Result<(), Stop> {
        let mut rest = octets;
        for _ in 0..=octets.len() {
            let (used, event) = self.session.feed(rest);
            rest = match rest.get(used..) {
                Some(rest) => rest,
                None => return Err(Stop::Refused),
            };
            match event {
                Event::Zero => {
                    if !self.session.zero_waits() || self.session.settle().is_err() {
                        return Err(Stop::Refused);
                    }
                }
                Event::Arrived(number) => self.take_all(number)?,
                Event::More => return Ok(()),
                Event::Released | Event::Broken(_, _) | Event::NoMemory => {
                    return Err(Stop::Refused)
                }
            }
        }
        Err(Stop::Refused)
    }

    /// Takes all that arrived in a channel, and replies to each request.
    fn take_all(&mut self, number: u32) -> Result<(), Stop> {
        for _ in 0..PIECE {
            if self.session.zero_waits() {
                return Err(Stop::Refused);
            }
            let place = self.buf.as_mut_slice();
            if place.is_empty() || PIECE < place.len() {
                return Err(Stop::Refused);
            }
            let Some(mut channel) = self.session.open_channel(number) else {
                return Err(Stop::Refused);
            };
            let Some(part) = channel.take(place) else {
                return Ok(());
            };
            if part.ended {
                self.ended(number, part.tag.kind)?;
            }
        }
        Err(Stop::Refused)
    }

    /// A message of this kind was wholly taken: a request is replied to, a reply is counted.
    fn ended(&mut self, number: u32, kind: Kind) -> Result<(), Stop> {
        if !kind.is_msg() {
            self.replies = self.replies.saturating_add(1);
            return Ok(());
        }
        if self.session.zero_waits() || self.session.is_over() || !self.session.live(number) {
            return Err(Stop::Refused);
        }
        match self.session.owed(number) {
            Some(Duty::Fresh(owed)) => if owed.reply(&[]).is_ok() {
                Ok(())
            } else {
                Err(Stop::Refused)
            },
            Some(Duty::Begun(_)) | None => Err(Stop::Refused),
        }
    }
}

/// A buffer of so many octets as go over a wire at once.
fn buffer(alloc: Global) -> Result<Vec<u8>, Stop> {
    let mut buf = Vec::new(alloc);
    for _ in 0..PIECE {
        let Ok(()) = buf.push(0) else {
            return Err(Stop::NoMemory);
        };
    }
    Ok(buf)
}
