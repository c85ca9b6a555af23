//! One end of a run: its session, the octets that it sent, and what it does.

use beep_session::beep_channel::AskError;
use beep_session::beep_chars::Text;
use beep_session::beep_decide::Offer;
use beep_session::beep_frame::Kind;
use beep_session::beep_history::Side;
use beep_session::beep_journal::Role;
use beep_session::beep_lawful::Terms;
use beep_session::beep_octets::Octets;
use beep_session::beep_outbox::GiveError;
use beep_session::beep_seq::{MAX_WINDOW, MIN_WINDOW};
use beep_session::beep_speaking::Emit;
use beep_session::{
    Duty, Event, Limits, MAX_PIECE, Offers, ReleaseError, Session, Settled, is_uri, one_profile,
};
use std::alloc::Global;
use try_book::{Book, Fault, Log, Stop, Who, octet_of};

/// The numbers of channels are below this.
pub(crate) const NUMBERS: u32 = 8;

/// The most octets that are taken at once.
pub(crate) const MOST_TAKEN: usize = 8192;

/// Room for one frame of the greatest size, and some more.
const ROOM: usize = 8192;

/// The profile that each end offers.
const URI: &str = "http://beep.example/try";

/// One end, and what it sent: the other has heard the octets up to a place.
#[derive(Drop)]
pub(crate) struct End {
    alloc: Global,
    who: Who,
    terms: Terms,
    pub(crate) session: Session,
    pub(crate) wire: Octets,
    pub(crate) at: usize,
    log: Option<Log>,
    text: Octets,
    /// Whether the peer's greeting was settled, and own requests of channel zero without a reply.
    greeted: bool,
    waiting: u32,
}

impl End {
    /// An end of which so many items of its journal are judged, where it keeps one.
    pub(crate) fn new(
        alloc: Global,
        who: Who,
        limits: Limits,
        judged: Option<usize>,
    ) -> Result<End, Stop> {
        let role = match who {
            Who::A => Role::Initiator,
            Who::B => Role::Listener,
        };
        let log = match judged {
            Some(most) => Some(Log::new(alloc, most)?),
            None => None,
        };
        let session = a_peer(alloc, role, limits)?;
        Ok(End {
            alloc,
            who,
            terms: Terms {
                role,
                window: limits.window,
                piece: limits.piece,
            },
            session,
            wire: Octets::new(alloc),
            at: 0,
            log,
            text: Octets::new(alloc),
            greeted: false,
            waiting: 0,
        })
    }

    /// Puts into the book which lives have begun or ended.
    fn watch(&mut self, book: &mut Book) -> Result<(), Stop> {
        for number in 1..NUMBERS {
            let lives = self.session.live(number);
            if lives && !book.lives(self.who, number) {
                book.begin(self.who, number)?;
            }
            if !lives && book.lives(self.who, number) {
                book.end(self.who, number)?;
            }
        }
        Ok(())
    }

    /// Emits one frame or SEQ, and answers whether there was one.
    pub(crate) fn send(&mut self, max: u32, book: &mut Book) -> Result<bool, Stop> {
        if self.session.zero_waits() || max == 0 || MAX_PIECE < max {
            return Err(Stop::Refused);
        }
        let before = self.wire.len();
        self.wire.reserve(ROOM)?;
        let may = self.session.may_emit();
        let went = match self.session.emit(max, &mut self.wire) {
            Emit::Nothing => false,
            Emit::Data(_) | Emit::Seq(_) => true,
        };
        if may != went {
            return Err(Stop::Found(Fault::MayEmit));
        }
        if let (Some(log), Some(octets)) = (&mut self.log, self.wire.as_slice().get(before..)) {
            log.add(&self.terms, Side::Sent, octets)?;
        }
        self.watch(book)?;
        Ok(went)
    }

    /// Hears these octets up to the next event, and answers how many it used. None where it hears
    /// no more.
    pub(crate) fn hear(&mut self, octets: &[u8], book: &mut Book) -> Result<Option<usize>, Stop> {
        let (used, event) = self.session.feed(octets);
        let Some(heard) = octets.get(..used) else {
            return Err(Stop::Found(Fault::Unused));
        };
        if let Some(log) = &mut self.log {
            log.add(&self.terms, Side::Received, heard)?;
        }
        match event {
            Event::Zero => self.settle(octets, book)?,
            Event::Arrived(_) => {}
            Event::More => {
                if used != octets.len() {
                    return Err(Stop::Found(Fault::Unused));
                }
            }
            Event::Released => return Ok(None),
            Event::Broken(rule, place) => return Err(Stop::Found(Fault::Broken(rule, place))),
            Event::NoMemory => return Err(Stop::NoMemory),
        }
        if used == 0 {
            return Err(Stop::Found(Fault::Unused));
        }
        Ok(Some(used))
    }

    /// Settles the message that waits: until then no octet is used.
    fn settle(&mut self, octets: &[u8], book: &mut Book) -> Result<(), Stop> {
        if !matches!(self.session.feed(octets), (0, Event::Zero)) || !self.session.zero_waits() {
            return Err(Stop::Found(Fault::Unsettled));
        }
        let Ok(settled) = self.session.settle() else {
            return Err(Stop::Found(Fault::Unsettled));
        };
        match settled {
            Settled::Denied(_) => return Err(Stop::Found(Fault::Denied)),
            Settled::Greeted => self.greeted = true,
            Settled::PeerStarts { .. } | Settled::PeerRefused { .. } | Settled::PeerCloses { .. } =>
                {}
            Settled::Begun { .. }
            | Settled::NotBegun { .. }
            | Settled::Closed { .. }
            | Settled::NotClosed { .. } => self.waiting = self.waiting.saturating_sub(1),
            Settled::Stale(_) => {
                book.counts.stale = book.counts.stale.saturating_add(1);
                self.waiting = self.waiting.saturating_sub(1);
            }
            Settled::Released => {
                book.counts.released = book.counts.released.saturating_add(1);
                self.waiting = self.waiting.saturating_sub(1);
            }
        }
        self.watch(book)
    }

    pub(crate) fn start(&mut self, number: u32) -> Result<(), Stop> {
        let uri = Text::of(self.alloc, URI)?;
        if !is_uri(&uri) || !self.session.may_start(number) || self.session.zero_waits() {
            return Ok(());
        }
        let profiles = one_profile(self.alloc, &uri)?;
        if self.session.start(number, &profiles).is_ok() {
            self.waiting = self.waiting.saturating_add(1);
        }
        Ok(())
    }

    pub(crate) fn release(&mut self) -> Result<(), Stop> {
        if self.session.zero_waits() {
            return Err(Stop::Found(Fault::Unsettled));
        }
        match self.session.release() {
            Ok(()) => self.waiting = self.waiting.saturating_add(1),
            Err(ReleaseError::NoMemory) => return Err(Stop::NoMemory),
            Err(_) => {}
        }
        Ok(())
    }

    pub(crate) fn close(&mut self, number: u32) -> Result<(), Stop> {
        if self.session.zero_waits() {
            return Err(Stop::Found(Fault::Unsettled));
        }
        if let Some(mut channel) = self.session.open_channel(number) {
            if channel.try_close().is_ok() {
                self.waiting = self.waiting.saturating_add(1);
            }
        }
        Ok(())
    }

    /// Makes the text of the message that is given next.
    fn write(&mut self, len: u32, book: &Book) -> Result<(), Stop> {
        self.text.clear();
        let id = book.next_id();
        for place in 0..len {
            self.text.extend(&[octet_of(id, place)])?;
        }
        Ok(())
    }

    pub(crate) fn ask(&mut self, number: u32, len: u32, book: &mut Book) -> Result<(), Stop> {
        self.write(len, book)?;
        if self.session.zero_waits() {
            return Err(Stop::Found(Fault::Unsettled));
        }
        let Some(mut channel) = self.session.open_channel(number) else {
            return Ok(());
        };
        match channel.ask(self.text.as_slice()) {
            Ok(position) => {
                if book.position(self.who, number) != Some(position) {
                    return Err(Stop::Found(Fault::Position));
                }
                book.give(self.who, number, Kind::Msg, len)
            }
            Err(AskError::NoMemory) => Err(Stop::NoMemory),
            Err(_) => Ok(()),
        }
    }

    /// Gives a message of the reply that a channel owes, of this kind where the reply may go on
    /// with it.
    pub(crate) fn reply(
        &mut self,
        number: u32,
        kind: Kind,
        len: u32,
        book: &mut Book,
    ) -> Result<bool, Stop> {
        self.write(len, book)?;
        if self.session.zero_waits() || self.session.is_over() || !self.session.live(number) {
            return Ok(false);
        }
        let answers = book.owed(self.who, number);
        let kind = reply_kind(kind, len, answers);
        let given = match kind {
            Kind::Ans => self.give_answer(number, answers)?,
            Kind::Rpy | Kind::Err => self.give_reply(number, kind, answers)?,
            Kind::Nul | Kind::Msg => self.give_end(number, answers)?,
        };
        if given {
            let len = if kind.is_same(Kind::Nul) { 0 } else { len };
            book.give(self.who, number, kind, len)?;
        }
        Ok(given)
    }

    /// Gives the text as an answer, where so many were given before, and answers whether it was.
    fn give_answer(&mut self, number: u32, answers: Option<u32>) -> Result<bool, Stop> {
        let octets = self.text.as_slice();
        if self.session.zero_waits() || self.session.is_over() || !self.session.live(number) {
            return Err(Stop::Refused);
        }
        if octets.is_empty() {
            return Err(Stop::Refused);
        }
        match self.session.owed(number) {
            None => none_owed(answers),
            Some(Duty::Fresh(owed)) => {
                let mut answering = owed.answers();
                is_answer(answering.answer(octets), answers, 0)
            }
            Some(Duty::Begun(mut answering)) => {
                let given = answering.answer(octets);
                is_answer(given, answers, answers.unwrap_or(0))
            }
        }
    }

    /// Gives the text as a whole reply, and answers whether it was given.
    fn give_reply(&mut self, number: u32, kind: Kind, answers: Option<u32>) -> Result<bool, Stop> {
        let octets = self.text.as_slice();
        if self.session.zero_waits() || self.session.is_over() || !self.session.live(number) {
            return Err(Stop::Refused);
        }
        match self.session.owed(number) {
            None => none_owed(answers),
            Some(Duty::Begun(_answering)) => Err(Stop::Found(Fault::Duty)),
            Some(Duty::Fresh(owed)) => {
                if answers != Some(0) {
                    return Err(Stop::Found(Fault::Duty));
                }
                if kind.is_same(Kind::Err) {
                    Ok(owed.refuse(octets).is_ok())
                } else {
                    Ok(owed.reply(octets).is_ok())
                }
            }
        }
    }

    /// Ends the answers of a reply, and answers whether that was given.
    fn give_end(&mut self, number: u32, answers: Option<u32>) -> Result<bool, Stop> {
        if self.session.zero_waits() || self.session.is_over() || !self.session.live(number) {
            return Err(Stop::Refused);
        }
        match self.session.owed(number) {
            None => none_owed(answers),
            Some(Duty::Fresh(owed)) => {
                if answers != Some(0) {
                    return Err(Stop::Found(Fault::Duty));
                }
                Ok(owed.answers().done().is_ok())
            }
            Some(Duty::Begun(answering)) => match answers {
                Some(more) if more != 0 => Ok(answering.done().is_ok()),
                Some(_) | None => Err(Stop::Found(Fault::Duty)),
            },
        }
    }

    /// Takes a part of what arrived in a channel, and answers whether there was one.
    pub(crate) fn take(&mut self, number: u32, room: u32, book: &mut Book) -> Result<bool, Stop> {
        let mut buf = [0u8; MOST_TAKEN];
        let Some(place) = buf.get_mut(..room as usize) else {
            return Err(Stop::Refused);
        };
        if self.session.zero_waits() || place.is_empty() || MOST_TAKEN < place.len() {
            return Err(Stop::Refused);
        }
        let part = if let Some(mut channel) = self.session.open_channel(number) {
            channel.take(place)
        } else if let Some(mut channel) = self.session.closing_channel(number) {
            channel.take(place)
        } else {
            return Ok(false);
        };
        let Some(part) = part else {
            return Ok(false);
        };
        let Some(octets) = place.get(..part.len as usize) else {
            return Err(Stop::Found(Fault::NotGiven));
        };
        if octets.is_empty() && !part.ended {
            return Err(Stop::Found(Fault::NotGiven));
        }
        book.take(self.who, number, &part, octets)?;
        Ok(true)
    }

    /// The session is over, or nothing waits.
    pub(crate) fn rests(&mut self) -> Result<(), Stop> {
        if self.session.is_over() {
            return Ok(());
        }
        if !self.greeted || self.waiting != 0 {
            return Err(Stop::Found(Fault::Unanswered));
        }
        if self.at != self.wire.len() || !self.session.between_frames() {
            return Err(Stop::Found(Fault::Left));
        }
        if self.session.has_untaken() {
            return Err(Stop::Found(Fault::Untaken));
        }
        Ok(())
    }

    /// How many items of the journal the plain programs judged, where it is kept.
    pub(crate) fn judged(&self) -> usize {
        match &self.log {
            Some(log) => log.judged(),
            None => 0,
        }
    }
}

/// A session that offers one profile.
fn a_peer(alloc: Global, role: Role, limits: Limits) -> Result<Session, Stop> {
    let uri = Text::of(alloc, URI)?;
    if !is_uri(&uri) || limits.window < MIN_WINDOW || MAX_WINDOW < limits.window {
        return Err(Stop::Refused);
    }
    if limits.piece == 0 || MAX_PIECE < limits.piece {
        return Err(Stop::Refused);
    }
    let mut offers = Offers::new(alloc);
    offers.push(Offer { uri, tuning: false })?;
    Ok(Session::new(alloc, role, offers, limits)?)
}

/// No reply is owed: nor is one by what was given and taken.
fn none_owed(answers: Option<u32>) -> Result<bool, Stop> {
    match answers {
        None => Ok(false),
        Some(_) => Err(Stop::Found(Fault::Duty)),
    }
}

/// Whether an answer was given, with this number, which is that of the answers given before.
fn is_answer(
    given: Result<u32, GiveError>,
    answers: Option<u32>,
    number: u32,
) -> Result<bool, Stop> {
    if answers != Some(number) {
        return Err(Stop::Found(Fault::Duty));
    }
    match given {
        Ok(answer) => if answer == number {
            Ok(true)
        } else {
            Err(Stop::Found(Fault::Position))
        },
        Err(GiveError::NoMemory) => Err(Stop::NoMemory),
        Err(GiveError::Full { .. }) => Ok(false),
    }
}

/// The kind of what a reply goes on with: no answer has no octet, and only answers and the NUL
/// follow an answer.
fn reply_kind(kind: Kind, len: u32, answers: Option<u32>) -> Kind {
    let kind = if kind.is_ans() && len == 0 {
        Kind::Nul
    } else {
        kind
    };
    match (kind, answers) {
        (Kind::Msg, _) => Kind::Nul,
        (Kind::Rpy | Kind::Err, Some(more)) if more != 0 => Kind::Nul,
        (kind, _) => kind,
    }
}
