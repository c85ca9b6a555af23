//! What a session makes of what it hears.

use beep_session::beep_frame::Rule;
use beep_session::{Event, Session, SettleError};
use session_lines::{Answer, Stop, of_settled, push_number, rule_name};

/// What came of a feed.
#[derive(Clone, Copy, Debug)]
pub(crate) enum Came {
    More,
    Arrived(u32),
    Settled(Answer),
    Released,
    Broken(Rule, u64),
    Fault(Answer),
}

/// Feeds octets, settles what waits then, and answers how many were used, and what came.
pub(crate) fn feed(session: &mut Session, octets: &[u8]) -> (usize, Came) {
    let (used, event) = session.feed(octets);
    let came = match event {
        Event::More => Came::More,
        Event::Arrived(number) => Came::Arrived(number),
        Event::Zero => settle(session),
        Event::Released => Came::Released,
        Event::Broken(rule, place) => Came::Broken(rule, place),
        Event::NoMemory => Came::Fault(Answer::no_memory()),
    };
    (used, came)
}

/// Settles the message that waits. Until then no octet is used.
fn settle(session: &mut Session) -> Came {
    if !matches!(session.feed(b"x"), (0, Event::Zero)) || !session.zero_waits() {
        return Came::Fault(Answer::Word("nothing waits"));
    }
    match session.settle() {
        Ok(settled) => Came::Settled(of_settled(&settled)),
        Err(SettleError::Broken(rule, place)) => Came::Broken(rule, place),
        Err(SettleError::NoMemory) => Came::Fault(Answer::no_memory()),
    }
}

/// One read: how many octets it has, and how many of them up to the end of the last header.
#[derive(Clone, Copy, Debug)]
pub(crate) struct Read {
    pub(crate) len: usize,
    pub(crate) header: usize,
}

/// How much a session heard, and the rule that was broken.
#[derive(Drop)]
pub(crate) struct Ear {
    /// How many octets there were in earlier reads.
    fed: u64,
    used: u64,
    broken: Option<(Rule, u64)>,
}

impl Ear {
    pub(crate) fn new() -> Ear {
        Ear {
            fed: 0,
            used: 0,
            broken: None,
        }
    }

    /// Notes what came of a feed that used so many octets and left so many of the read, and answers
    /// whether another one follows.
    pub(crate) fn came(
        &mut self,
        came: Came,
        (used, left): (usize, usize),
        read: Read,
        notes: &mut String,
    ) -> Result<bool, Stop> {
        self.used = self.used.saturating_add(used as u64);
        match came {
            Came::More if left != 0 => stops(Answer::One("octets left", left as u64), notes),
            Came::Released if used != 0 => stops(Answer::One("used", used as u64), notes),
            Came::Released if left != 0 => stops(Answer::One("unused", left as u64), notes),
            Came::More | Came::Released => Ok(false),
            Came::Arrived(number) => goes_on(Answer::One("arrived", u64::from(number)), notes),
            Came::Settled(answer) => goes_on(answer, notes),
            Came::Broken(rule, place) => self.breaks((rule, place), read, notes),
            Came::Fault(answer) => stops(answer, notes),
        }
    }

    /// A rule is broken, for ever: the octets up to its place were used, and no other. So the next
    /// feed answers too.
    fn breaks(
        &mut self,
        broken: (Rule, u64),
        read: Read,
        notes: &mut String,
    ) -> Result<bool, Stop> {
        if self.used != broken.1.saturating_add(1) {
            return stops(Answer::One("used", self.used), notes);
        }
        if let Some(before) = self.broken {
            return broken_again(before == broken, notes);
        }
        self.broken = Some(broken);
        Answer::Word(rule_name(broken.0)).note(notes)?;
        self.note_place(broken.1, read, notes)?;
        Ok(true)
    }

    /// The last octet of the last header, or of all that was said, or which one.
    fn note_place(&self, place: u64, read: Read, notes: &mut String) -> Result<(), Stop> {
        let next = place.saturating_add(1);
        if next == self.fed.saturating_add(read.header as u64) {
            notes.push_str(" header")?;
        } else if next == self.fed.saturating_add(read.len as u64) {
            notes.push_str(" end")?;
        } else {
            notes.push_str(" ")?;
            push_number(notes, place)?;
        }
        Ok(())
    }

    /// A read is heard: more, where nothing else came.
    pub(crate) fn heard(&mut self, read: Read, notes: &mut String) -> Result<(), Stop> {
        self.fed = self.fed.saturating_add(read.len as u64);
        if notes.is_empty() {
            notes.push_str("more")?;
        }
        Ok(())
    }
}

/// A later feed after a broken rule answers the same, which is noted where nothing else came.
fn broken_again(is_same: bool, notes: &mut String) -> Result<bool, Stop> {
    if !is_same {
        stops(Answer::Word("another rule"), notes)
    } else if notes.is_empty() {
        stops(Answer::Word("broken"), notes)
    } else {
        Ok(false)
    }
}

fn goes_on(answer: Answer, notes: &mut String) -> Result<bool, Stop> {
    answer.note(notes)?;
    Ok(true)
}

fn stops(answer: Answer, notes: &mut String) -> Result<bool, Stop> {
    answer.note(notes)?;
    Ok(false)
}

/// Feeds the octets of one read, settles what waits, and notes what comes.
pub(crate) fn hear(
    session: &mut Session,
    octets: &[u8],
    read: Read,
    ear: &mut Ear,
    notes: &mut String,
) -> Result<(), Stop> {
    let mut rest = octets;
    for _ in 0..octets.len().saturating_add(3) {
        let (used, came) = feed(session, rest);
        rest = rest.get(used..).unwrap_or(&[]);
        if !ear.came(came, (used, rest.len()), read, notes)? {
            return ear.heard(read, notes);
        }
    }
    Answer::Word("no end of it").note(notes)
}
