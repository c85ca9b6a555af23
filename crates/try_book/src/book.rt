//! What was given and taken, life by life, as the run itself keeps it.

use crate::counts::Counts;
use crate::stop::{Fault, Stop};
use beep_frame::{Kind, Tag};
use beep_inbox::Part;
use std::alloc::Global;

/// How many numbers tell messages apart: so many have 32 bits.
const IDS: u64 = 1 << 32;

/// One of the two ends: A is the initiator.
#[derive(Clone, Copy, Debug, PartialEq, Eq)]
pub enum Who {
    A,
    B,
}

impl Who {
    /// The other end.
    pub fn other(self) -> Who {
        match self {
            Who::A => Who::B,
            Who::B => Who::A,
        }
    }
}

/// A message that was given.
#[derive(Clone, Copy, Debug)]
struct Message {
    tag: Tag,
    id: u32,
    len: u32,
}

/// What one end did in a life: what it gave, and how much of it the other end took.
#[derive(Drop)]
struct Half {
    given: Vec<Message>,
    /// Own requests, whole replies, and answers of the reply that has begun.
    asked: u64,
    replied: u64,
    answers: u32,
    /// Messages that the other end wholly took, requests among them, and octets of the next.
    taken: usize,
    taken_requests: u64,
    at: u32,
    begun: bool,
    ended: bool,
}

impl Half {
    fn new(alloc: Global) -> Half {
        Half {
            given: Vec::new(alloc),
            asked: 0,
            replied: 0,
            answers: 0,
            taken: 0,
            taken_requests: 0,
            at: 0,
            begun: false,
            ended: false,
        }
    }

    fn is_live(&self) -> bool {
        self.begun && !self.ended
    }

    fn is_all_taken(&self) -> bool {
        self.taken == self.given.len() && self.at == 0
    }

    /// The tag of a message of this kind that is given next.
    fn next_tag(&self, kind: Kind) -> Tag {
        Tag {
            kind,
            request: if kind.is_msg() {
                self.asked
            } else {
                self.replied
            },
            ansno: if kind.is_ans() { self.answers } else { 0 },
        }
    }

    fn give(&mut self, kind: Kind, id: u32, len: u32) -> Result<(), Stop> {
        let tag = self.next_tag(kind);
        let Ok(()) = self.given.push(Message { tag, id, len }) else {
            return Err(Stop::NoMemory);
        };
        match kind {
            Kind::Msg => self.asked = self.asked.saturating_add(1),
            Kind::Ans => self.answers = self.answers.saturating_add(1),
            Kind::Rpy | Kind::Err | Kind::Nul => {
                self.replied = self.replied.saturating_add(1);
                self.answers = 0;
            }
        }
        Ok(())
    }

    /// The other end took this part.
    fn take(&mut self, part: &Part, octets: &[u8]) -> Result<(), Stop> {
        let Some(message) = self.given.get(self.taken) else {
            return Err(Stop::Found(Fault::NotGiven));
        };
        let message = *message;
        let left = message.len.saturating_sub(self.at);
        let fits = if part.ended {
            part.len == left
        } else {
            part.len <= left
        };
        if part.tag != message.tag || !fits || !says(&message, self.at, octets) {
            return Err(Stop::Found(Fault::NotGiven));
        }
        self.at = self.at.saturating_add(part.len);
        if part.ended {
            self.taken = self.taken.saturating_add(1);
            self.at = 0;
            if message.tag.kind.is_msg() {
                self.taken_requests = self.taken_requests.saturating_add(1);
            }
        }
        Ok(())
    }
}

/// Whether these are the octets of a message from a place on.
fn says(message: &Message, at: u32, octets: &[u8]) -> bool {
    let mut place = at;
    for octet in octets {
        if *octet != octet_of(message.id, place) {
            return false;
        }
        place = place.wrapping_add(1);
    }
    true
}

/// The octet of a message at a place.
pub fn octet_of(id: u32, place: u32) -> u8 {
    let mixed = id
        .wrapping_mul(31)
        .wrapping_add(place.wrapping_mul(7))
        .wrapping_add(place / 251);
    (mixed % 251) as u8
}

/// A life of a number: the lives of a number begin at both ends in the same order.
#[derive(Drop)]
struct Life {
    number: u32,
    a: Half,
    b: Half,
}

impl Life {
    fn half(&self, who: Who) -> &Half {
        match who {
            Who::A => &self.a,
            Who::B => &self.b,
        }
    }

    fn half_mut(&mut self, who: Who) -> &mut Half {
        match who {
            Who::A => &mut self.a,
            Who::B => &mut self.b,
        }
    }
}

/// All lives of a schedule.
#[derive(Drop)]
pub struct Book {
    alloc: Global,
    lives: Vec<Life>,
    pub counts: Counts,
}

impl Book {
    pub fn new(alloc: Global) -> Book {
        Book {
            alloc,
            lives: Vec::new(alloc),
            counts: Counts::new(),
        }
    }

    /// What tells the message that is given next from all others.
    pub fn next_id(&self) -> u32 {
        (self.counts.given % IDS) as u32
    }

    /// The life of a number that lives at an end.
    fn current(&mut self, who: Who, number: u32) -> Option<&mut Life> {
        for life in self.lives.iter_mut() {
            if life.number == number && life.half(who).is_live() {
                return Some(life);
            }
        }
        None
    }

    /// Whether a number lives at an end.
    pub fn lives(&mut self, who: Who, number: u32) -> bool {
        self.current(who, number).is_some()
    }

    /// A life of a number begins at an end.
    pub fn begin(&mut self, who: Who, number: u32) -> Result<(), Stop> {
        self.counts.begun = self.counts.begun.saturating_add(1);
        for life in self.lives.iter_mut() {
            if life.number == number && !life.half(who).begun {
                life.half_mut(who).begun = true;
                return Ok(());
            }
        }
        let mut life = Life {
            number,
            a: Half::new(self.alloc),
            b: Half::new(self.alloc),
        };
        life.half_mut(who).begun = true;
        let Ok(()) = self.lives.push(life) else {
            return Err(Stop::NoMemory);
        };
        Ok(())
    }

    /// The life of a number ends at an end: it has taken all that the other gave.
    pub fn end(&mut self, who: Who, number: u32) -> Result<(), Stop> {
        self.counts.ended = self.counts.ended.saturating_add(1);
        let Some(life) = self.current(who, number) else {
            return Err(Stop::Found(Fault::NoLife));
        };
        life.half_mut(who).ended = true;
        if life.half(who.other()).is_all_taken() {
            Ok(())
        } else {
            Err(Stop::Found(Fault::EndedUntaken))
        }
    }

    /// An end gives a message.
    pub fn give(&mut self, who: Who, number: u32, kind: Kind, len: u32) -> Result<(), Stop> {
        let id = self.next_id();
        let Some(life) = self.current(who, number) else {
            return Err(Stop::Found(Fault::NoLife));
        };
        life.half_mut(who).give(kind, id, len)?;
        self.counts.given = self.counts.given.saturating_add(1);
        Ok(())
    }

    /// An end takes a part.
    pub fn take(&mut self, who: Who, number: u32, part: &Part, octets: &[u8]) -> Result<(), Stop> {
        let Some(life) = self.current(who, number) else {
            return Err(Stop::Found(Fault::NoLife));
        };
        life.half_mut(who.other()).take(part, octets)?;
        if part.ended {
            self.counts.taken = self.counts.taken.saturating_add(1);
        }
        Ok(())
    }

    /// The position of the request that an end asks next.
    pub fn position(&mut self, who: Who, number: u32) -> Option<u64> {
        match self.current(who, number) {
            Some(life) => Some(life.half(who).asked),
            None => None,
        }
    }

    /// The answers that an end has given to the request that it owes a reply, where it owes one.
    pub fn owed(&mut self, who: Who, number: u32) -> Option<u32> {
        let life = self.current(who, number)?;
        if life.half(who).replied < life.half(who.other()).taken_requests {
            Some(life.half(who).answers)
        } else {
            None
        }
    }

    /// Whether all that was given is taken.
    pub fn is_all_taken(&self) -> bool {
        for life in self.lives.iter() {
            if !life.a.is_all_taken() || !life.b.is_all_taken() {
                return false;
            }
        }
        true
    }
}
