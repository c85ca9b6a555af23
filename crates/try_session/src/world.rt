//! One schedule: two sessions, the wires between them, and the acts that are drawn.

use crate::act::{Act, Length, Mood, draw, drawn_mood};
use crate::dice::Dice;
use crate::end::{End, MOST_TAKEN, NUMBERS};
use beep_session::MAX_PIECE;
use beep_session::beep_frame::Kind;
use std::alloc::Global;
use try_book::{Book, Fault, Stop, Who};

/// Each schedule of so many is short, and its journals are kept and judged.
const EACH: u64 = 8;

/// The most items of a journal that are judged then: the plain programs are slow.
const MOST_JUDGED: usize = 60;

/// Which journals are kept and judged by the plain programs.
#[derive(Clone, Copy, Debug)]
pub(crate) enum Judging {
    /// Of each eighth schedule the first items.
    Some,
    /// Of each schedule all items, each as it comes. All schedules are brief.
    Each,
}

/// The most rounds of one drain.
const ROUNDS: u32 = 100000;

/// Two ends, and what they gave and took.
#[derive(Drop)]
pub(crate) struct World {
    dice: Dice,
    pub(crate) mood: Mood,
    a: End,
    b: End,
    pub(crate) book: Book,
}

impl World {
    /// The beginning of a schedule of a seed.
    pub(crate) fn new(
        alloc: Global,
        seed: u64,
        schedule: u64,
        judging: Judging,
    ) -> Result<World, Stop> {
        let (length, most) = match judging {
            Judging::Some if schedule % EACH == 0 => (Length::Short, Some(MOST_JUDGED)),
            Judging::Some => (Length::Long, None),
            Judging::Each => (Length::Brief, Some(usize::MAX)),
        };
        let mut dice = Dice::new(seed, schedule);
        let mood = drawn_mood(&mut dice, length);
        let a = End::new(alloc, Who::A, mood.a, most)?;
        let b = End::new(alloc, Who::B, mood.b, most)?;
        let mut book = Book::new(alloc);
        book.counts.schedules = 1;
        book.counts.acts = mood.acts as u64;
        Ok(World {
            dice,
            mood,
            a,
            b,
            book,
        })
    }

    /// Both ends start channels, where the schedule begins so.
    pub(crate) fn open(&mut self) -> Result<(), Stop> {
        if !self.mood.opens {
            return Ok(());
        }
        self.drain(false)?;
        for number in 1..self.mood.numbers {
            self.a.start(number)?;
            self.b.start(number)?;
        }
        self.drain(false)
    }

    /// The next act, and who does it.
    pub(crate) fn draw(&mut self) -> (Who, Act) {
        draw(&mut self.dice, &self.mood)
    }

    /// An end does its next act.
    pub(crate) fn step(&mut self, who: Who, act: Act) -> Result<(), Stop> {
        match who {
            Who::A => do_act(
                &mut self.a,
                &mut self.b,
                act,
                &mut self.dice,
                &mut self.book,
            ),
            Who::B => do_act(
                &mut self.b,
                &mut self.a,
                act,
                &mut self.dice,
                &mut self.book,
            ),
        }
    }

    /// Both ends send all that is due, hear it and take it, and reply where `replies` says so,
    /// until nothing moves.
    pub(crate) fn drain(&mut self, replies: bool) -> Result<(), Stop> {
        for _ in 0..ROUNDS {
            let mut moved = self.move_end(Who::A, replies)?;
            moved |= self.move_end(Who::B, replies)?;
            if !moved {
                return Ok(());
            }
        }
        Err(Stop::Found(Fault::Endless))
    }

    fn move_end(&mut self, who: Who, replies: bool) -> Result<bool, Stop> {
        let dice = &mut self.dice;
        let book = &mut self.book;
        match who {
            Who::A => move_one(&mut self.a, &mut self.b, replies, dice, book),
            Who::B => move_one(&mut self.b, &mut self.a, replies, dice, book),
        }
    }

    /// What holds once nothing moves and all is replied to.
    pub(crate) fn rests(&mut self) -> Result<(), Stop> {
        self.a.rests()?;
        self.b.rests()?;
        if self.a.session.is_over() != self.b.session.is_over() {
            return Err(Stop::Found(Fault::Disagree));
        }
        if !self.book.is_all_taken() {
            return Err(Stop::Found(Fault::Untaken));
        }
        for number in 1..NUMBERS {
            if self.a.session.live(number) != self.b.session.live(number) {
                return Err(Stop::Found(Fault::Disagree));
            }
        }
        Ok(())
    }

    /// Counts the items of the journals that were judged, where they are kept.
    pub(crate) fn count_judged(&mut self) {
        let judged = self.a.judged().saturating_add(self.b.judged());
        self.book.counts.items = judged as u64;
    }
}

/// An end does an act; what it hears the other has sent.
fn do_act(
    end: &mut End,
    other: &mut End,
    act: Act,
    dice: &mut Dice,
    book: &mut Book,
) -> Result<(), Stop> {
    match act {
        Act::Send(max) => {
            end.send(max, book)?;
        }
        Act::Get(count, piece) => {
            pass(other, end, count, piece, dice, book)?;
        }
        Act::Take(number, room) => {
            end.take(number, room, book)?;
        }
        Act::Ask(number, len) => end.ask(number, len, book)?,
        Act::Reply(number, kind, len) => {
            end.reply(number, kind, len, book)?;
        }
        Act::Start(number) => end.start(number)?,
        Act::Close(number) => end.close(number)?,
        Act::Release => end.release()?,
    }
    Ok(())
}

/// An end hears all that the other sent, takes it, replies where `replies` says so, and sends one
/// frame or SEQ. Answers whether anything moved.
fn move_one(
    end: &mut End,
    other: &mut End,
    replies: bool,
    dice: &mut Dice,
    book: &mut Book,
) -> Result<bool, Stop> {
    let mut moved = pass(other, end, u32::MAX, 65536, dice, book)?;
    for number in 1..NUMBERS {
        moved |= end.take(number, MOST_TAKEN as u32, book)?;
        if replies {
            let kind = kind_of(dice.below(4));
            let len = dice.below(20);
            moved |= end.reply(number, kind, len, book)?;
        }
    }
    moved |= end.send(MAX_PIECE, book)?;
    Ok(moved)
}

/// The kinds of replies.
pub(crate) fn kind_of(place: u32) -> Kind {
    match place {
        0 => Kind::Rpy,
        1 => Kind::Err,
        2 => Kind::Ans,
        _ => Kind::Nul,
    }
}

/// So many of the octets that one end sent are heard by the other, in pieces of at most so many.
fn pass(
    from: &mut End,
    to: &mut End,
    count: u32,
    piece: u32,
    dice: &mut Dice,
    book: &mut Book,
) -> Result<bool, Stop> {
    let mut left = from.wire.len().saturating_sub(from.at).min(count as usize);
    let mut moved = false;
    for _ in 0..left {
        let size = left.min(dice.between(1, piece) as usize);
        let until = from.at.saturating_add(size);
        let Some(octets) = from.wire.as_slice().get(from.at..until) else {
            return Err(Stop::Refused);
        };
        if octets.is_empty() {
            return Ok(moved);
        }
        let Some(used) = to.hear(octets, book)? else {
            return Ok(moved);
        };
        from.at = from.at.saturating_add(used);
        left = left.saturating_sub(used);
        moved = true;
    }
    if from.at == from.wire.len() {
        from.wire.clear();
        from.at = 0;
    }
    Ok(moved)
}
