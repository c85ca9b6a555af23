//! The acts of a schedule, and how they are drawn.

use crate::dice::Dice;
use crate::end::NUMBERS;
use crate::world::kind_of;
use beep_session::beep_frame::Kind;
use beep_session::beep_seq::{MAX_WINDOW, MIN_WINDOW};
use beep_session::{Limits, MAX_PIECE};
use try_book::Who;

/// What an end does in one step.
#[derive(Clone, Copy, Debug)]
pub(crate) enum Act {
    /// Emits a frame of at most so many octets of payload.
    Send(u32),
    /// Hears so many octets, in pieces of at most so many.
    Get(u32, u32),
    /// Takes from a channel, with room for so many octets.
    Take(u32, u32),
    /// Asks on a channel, with so many octets.
    Ask(u32, u32),
    /// Gives a message of a reply on a channel, of this kind where it may be, of so many octets.
    Reply(u32, Kind, u32),
    Start(u32),
    Close(u32),
    Release,
}

/// What a schedule is like.
#[derive(Clone, Copy, Debug)]
pub(crate) struct Mood {
    pub(crate) acts: u32,
    pub(crate) a: Limits,
    pub(crate) b: Limits,
    /// Whether channels are started before the acts.
    pub(crate) opens: bool,
    /// The numbers of channels are below this.
    pub(crate) numbers: u32,
    /// The most octets of a message.
    longest: u32,
    /// How many of 100 acts send, how many hear, and how many take.
    sends: u32,
    hears: u32,
    takes: u32,
    /// How many of 1,000 releases are meant.
    releases: u32,
}

/// How long a schedule is. The plain programs go over a whole journal for each item.
#[derive(Clone, Copy, Debug)]
pub(crate) enum Length {
    /// Its journals aren't judged.
    Long,
    /// The first items of its journals are judged.
    Short,
    /// All items of its journals are judged.
    Brief,
}

/// How many acts a schedule has, drawn.
fn drawn_acts(dice: &mut Dice, length: Length) -> u32 {
    match length {
        Length::Long => dice.between(100, 300),
        Length::Short => dice.between(30, 110),
        Length::Brief => dice.between(20, 60),
    }
}

/// The most octets of a message, drawn: in half of the schedules few.
fn drawn_longest(dice: &mut Dice, length: Length) -> u32 {
    if dice.below(2) != 0 {
        return dice.below(60);
    }
    match length {
        Length::Long | Length::Short => 3000,
        Length::Brief => 300,
    }
}

/// What a schedule of this length is like, drawn.
pub(crate) fn drawn_mood(dice: &mut Dice, length: Length) -> Mood {
    let ends = dice.below(4) == 0;
    Mood {
        acts: drawn_acts(dice, length),
        a: limits(dice, length),
        b: limits(dice, length),
        opens: dice.below(4) != 0 && !(ends && dice.below(2) == 0),
        numbers: dice.between(2, NUMBERS),
        longest: drawn_longest(dice, length),
        sends: dice.between(10, 30),
        hears: dice.between(10, 30),
        takes: dice.between(4, 14),
        releases: if ends { 1000 } else { 60 },
    }
}

/// The least small piece and the greatest. In a brief schedule none cuts an element of channel zero
/// into more than a handful of frames, of which each is an item of two journals.
fn small_pieces(length: Length) -> (u32, u32) {
    match length {
        Length::Long | Length::Short => (1, 30),
        Length::Brief => (25, 60),
    }
}

/// The windows and pieces of an end, drawn: often the least window, and small pieces.
fn limits(dice: &mut Dice, length: Length) -> Limits {
    let window = if dice.below(3) == 0 {
        dice.between(MIN_WINDOW, MAX_WINDOW)
    } else {
        MIN_WINDOW
    };
    let (least, most) = small_pieces(length);
    let piece = match dice.below(4) {
        0 => dice.between(least, most),
        1 => dice.between(least, MAX_PIECE),
        _ => MAX_PIECE,
    };
    Limits { window, piece }
}

/// Who does what next.
pub(crate) fn draw(dice: &mut Dice, mood: &Mood) -> (Who, Act) {
    let who = if dice.below(2) == 0 { Who::A } else { Who::B };
    (who, draw_act(dice, mood))
}

fn draw_act(dice: &mut Dice, mood: &Mood) -> Act {
    let drawn = dice.below(100);
    let hears = mood.sends.saturating_add(mood.hears);
    let takes = hears.saturating_add(mood.takes);
    let number = dice.below(mood.numbers.saturating_sub(1)).saturating_add(1);
    if drawn < mood.sends {
        Act::Send(size(dice, MAX_PIECE))
    } else if drawn < hears {
        Act::Get(size(dice, 5000), size(dice, 5000))
    } else if drawn < takes {
        Act::Take(number, size(dice, 3000))
    } else {
        draw_asked(dice, mood, number)
    }
}

/// What a program asks of a session.
fn draw_asked(dice: &mut Dice, mood: &Mood, number: u32) -> Act {
    let len = if dice.below(8) == 0 {
        0
    } else {
        dice.below(mood.longest.saturating_add(1))
    };
    let releases = dice.below(1000) < mood.releases;
    match dice.below(12) {
        0..=3 => Act::Ask(number, len),
        4..=7 => Act::Reply(number, kind_of(dice.below(4)), len),
        8 | 9 => Act::Start(number),
        10 => Act::Close(number),
        _ => if releases {
            Act::Release
        } else {
            Act::Start(number)
        },
    }
}

/// A size from 1 up to this one, often a large and sometimes a small one.
fn size(dice: &mut Dice, most: u32) -> u32 {
    match dice.below(4) {
        0 => dice.between(1, 40),
        1 => dice.between(1, most),
        _ => dice.between(most / 2, most),
    }
}
