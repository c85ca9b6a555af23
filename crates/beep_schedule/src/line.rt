//! The event of a line.
ghost use Rattle.std.specs.Prelude.{◌≡◌, ◌&&◌, ◌==◌, ◌%◌, ◌≤◌, ◌<◌, nat_le, length, codes, [], List, IfSome, drop};
ghost use Rattle.beep_schedule.specs.Events.{is_event as is_event_value, is_act as is_act_value, is_of as is_of_value, is_from_to as is_within_value, is_message as is_message_value, is_bare as is_bare_value, is_above as is_above_value};
ghost use Rattle.beep_schedule.specs.Reading.{event_in as event_of, verb_text as text_of_verb, verb_in as verb_of, all_verbs, event_with, with_none, with_one, with_two, with_three, message_act as message_act_of, bare_act as bare_act_of, said, counted, drain_in as drain_of, drained, valid};

use crate::event::{Act, End, PairEvent};
use crate::field::{Numbers, numbers_in};
use crate::limits::{MAX_COUNT, MAX_FILL, MAX_LEN};
use beep_frame::MAX_NUMBER;
use beep_settings::MAX_PIECE;

/// What a line says that an end does, by its word.
#[derive(Clone, Copy)]
pub(crate) enum Verb {
    Start,
    Ask,
    Reply,
    Refuse,
    Answer,
    Done,
    Close,
    Release,
    Send,
    Get,
    Take,
}

static VERBS: [Verb; 11] = [
    Verb::Start,
    Verb::Ask,
    Verb::Reply,
    Verb::Refuse,
    Verb::Answer,
    Verb::Done,
    Verb::Close,
    Verb::Release,
    Verb::Send,
    Verb::Get,
    Verb::Take,
];

/// The event that a line says, without its LF.
pub(crate) fn event_in(line: &[u8]) -> Option<PairEvent>
    ensures { result ≡ event_of line.now }
{
    let event = match line {
        [] => return None,
        [b'A', rest @ ..] => said_at(End::A, rest)?,
        [b'B', rest @ ..] => said_at(End::B, rest)?,
        _ => drain_in(line)?,
    };
    if is_event(&event) { Some(event) } else { None }
}

fn said_at(at: End, text: &[u8]) -> Option<PairEvent>
    ensures { result ≡ said at text.now (verb_of all_verbs text.now) }
{
    let verb = verb_in(&VERBS, text)?;
    let numbers = numbers_in(&text[verb_text(verb).len()..])?;
    event_of_verb(at, verb, numbers)
}

fn drain_in(text: &[u8]) -> Option<PairEvent>
    ensures { result ≡ drain_of text.now }
{
    if !text.starts_with(b"drain") {
        return None;
    }
    match numbers_in(&text[5..])? {
        Numbers::Two(max, piece) => Some(PairEvent::Drain { max, piece }),
        Numbers::Zero | Numbers::One(_) | Numbers::Three(..) => None,
    }
}

/// The first of these verbs with which the text begins.
fn verb_in(verbs: &[Verb], text: &[u8]) -> Option<Verb>
    ensures verb { result ≡ verb_of verbs.now text.now }
    ensures within { IfSome result (λ verb. length (text_of_verb verb) ≤ length text.now) }
{
    match verbs {
        [] => None,
        [verb, others @ ..] => {
            if text.starts_with(verb_text(*verb)) {
                Some(*verb)
            } else {
                verb_in(others, text)
            }
        }
    }
}

fn verb_text(verb: Verb) -> &'static [u8]
    ensures { result.now ≡ text_of_verb verb }
{
    match verb {
        Verb::Start => b" start",
        Verb::Ask => b" ask",
        Verb::Reply => b" reply",
        Verb::Refuse => b" refuse",
        Verb::Answer => b" answer",
        Verb::Done => b" done",
        Verb::Close => b" close",
        Verb::Release => b" release",
        Verb::Send => b" send",
        Verb::Get => b" get",
        Verb::Take => b" take",
    }
}

fn event_of_verb(at: End, verb: Verb, numbers: Numbers) -> Option<PairEvent>
    ensures { result ≡ event_with at verb numbers }
{
    match numbers {
        Numbers::Zero => with_none(at, verb),
        Numbers::One(n) => with_one(at, verb, n),
        Numbers::Two(n, m) => with_two(at, verb, n, m),
        Numbers::Three(n, len, fill) => with_three(at, verb, n, len, fill),
    }
}

fn with_none(at: End, verb: Verb) -> Option<PairEvent>
    ensures { result ≡ with_none at verb }
{
    match verb {
        Verb::Release => Some(bare_act(at, Act::Release, 0)),
        Verb::Start
        | Verb::Ask
        | Verb::Reply
        | Verb::Refuse
        | Verb::Answer
        | Verb::Done
        | Verb::Close
        | Verb::Send
        | Verb::Get
        | Verb::Take => None,
    }
}

fn with_one(at: End, verb: Verb, n: u32) -> Option<PairEvent>
    ensures { result ≡ with_one at verb n }
{
    match verb {
        Verb::Start => Some(bare_act(at, Act::Start, n)),
        Verb::Done => Some(bare_act(at, Act::Done, n)),
        Verb::Close => Some(bare_act(at, Act::Close, n)),
        Verb::Send => Some(PairEvent::Send { at, max: n }),
        Verb::Get => Some(PairEvent::Get { at, count: n }),
        Verb::Ask | Verb::Reply | Verb::Refuse | Verb::Answer | Verb::Release | Verb::Take => None,
    }
}

fn with_two(at: End, verb: Verb, n: u32, m: u32) -> Option<PairEvent>
    ensures { result ≡ with_two at verb n m }
{
    match verb {
        Verb::Take => Some(PairEvent::Take {
            at,
            channel: n,
            count: m,
        }),
        Verb::Start
        | Verb::Ask
        | Verb::Reply
        | Verb::Refuse
        | Verb::Answer
        | Verb::Done
        | Verb::Close
        | Verb::Release
        | Verb::Send
        | Verb::Get => None,
    }
}

fn with_three(at: End, verb: Verb, n: u32, len: u32, fill: u32) -> Option<PairEvent>
    ensures { result ≡ with_three at verb n len fill }
{
    match verb {
        Verb::Ask => message_act(at, Act::Ask, n, len, fill),
        Verb::Reply => message_act(at, Act::Reply, n, len, fill),
        Verb::Refuse => message_act(at, Act::Refuse, n, len, fill),
        Verb::Answer => message_act(at, Act::Answer, n, len, fill),
        Verb::Start
        | Verb::Done
        | Verb::Close
        | Verb::Release
        | Verb::Send
        | Verb::Get
        | Verb::Take => None,
    }
}

fn message_act(at: End, act: Act, channel: u32, len: u32, fill: u32) -> Option<PairEvent>
    ensures { result ≡ message_act_of at act channel len fill }
{
    if fill > MAX_FILL {
        return None;
    }
    Some(PairEvent::Do {
        at,
        act,
        channel,
        len,
        fill: fill as u8,
    })
}

fn bare_act(at: End, act: Act, channel: u32) -> PairEvent
    ensures { Some result ≡ bare_act_of at act channel }
{
    PairEvent::Do {
        at,
        act,
        channel,
        len: 0,
        fill: 0,
    }
}

/// Whether an event is one that a line can say: its numbers are within their ranges, and those
/// that it doesn't use are 0.
pub fn is_event(event: &PairEvent) -> bool
    ensures { result ≡ is_event_value event.now }
{
    match *event {
        PairEvent::Do {
            at,
            act,
            channel,
            len,
            fill,
        } => is_act(at, act, channel, len, fill),
        PairEvent::Send { at: _, max } => is_from_to(1, MAX_PIECE, max),
        PairEvent::Get { at: _, count } => is_from_to(1, MAX_COUNT, count),
        PairEvent::Take {
            at: _,
            channel,
            count,
        } => is_above(channel) && is_from_to(1, MAX_COUNT, count),
        PairEvent::Drain { max, piece } => {
            is_from_to(1, MAX_PIECE, max) && is_from_to(1, MAX_COUNT, piece)
        }
    }
}

fn is_act(at: End, act: Act, channel: u32, len: u32, fill: u8) -> bool
    ensures { result ≡ is_act_value at act channel len fill }
{
    match act {
        Act::Start => is_above(channel) && is_of(at, channel) && is_bare(len, fill),
        Act::Ask | Act::Reply | Act::Refuse => is_above(channel) && is_message(0, len, fill),
        Act::Answer => is_above(channel) && is_message(1, len, fill),
        Act::Done | Act::Close => is_above(channel) && is_bare(len, fill),
        Act::Release => channel == 0 && is_bare(len, fill),
    }
}

fn is_from_to(least: u32, most: u32, n: u32) -> bool
    ensures { result ≡ is_within_value least most n }
{
    least <= n && n <= most
}

fn is_above(channel: u32) -> bool
    ensures { result ≡ is_above_value channel }
{
    is_from_to(1, MAX_NUMBER, channel)
}

fn is_of(at: End, channel: u32) -> bool
    ensures { result ≡ is_of_value at channel }
{
    match at {
        End::A => channel % 2 == 1,
        End::B => channel % 2 == 0,
    }
}

fn is_message(least: u32, len: u32, fill: u8) -> bool
    ensures { result ≡ is_message_value least len fill }
{
    is_from_to(least, MAX_LEN, len) && u32::from(fill) <= MAX_FILL
}

fn is_bare(len: u32, fill: u8) -> bool
    ensures { result ≡ is_bare_value len fill }
{
    len == 0 && fill == 0
}
