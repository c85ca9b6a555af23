//! The lives of channels by plain look-back over the moments of channel zero, the latest first.
//!
//! No session runs this: it is the definitions in code, slow, so that they can be tried on
//! examples.
ghost use Rattle.std.specs.Prelude.{◌≡◌, ◌≤◌, length};
ghost use Rattle.beep_journal.specs.Lives.{lives, has_ended, life_named, is_live, live_life, has_release};
ghost use Rattle.beep_journal.specs.Plain.{events_of};

use crate::event::LifeEvent;
use beep_history::Side;

/// How many lives of a number have begun.
#[cycle(lives)]
pub fn lives(number: u32, events: &[LifeEvent]) -> usize
    ensures value { result ≡ lives number (events_of events.now) }
    ensures within { result ≤ length events.now }
{
    match events {
        [] => 0,
        [LifeEvent::StartGranted(of), before @ ..] => {
            let count = lives(number, before);
            if *of == number && !(0 < count && !has_ended(number, count, before)) {
                count + 1
            } else {
                count
            }
        }
        [
            LifeEvent::CloseCame(..) | LifeEvent::CloseGranted(..),
            before @ ..,
        ] => { lives(number, before) }
    }
}

/// Whether the life of this count has ended.
#[cycle(lives)]
pub fn has_ended(number: u32, count: usize, events: &[LifeEvent]) -> bool
    ensures { result ≡ has_ended number count (events_of events.now) }
{
    match events {
        [] => false,
        [LifeEvent::CloseGranted(side, position, of), before @ ..] => {
            (*of == number && life_named(number, *side, *position, before) == count)
                || has_ended(number, count, before)
        }
        [
            LifeEvent::CloseCame(..) | LifeEvent::StartGranted(..),
            before @ ..,
        ] => { has_ended(number, count, before) }
    }
}

/// The life of a number that a close of it names.
#[cycle(lives)]
pub fn life_named(number: u32, side: Side, position: usize, events: &[LifeEvent]) -> usize
    ensures { result ≡ life_named number side position (events_of events.now) }
{
    match events {
        [] => 0,
        [LifeEvent::CloseCame(by, at, _), before @ ..] => {
            if side.is_same(*by) && *at == position {
                lives(number, before)
            } else {
                life_named(number, side, position, before)
            }
        }
        [
            LifeEvent::StartGranted(..) | LifeEvent::CloseGranted(..),
            before @ ..,
        ] => { life_named(number, side, position, before) }
    }
}

/// Whether a number has a life that has begun and not ended.
pub fn is_live(number: u32, events: &[LifeEvent]) -> bool
    ensures { result ≡ is_live number (events_of events.now) }
{
    let count = lives(number, events);
    0 < count && !has_ended(number, count, events)
}

/// The count of the life of a number that is live, 0 where none is.
pub fn live_life(number: u32, events: &[LifeEvent]) -> usize
    ensures { result ≡ live_life number (events_of events.now) }
{
    if is_live(number, events) {
        lives(number, events)
    } else {
        0
    }
}

/// Whether a close of 0 was granted.
pub fn has_release(events: &[LifeEvent]) -> bool
    ensures { result ≡ has_release (events_of events.now) }
{
    match events {
        [] => false,
        [LifeEvent::CloseGranted(_, _, of), before @ ..] => *of == 0 || has_release(before),
        [
            LifeEvent::CloseCame(..) | LifeEvent::StartGranted(..),
            before @ ..,
        ] => has_release(before),
    }
}
