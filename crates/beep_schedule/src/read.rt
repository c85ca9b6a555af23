//! Reading a schedule.
ghost use Rattle.std.specs.Prelude.{◌≡◌, ◌≢◌, ◌+◌, ◌<◌, ◌≤◌, ◌++◌, IsTrue, length, drop, None, IfOk, IfErr, IfSome, IfNone};
ghost use Rattle.beep_octets.specs.Numbers.{numbers_32};
ghost use Rattle.beep_schedule.specs.Events.{is_event};
ghost use Rattle.beep_schedule.specs.Schedule.{Says, event_line};
ghost use Rattle.beep_schedule.specs.Refused.{Refuses, line_of, MayFollow};
ghost use Rattle.beep_schedule.specs.declared.event.PairEvent.{PairEvent as EventValue};

use crate::event::PairEvent;
use crate::field::place_of;
use crate::line::event_in;
use crate::schedule::Schedule;
use std::alloc::Global;
use thiserror::Error;

/// Why a text isn't read as a schedule.
#[derive(Clone, Copy, Debug, PartialEq, Eq, Error)]
pub enum ScheduleError {
    /// The line of this number, from 1, is the first that is no line of a schedule, or has no LF.
    #[error("bad schedule in line {0}")]
    BadSchedule(u32),
    /// Out of memory; a later call may succeed.
    #[error("out of memory")]
    NoMemory,
}

const FIRST_LINE: &[u8] = b"beep-schedule 1\n";

/// The schedule that a text says. It goes over the octets once, and takes memory for the events.
/// The number of a line has 32 bits.
pub fn read_schedule(alloc: Global, text: &[u8]) -> Result<Schedule, ScheduleError>
    requires within { length text.now < numbers_32 }
    ensures value { IfOk result (λ schedule. Says text.now schedule) }
    ensures refused { IfErr result (λ error. Refuses text.now error) }
{
    if !text.starts_with(FIRST_LINE) {
        return Err(ScheduleError::BadSchedule(1));
    }
    let mut schedule = Schedule::new(alloc);
    let mut number = 2;
    let mut i = FIRST_LINE.len();
    while i < text.len() {
        let Some(line) = line_in(&text[i..]) else {
            return Err(ScheduleError::BadSchedule(number));
        };
        let Ok(()) = schedule.push(line.event) else {
            return Err(ScheduleError::NoMemory);
        };
        number += 1;
        i += line.len;
    }
    Ok(schedule)
}

/// A line: its event, and how many octets it has with its LF.
#[derive(Clone, Copy)]
struct Line {
    event: PairEvent,
    len: usize,
}

/// The line with which a text begins, where it is that of an event.
fn line_in(text: &[u8]) -> Option<Line>
    ensures some { IfSome result (λ line. IsTrue (is_event line.event)
        × (text.now ≡ event_line line.event ++ drop line.len text.now)) }
    ensures within { IfSome result (λ line. (0 < line.len) × (line.len ≤ length text.now)) }
    ensures none { result ≡ None → (event : EventValue) → IsTrue (is_event event)
        → line_of text.now ≢ event_line event }
{
    let at = place_of(b'\n', text)?;
    let event = event_in(&text[..at])?;
    Some(Line { event, len: at + 1 })
}
