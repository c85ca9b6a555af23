//! Schedules of two ends.

use beep_octets::Octets;
use beep_schedule::{Act, PairEvent, Schedule, ScheduleError, generated, is_event, read_schedule};
use case_lines::{Bad, Fields, octets_of, put_number, put_word};
use std::alloc::Global;

/// A text: how many events it says, and these, or the first line that is none.
pub(crate) fn schedule(
    alloc: Global,
    fields: &mut Fields<'_>,
    out: &mut Octets,
) -> Result<(), Bad> {
    let text = octets_of(alloc, fields.next()?)?;
    if u32::MAX as usize <= text.len() {
        return Err(Bad::Field);
    }
    match read_schedule(alloc, text.as_slice()) {
        Ok(schedule) => put_events(&schedule, out),
        Err(error) => put_error(error, out),
    }
}

fn put_error(error: ScheduleError, out: &mut Octets) -> Result<(), Bad> {
    match error {
        ScheduleError::BadSchedule(line) => {
            put_word("bad", out)?;
            put_number(line as u64, out)?;
            Ok(())
        }
        ScheduleError::NoMemory => Err(Bad::NoMemory),
    }
}

fn put_events(schedule: &Schedule, out: &mut Octets) -> Result<(), Bad> {
    put_number(schedule.len() as u64, out)?;
    for i in 0..schedule.len() {
        if let Some(event) = schedule.get(i) {
            put_event(event, out)?;
        }
    }
    Ok(())
}

fn put_event(event: &PairEvent, out: &mut Octets) -> Result<(), Bad> {
    let text = format!(in out.alloc(); "{event:?}")?;
    put_word(text.as_str(), out)?;
    if !is_event(event) {
        put_word("is none", out)?;
    }
    Ok(())
}

/// The seed of a schedule that is made: how many events it has, and for how many octets it asks.
pub(crate) fn made(alloc: Global, fields: &mut Fields<'_>, out: &mut Octets) -> Result<(), Bad> {
    let schedule = generated(alloc, fields.number()?)?;
    put_number(schedule.len() as u64, out)?;
    put_number(octets_asked(&schedule), out)?;
    Ok(())
}

fn octets_asked(schedule: &Schedule) -> u64 {
    let mut octets = 0u64;
    for i in 0..schedule.len() {
        if let Some(event) = schedule.get(i) {
            octets = octets.saturating_add(asked_by(event));
        }
    }
    octets
}

fn asked_by(event: &PairEvent) -> u64 {
    match event {
        PairEvent::Do { act, len, .. } if *act == Act::Ask => u64::from(*len),
        PairEvent::Do { .. }
        | PairEvent::Send { .. }
        | PairEvent::Get { .. }
        | PairEvent::Take { .. }
        | PairEvent::Drain { .. } => 0,
    }
}
