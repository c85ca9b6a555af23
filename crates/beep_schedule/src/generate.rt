//! The schedule that a number makes.
ghost use Rattle.std.specs.Prelude.{◌≡◌, ◌<◌, ◌≤◌, ◌+◌, ◌*◌, ◌%◌, ◌++◌, ◌∷◌, [], map, flat_map, OnOk, IfOk};
ghost use Rattle.std.specs.List.{range_with_len};
ghost use Rattle.beep_settings.specs.declared.limits.TheConstants.{MAX_PIECE};
ghost use Rattle.beep_schedule.specs.declared.limits.TheConstants.{REQUESTS, CHANNELS, MAX_COUNT, A_PIECE, A_STEP, B_PIECE, B_STEP};
ghost use Rattle.beep_schedule.specs.declared.event.End.{End as EndValue};
ghost use Rattle.beep_schedule.specs.declared.event.PairEvent.{PairEvent as EventValue};
ghost use Rattle.beep_schedule.specs.Events.{AreEvents};
ghost use Rattle.beep_schedule.specs.Generated.{generated_events, request_events, reply_to as reply_event, bare_of, channel_of as channel_number, drain as drain_event, fill_of as fill_number};

use crate::event::{Act, End, PairEvent};
use crate::limits::{
    A_PIECE, A_STEP, B_PIECE, B_STEP, CHANNELS, LENGTH_STEP, LENGTHS, MAX_COUNT, MAX_FILL,
    REPLY_LEN, REQUESTS,
};
use crate::schedule::Schedule;
use beep_octets::NoMemory;
use beep_settings::MAX_PIECE;
use std::alloc::Global;

const DRAIN: PairEvent = PairEvent::Drain {
    max: MAX_PIECE,
    piece: B_PIECE,
};

/// The schedule that a number makes: eight channels start, a thousand requests and their replies
/// pass in small pieces, then all is drained, closed and released.
pub fn generated(alloc: Global, seed: u32) -> Result<Schedule, NoMemory>
    ensures value { IfOk result (λ schedule. schedule ≡ generated_events seed) }
    ensures valid { IfOk result (λ schedule. AreEvents schedule) }
{
    let mut schedule = Schedule::new(alloc);
    schedule.push(DRAIN)?;
    push_bare(&mut schedule, Act::Start)?;
    schedule.push(DRAIN)?;
    push_requests(&mut schedule, seed)?;
    push_drains(&mut schedule)?;
    push_replies(&mut schedule)?;
    push_drains(&mut schedule)?;
    push_bare(&mut schedule, Act::Close)?;
    push_drains(&mut schedule)?;
    schedule.push(bare(Act::Release, 0))?;
    push_drains(&mut schedule)?;
    Ok(schedule)
}

fn push_drains(schedule: &mut Schedule) -> Result<(), NoMemory>
    ensures { OnOk result (schedule.new ≡ schedule.old ++ drain_event ∷ drain_event ∷ []) }
{
    schedule.push(DRAIN)?;
    schedule.push(DRAIN)?;
    Ok(())
}

/// Each channel is started, or closed.
fn push_bare(schedule: &mut Schedule, act: Act) -> Result<(), NoMemory>
    ensures { OnOk result (schedule.new ≡ schedule.old
        ++ map (bare_of act) (range_with_len 0 CHANNELS)) }
{
    for j in 0..CHANNELS {
        schedule.push(bare(act, channel_of(j)))?;
    }
    Ok(())
}

fn push_requests(schedule: &mut Schedule, seed: u32) -> Result<(), NoMemory>
    ensures { OnOk result (schedule.new ≡ schedule.old
        ++ flat_map (request_events seed) (range_with_len 0 REQUESTS)) }
{
    for i in 0..REQUESTS {
        push_request(schedule, seed, i)?;
    }
    Ok(())
}

fn push_replies(schedule: &mut Schedule) -> Result<(), NoMemory>
    ensures { OnOk result (schedule.new ≡ schedule.old
        ++ map reply_event (range_with_len 0 REQUESTS)) }
{
    for i in 0..REQUESTS {
        schedule.push(reply_to(i))?;
    }
    Ok(())
}

/// A request, two frames, two pieces, and what is taken and replied.
fn push_request(schedule: &mut Schedule, seed: u32, i: u32) -> Result<(), NoMemory>
    requires few { i < REQUESTS }
    ensures { OnOk result (schedule.new ≡ schedule.old ++ request_events seed i) }
{
    let channel = channel_of(i);
    schedule.push(PairEvent::Do {
        at: End::A,
        act: Act::Ask,
        channel,
        len: 3 * spread(seed, LENGTH_STEP, i, LENGTHS),
        fill: fill_of(i),
    })?;
    push_sent(schedule)?;
    push_gets(schedule, seed, i)?;
    schedule.push(take(End::B, channel))?;
    schedule.push(reply_to(i))?;
    schedule.push(take(End::A, channel))?;
    Ok(())
}

fn push_sent(schedule: &mut Schedule) -> Result<(), NoMemory>
    ensures { OnOk result (schedule.new ≡ schedule.old
        ++ EventValue.Send EndValue.A MAX_PIECE ∷ EventValue.Send EndValue.B MAX_PIECE ∷ []) }
{
    schedule.push(PairEvent::Send {
        at: End::A,
        max: MAX_PIECE,
    })?;
    schedule.push(PairEvent::Send {
        at: End::B,
        max: MAX_PIECE,
    })?;
    Ok(())
}

fn push_gets(schedule: &mut Schedule, seed: u32, i: u32) -> Result<(), NoMemory>
    requires few { i < REQUESTS }
    ensures { OnOk result (schedule.new ≡ schedule.old
        ++ EventValue.Get EndValue.B (1 + (seed + B_STEP * i) % B_PIECE)
        ∷ EventValue.Get EndValue.A (1 + (seed + A_STEP * i) % A_PIECE) ∷ []) }
{
    schedule.push(PairEvent::Get {
        at: End::B,
        count: 1 + spread(seed, B_STEP, i, B_PIECE),
    })?;
    schedule.push(PairEvent::Get {
        at: End::A,
        count: 1 + spread(seed, A_STEP, i, A_PIECE),
    })?;
    Ok(())
}

/// A number that depends on the seed and the place.
fn spread(seed: u32, step: u32, i: u32, below: u32) -> u32
    requires few { i < REQUESTS }
    requires small { step ≤ B_STEP }
    requires some { 0 < below }
    ensures value { result ≡ (seed + step * i) % below }
    ensures within { result < below }
{
    ((u64::from(seed) + u64::from(step) * u64::from(i)) % u64::from(below)) as u32
}

fn channel_of(i: u32) -> u32
    ensures { result ≡ channel_number i }
{
    2 * (i % CHANNELS) + 1
}

/// The first octet of the message of request i.
fn fill_of(i: u32) -> u8
    ensures { result ≡ fill_number i }
{
    (i % (MAX_FILL + 1)) as u8
}

fn reply_to(i: u32) -> PairEvent
    ensures { result ≡ reply_event i }
{
    PairEvent::Do {
        at: End::B,
        act: Act::Reply,
        channel: channel_of(i),
        len: REPLY_LEN,
        fill: fill_of(i),
    }
}

fn take(at: End, channel: u32) -> PairEvent
    ensures { result ≡ EventValue.Take at channel MAX_COUNT }
{
    PairEvent::Take {
        at,
        channel,
        count: MAX_COUNT,
    }
}

fn bare(act: Act, channel: u32) -> PairEvent
    ensures { result ≡ EventValue.Do EndValue.A act channel 0 0 }
{
    PairEvent::Do {
        at: End::A,
        act,
        channel,
        len: 0,
        fill: 0,
    }
}
