//! Schedules that are drawn, run and checked.

use crate::world::{Judging, World};
use std::alloc::Global;
use try_book::{Counts, Fault, Stop};

/// Where a run stopped, and why.
#[derive(Clone, Copy, Debug)]
pub(crate) struct Place {
    pub(crate) schedule: u64,
    /// The act after which it stopped, from 1: the last one where a drain did.
    pub(crate) step: u64,
    pub(crate) stop: Stop,
}

/// Runs and checks so many schedules of a seed.
pub(crate) fn check_all(
    alloc: Global,
    seed: u64,
    count: u64,
    judging: Judging,
) -> Result<Counts, Place> {
    let mut counts = Counts::new();
    for schedule in 0..count {
        let mut step = 0;
        match check(alloc, seed, schedule, judging, &mut step) {
            Ok(more) => counts.add(&more),
            Err(stop) => return Err(Place {
                schedule,
                step,
                stop,
            }),
        }
    }
    Ok(counts)
}

/// Runs and checks one schedule, and counts its steps.
fn check(
    alloc: Global,
    seed: u64,
    schedule: u64,
    judging: Judging,
    step: &mut u64,
) -> Result<Counts, Stop> {
    let mut world = World::new(alloc, seed, schedule, judging)?;
    match play(&mut world, step) {
        Ok(()) => Ok(world.book.counts),
        Err(stop) => Err(stop),
    }
}

fn play(world: &mut World, step: &mut u64) -> Result<(), Stop> {
    world.open()?;
    for _ in 0..world.mood.acts {
        let (who, act) = world.draw();
        *step = step.saturating_add(1);
        world.step(who, act)?;
    }
    finish(world)
}

/// Drains a schedule, first without replies and then with them, and counts what was judged.
pub(crate) fn finish(world: &mut World) -> Result<(), Stop> {
    world.drain(false)?;
    if !world.book.is_all_taken() {
        return Err(Stop::Found(Fault::Untaken));
    }
    world.drain(true)?;
    world.rests()?;
    world.count_judged();
    Ok(())
}
