//! Two sessions in memory, over schedules that are drawn and checked.
#![tactic(auto)]

mod act;
mod checking;
mod dice;
mod end;
mod world;

use crate::checking::{Place, check_all, finish};
use crate::world::{Judging, World};
use std::alloc::Global;
use std::env::{self, Env};
use std::io;
use std::process::ExitCode;
use try_book::{Counts, Fault, Stop};

/// The schedules that are checked without words.
const SEED: u64 = 1;

const COUNT: u64 = 24;

fn main(rt: HostRuntime) -> ExitCode {
    let words = match words_of(&rt) {
        Ok(words) => words,
        Err(_) => return ExitCode::from(1),
    };
    match run(&rt, words.as_slice()) {
        Ok(()) => ExitCode::from(0),
        Err(_) => ExitCode::from(1),
    }
}

/// The words after the program's name.
fn words_of<R: Env + Alloc<A = Global>>(rt: &R) -> io::Result<Vec<String>> {
    let mut words = Vec::new(rt.alloc());
    for word in env::args(rt)?.skip(1) {
        words.push(word)?;
    }
    Ok(words)
}

/// What the words ask for: so many schedules of a seed are checked, or the acts of one are printed;
/// after `each` all items of all journals are judged.
fn run(rt: &HostRuntime, words: &[String]) -> Result<(), Stop> {
    match words {
        [] => check_short(rt),
        [seed, count] => check(rt, number_of(seed)?, number_of(count)?, Judging::Some),
        [word, seed, count] if word.as_str() == "each" => {
            check(rt, number_of(seed)?, number_of(count)?, Judging::Each)
        }
        [word, seed, schedule] if word.as_str() == "show" => {
            show(rt, number_of(seed)?, number_of(schedule)?, Judging::Some)
        }
        [word, each, seed, schedule] if word.as_str() == "show" && each.as_str() == "each" => {
            show(rt, number_of(seed)?, number_of(schedule)?, Judging::Each)
        }
        _ => Err(Stop::Words),
    }
}

fn number_of(word: &String) -> Result<u64, Stop> {
    match word.as_str().parse::<u64>() {
        Ok(number) => Ok(number),
        Err(_) => Err(Stop::Words),
    }
}

/// Checks schedules, and prints what was done, or where it stopped.
fn check(rt: &HostRuntime, seed: u64, count: u64, judging: Judging) -> Result<(), Stop> {
    match check_all(rt.alloc(), seed, count, judging) {
        Ok(counts) => print(rt, seed, &counts),
        Err(at) => report(rt, seed, at),
    }
}

/// Checks a few schedules, in which each thing that is counted happens.
fn check_short(rt: &HostRuntime) -> Result<(), Stop> {
    let counts = match check_all(rt.alloc(), SEED, COUNT, Judging::Some) {
        Ok(counts) => counts,
        Err(at) => return report(rt, SEED, at),
    };
    if !counts.has_each() {
        print(rt, SEED, &counts)?;
        return Err(Stop::Found(Fault::Idle));
    }
    println!(rt; "seed {SEED}, {COUNT} schedules: nothing that a session must not do")?;
    Ok(())
}

/// Prints where a run stopped, and why.
fn report(rt: &HostRuntime, seed: u64, at: Place) -> Result<(), Stop> {
    println!(rt;
        "seed {seed}, schedule {}, step {}: {:?}",
        at.schedule, at.step, at.stop
    )?;
    Err(at.stop)
}

fn print(rt: &HostRuntime, seed: u64, counts: &Counts) -> Result<(), Stop> {
    println!(rt;
        "seed {seed}: {} schedules, {} acts, {} messages given and {} taken, {} lives begun and \
         {} ended, {} stale replies, {} releases, {} items judged",
        counts.schedules,
        counts.acts,
        counts.given,
        counts.taken,
        counts.begun,
        counts.ended,
        counts.stale,
        counts.released,
        counts.items
    )?;
    Ok(())
}

/// Prints the acts of one schedule, and where it stopped.
fn show(rt: &HostRuntime, seed: u64, schedule: u64, judging: Judging) -> Result<(), Stop> {
    let mut world = World::new(rt.alloc(), seed, schedule, judging)?;
    show_acts(rt, seed, &mut world)
}

fn show_acts(rt: &HostRuntime, seed: u64, world: &mut World) -> Result<(), Stop> {
    world.open()?;
    for step in 0..world.mood.acts {
        let (who, act) = world.draw();
        println!(rt; "{} {who:?} {act:?}", step.saturating_add(1))?;
        if let Err(stop) = world.step(who, act) {
            println!(rt; "{stop:?}")?;
            return Err(stop);
        }
    }
    match finish(world) {
        Ok(()) => print(rt, seed, &world.book.counts),
        Err(stop) => {
            println!(rt; "{stop:?} while it drains or is judged")?;
            Err(stop)
        }
    }
}
