//! Drives sessions by the lines of its standard input, and prints which are answered otherwise than
//! they want. See README.md for the lines.
#![tactic(auto)]

mod acts;
mod counts;
mod end;
mod gives;
mod hearing;
mod listing;
mod longhand;
mod looks;
mod saying;
mod takes;
mod world;

use crate::counts::{Counts, Line, is_right};
use crate::longhand::lines_of;
use crate::world::World;
use session_lines::{Stop, number_in};
use std::alloc::Global;
use std::io;
use std::process::ExitCode;

/// The windows of both ends, unless a case says otherwise.
const WINDOW: u32 = 4096;

fn main(rt: HostRuntime) -> ExitCode {
    match run(&rt) {
        Ok(true) => ExitCode::from(0),
        Ok(false) | Err(_) => ExitCode::from(1),
    }
}

/// Runs all cases, prints what is wrong and how many there were, and answers whether all is right.
fn run(rt: &HostRuntime) -> Result<bool, Stop> {
    let text = io::read_to_string(rt.alloc(), rt.reader())?;
    let mut counts = Counts::new();
    run_lines(rt, text.as_str(), &mut counts)?;
    println!(rt;
        "{} cases, {} answers, {} wrong",
        counts.cases, counts.answers, counts.wrong
    )?;
    Ok(counts.wrong == 0)
}

fn run_lines(rt: &HostRuntime, text: &str, counts: &mut Counts) -> Result<(), Stop> {
    let mut world = World::new(rt.alloc(), WINDOW)?;
    run_over(rt, &mut world, text, counts)
}

fn run_over(
    rt: &HostRuntime,
    world: &mut World,
    text: &str,
    counts: &mut Counts,
) -> Result<(), Stop> {
    for line in text.lines() {
        counts.line = counts.line.saturating_add(1);
        run_line(rt, world, line, counts)?;
    }
    Ok(())
}

/// A line that begins new ends does so, and another one is an act, but for comments and lines
/// without a word.
fn run_line(
    rt: &HostRuntime,
    world: &mut World,
    line: &str,
    counts: &mut Counts,
) -> Result<(), Stop> {
    if line.is_empty() || line.starts_with("#") {
        return Ok(());
    }
    if let Some(window) = window_of(line, counts) {
        return renew(rt.alloc(), world, window);
    }
    let is_right = run_acts(rt, world, line, counts.line)?;
    counts.add_answer(is_right);
    Ok(())
}

/// The window of two new ends, where a line begins them: `case NAME` a case, which is counted, and
/// `window SIZE` with another window.
fn window_of(line: &str, counts: &mut Counts) -> Option<u32> {
    if line.starts_with("case ") {
        counts.cases = counts.cases.saturating_add(1);
        return Some(WINDOW);
    }
    let size = line.strip_prefix("window ")?;
    Some(number_in(Some(size)))
}

fn renew(alloc: Global, world: &mut World, window: u32) -> Result<(), Stop> {
    *world = World::new(alloc, window)?;
    Ok(())
}

/// Does the act of a line, or those for which it stands up to the first that is wrong, and answers
/// whether all is right.
fn run_acts(rt: &HostRuntime, world: &mut World, line: &str, number: u64) -> Result<bool, Stop> {
    let lines = lines_of(rt.alloc(), line)?;
    if lines.is_empty() {
        return run_act(rt, world, line, number);
    }
    for line in lines.lines() {
        if !run_act(rt, world, line, number)? {
            return Ok(false);
        }
    }
    Ok(true)
}

/// Does an act, and answers whether what comes of it is wanted.
fn run_act(rt: &HostRuntime, world: &mut World, line: &str, number: u64) -> Result<bool, Stop> {
    let line = Line::of(line, number);
    world.line(line.act)?;
    is_right(rt, &line, world.notes())
}
