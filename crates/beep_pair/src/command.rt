//! The whole work of running a schedule, over values.
ghost use Rattle.std.specs.Prelude.{◌<◌, [], length, IfOk, OnOk};
ghost use Rattle.beep_two_sessions.specs.beep_session.specs.Session.{AreLimits};
ghost use Rattle.beep_two_sessions.specs.beep_octets.specs.Numbers.{numbers_32};
ghost use Rattle.beep_schedule.specs.Events.{AreEvents};
ghost use Rattle.beep_pair.specs.Sessions.{AreReady};
ghost use Rattle.beep_pair.specs.World.{Leads};
ghost use Rattle.beep_pair.specs.Report.{Reported};
ghost use Rattle.beep_pair.specs.Command.{Becomes, ReportsEvents, Summed, SumsEvents, Sums};

use crate::pair::Pair;
use beep_report::put_summary;
use beep_schedule::{Schedule, ScheduleError, generated, read_schedule};
use beep_two_sessions::beep_octets::{NoMemory, Octets};
use beep_two_sessions::beep_session::Limits;
use std::alloc::Global;

/// What became of a schedule's text.
#[derive(Debug, Drop)]
pub enum Outcome {
    /// It was run: the report.
    Report(Octets),
    /// The line of this number, from 1, is the first that is no line of a schedule.
    Bad(u32),
}

/// Runs a schedule between two ends that begin, and gives the report.
fn run_on(alloc: Global, pair: &mut Pair, schedule: &Schedule) -> Result<Octets, NoMemory>
    requires ready { AreReady pair.old }
    requires valid { AreEvents schedule.now }
    ensures reported { IfOk result (λ out. Leads (Reported schedule.now [] out.octets) pair.old
        pair.new) }
    ensures ready { OnOk result (AreReady pair.new) }
{
    let mut out = Octets::new(alloc);
    pair.run(schedule, &mut out)?;
    Ok(out)
}

/// Runs a schedule between two ends with these limits that begin.
fn run_fresh(alloc: Global, limits: Limits, schedule: &Schedule) -> Result<Octets, NoMemory>
    requires limits { AreLimits limits }
    requires valid { AreEvents schedule.now }
    ensures { IfOk result (λ out. ReportsEvents limits schedule.now out.octets) }
{
    match Pair::new(alloc, limits) {
        Ok(mut pair) => run_on(alloc, &mut pair, schedule),
        Err(NoMemory) => Err(NoMemory),
    }
}

/// Runs the schedule that a text says, between two ends with these limits.
pub fn report(alloc: Global, limits: Limits, text: &[u8]) -> Result<Outcome, NoMemory>
    requires limits { AreLimits limits }
    requires within { length text.now < numbers_32 }
    ensures { IfOk result (λ outcome. Becomes limits text.now outcome) }
{
    match read_schedule(alloc, text) {
        Ok(schedule) => {
            let out = run_fresh(alloc, limits, &schedule)?;
            Ok(Outcome::Report(out))
        }
        Err(ScheduleError::BadSchedule(number)) => Ok(Outcome::Bad(number)),
        Err(ScheduleError::NoMemory) => Err(NoMemory),
    }
}

// ---- a schedule that a number makes

/// Runs the schedule that a number makes, between two ends with these limits, and gives the summary
/// of its report.
pub fn summary(alloc: Global, limits: Limits, seed: u32) -> Result<Octets, NoMemory>
    requires limits { AreLimits limits }
    ensures { IfOk result (λ out. Sums limits seed out.octets) }
{
    let schedule = generated(alloc, seed)?;
    summed_fresh(alloc, limits, seed, &schedule)
}

/// Runs a schedule between two ends with these limits that begin, and gives the summary.
fn summed_fresh(
    alloc: Global,
    limits: Limits,
    seed: u32,
    schedule: &Schedule,
) -> Result<Octets, NoMemory>
    requires limits { AreLimits limits }
    requires valid { AreEvents schedule.now }
    ensures { IfOk result (λ out. SumsEvents limits seed schedule.now out.octets) }
{
    match Pair::new(alloc, limits) {
        Ok(mut pair) => summed_on(alloc, &mut pair, seed, schedule),
        Err(NoMemory) => Err(NoMemory),
    }
}

/// Runs a schedule, and gives the summary of its report.
fn summed_on(
    alloc: Global,
    pair: &mut Pair,
    seed: u32,
    schedule: &Schedule,
) -> Result<Octets, NoMemory>
    requires ready { AreReady pair.old }
    requires valid { AreEvents schedule.now }
    ensures { IfOk result (λ out. Leads (Summed seed schedule.now out.octets) pair.old pair.new) }
{
    let report = run_on(alloc, pair, schedule)?;
    let mut out = Octets::new(alloc);
    let still = pair.is_still();
    let events = schedule.len() as u64;
    put_summary(
        &mut out,
        seed,
        events,
        report.as_slice(),
        pair.accounts(),
        still,
    )?;
    Ok(out)
}
