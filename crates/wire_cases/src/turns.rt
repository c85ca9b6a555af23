//! The turns of an end over a link.

use crate::echo::Echo;
use crate::links::add;
use beep_link::{Ended, Reads, run_turns};
use beep_memory::MemWires;
use beep_octets::Octets;
use beep_wires::{Fails, NullSink, Wires};
use case_lines::{Bad, Fields, begin, put_number, put_word};
use std::alloc::Global;

/// The room of a link, whether the end is over from the start, how many octets and quiet reads
/// there may be, and what the peer says: how the session ends, and what the end says.
pub(crate) fn turns(alloc: Global, fields: &mut Fields<'_>, out: &mut Octets) -> Result<(), Bad> {
    let room = fields.number()? as usize;
    let is_over = fields.next()? == "over";
    let reads = Reads {
        octets: fields.number()?,
        idle: fields.number()?,
    };
    let said = fields.next()?;
    let mut wires = MemWires::new(alloc, Fails::new(alloc));
    add(alloc, &mut wires, said, room)?;
    put_run(alloc, &mut wires, is_over, reads, out)
}

fn put_run(
    alloc: Global,
    wires: &mut MemWires,
    is_over: bool,
    reads: Reads,
    out: &mut Octets,
) -> Result<(), Bad> {
    put_ended(run(alloc, wires, is_over, reads)?, out)?;
    begin(out)?;
    out.extend(wires.written(0))?;
    Ok(())
}

/// How a session over the first link ends.
fn run<W: Wires>(alloc: Global, wires: &mut W, is_over: bool, reads: Reads) -> Result<Ended, Bad> {
    let Ok(link) = wires.accept("0.0.0.0", 601) else {
        return Err(Bad::Field);
    };
    let mut end = Echo { due: 1, is_over };
    Ok(run_turns(alloc, &mut end, wires, link, reads, &mut NullSink))
}

fn put_ended(ended: Ended, out: &mut Octets) -> Result<(), Bad> {
    match ended {
        Ended::Released => put_word("released", out)?,
        Ended::WireFault => put_word("fault", out)?,
        Ended::Cut(count) => put_count("cut", count, out)?,
        Ended::Idle(count) => put_count("idle", count as u64, out)?,
        Ended::Spent(count) => put_count("spent", count, out)?,
        Ended::Broken(_, _) | Ended::WriteFault | Ended::Refused(_) => return Err(Bad::Field),
        Ended::NoMemory => return Err(Bad::NoMemory),
    }
    Ok(())
}

fn put_count(word: &str, count: u64, out: &mut Octets) -> Result<(), Bad> {
    put_word(word, out)?;
    put_number(count, out)?;
    Ok(())
}
