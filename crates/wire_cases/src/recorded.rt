//! The record of a link.

use crate::links::{add, hear_link};
use beep_memory::MemWires;
use beep_octets::Octets;
use beep_recorder::Recorder;
use beep_recorder::beep_record::Role;
use beep_wires::{Failed, Fails, Wires};
use case_lines::{Bad, Fields};
use std::alloc::Global;

/// The pieces of two links that are used one after the other: the record that is kept.
pub(crate) fn record(alloc: Global, fields: &mut Fields<'_>, out: &mut Octets) -> Result<(), Bad> {
    let first = fields.next()?;
    let other = fields.next()?;
    let mut wires = MemWires::new(alloc, Fails::new(alloc));
    add(alloc, &mut wires, first, 2)?;
    add(alloc, &mut wires, other, 2)?;
    put_record(alloc, &mut wires, out)
}

fn put_record<W: Wires>(alloc: Global, wires: &mut W, out: &mut Octets) -> Result<(), Bad> {
    let mut recorder = Recorder::new(alloc, wires, Role::Listener);
    use_link(alloc, &mut recorder)?;
    use_link(alloc, &mut recorder)?;
    recorder.put_record(out)?;
    Ok(())
}

/// Writes `hi` on a link that is given, and reads it to its end.
fn use_link<W: Wires>(alloc: Global, wires: &mut W) -> Result<(), Bad> {
    let mut heard = Octets::new(alloc);
    let Ok(link) = wires.accept("0.0.0.0", 601) else {
        return Err(Bad::Field);
    };
    match wires.write(link, b"hi") {
        Ok(_) => hear_link(wires, link, &mut heard),
        Err(Failed) => Ok(()),
    }
}
