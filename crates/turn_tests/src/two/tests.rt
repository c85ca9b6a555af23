//! Two ends over links in memory.
ghost use Rattle.std.specs.Prelude.{◌≡◌, ◌≤◌, ℕ, List, true, IfErr, OnOk};
ghost use Rattle.beep_wires.specs.Counts.{Rose};
ghost use Rattle.beep_wires.specs.Log.{Entry};
ghost use Rattle.beep_link.specs.Causes.{Grows, WithText};
ghost use Rattle.beep_link.specs.declared.ended.Stop.{Stop as StopValue};

use super::{Linked, Which, take_turns};
use beep_link::{Buffers, End, Ended, Reads, Stop};
use beep_memory::{Give, Gives, MemWires};
use beep_octets::{NoMemory, Octets};
use beep_wires::{Failed, Fails, MemSink, Sink, Wires, write_all};
use std::alloc::Global;
use std::test::Fail;

/// An end that says `hello` once and writes what it hears to the output, until it hears a full
/// stop. It claims nothing.
#[derive(Drop)]
struct Copying {
    is_due: bool,
}

impl End for Copying {
    ghost Terms = { Unit {0} };

    ghost terms = { λ _. tt };

    ghost stands = { λ _ _ _ _. Unit {0} };

    ghost tells = { λ _ _ _ _. Unit {0} };

    ghost goes = { λ _. Unit {0} };

    ghost rests = { λ _. Unit {0} };

    ghost writes = { λ _ _ _ _ _ _. tt };

    ghost quiets = { λ _ _ _ _. tt };

    ghost closes = { λ _ _ _ _. tt };

    ghost stops = { λ _ _ _ _ _ _ _. tt };

    ghost spends = { λ _ _ _ _ _ _ _ _. tt };

    fn gather(&mut self, out: &mut Octets) -> Result<bool, NoMemory> {
        if self.is_due {
            out.extend(b"hello")?;
            self.is_due = false;
        }
        Ok(false)
    }

    fn hear<O: Sink>(&mut self, bytes: &[u8], output: &mut O) -> Result<(), Stop>
        ensures heard { (log : List Entry) (text : List ℕ) → Unit {0} → OnOk result
            (WithText (O.state output.old).written (O.state output.new).written
            (λ _. Unit {0})) }
        ensures stopped { (log : List Entry) (text : List ℕ) → Unit {0} → IfErr result
            (λ _. WithText (O.state output.old).written (O.state output.new).written
            (λ _. Unit {0})) }
        ensures grew { Grows (O.state output.old).written (O.state output.new).written }
        ensures failed { IfErr result (λ stop. stop ≡ StopValue.WriteFault
            → Rose (O.state output.old).faults (O.state output.new).faults) }
        ensures kept { (O.state output.old).faults ≤ (O.state output.new).faults }
    {
        match write_all(output, bytes) {
            Ok(()) => {}
            Err(Failed) => return Err(Stop::WriteFault),
        }
        for octet in bytes {
            if *octet == b'.' {
                return Err(Stop::Released);
            }
        }
        Ok(())
    }

    fn over(&self) -> Option<Stop> {
        None
    }

    fn left(&self) -> u64 {
        0
    }
}

/// Adds a link that gives these pieces.
fn add(alloc: Global, wires: &mut MemWires, pieces: &str) -> Result<(), NoMemory> {
    let mut gives = Gives::new(alloc);
    for piece in pieces.split(',') {
        let mut octets = Octets::new(alloc);
        octets.extend(piece.as_bytes())?;
        gives.push(Give::Bytes(octets))?;
    }
    if gives.are_some() {
        wires.add(gives, 100)?;
    }
    Ok(())
}

/// Takes turns of two ends, over the first two links, and answers which ended.
fn run<W: Wires, O: Sink>(
    alloc: Global,
    wires: &mut W,
    output: &mut O,
) -> Result<Option<Which>, NoMemory> {
    let Ok(link) = wires.accept("0.0.0.0", 601) else {
        return Ok(None);
    };
    let Ok(other_link) = wires.accept("0.0.0.0", 601) else {
        return Ok(None);
    };
    let reads = Reads {
        octets: 100,
        idle: 3,
    };
    let mut buffers = Buffers::new(alloc)?;
    let mut one = Linked::new(Copying { is_due: true }, link, reads);
    let mut other = Linked::new(Copying { is_due: true }, other_link, reads);
    let which = take_turns(&mut buffers, &mut one, &mut other, wires, output);
    Ok(Some(which))
}

#[test]
fn what_two_ends_write_is_merged_by_turns(rt: HostRuntime) -> Result<(), Fail> {
    let mut wires = MemWires::new(rt.alloc(), Fails::new(rt.alloc()));
    add(rt.alloc(), &mut wires, "ab,c,de.")?;
    add(rt.alloc(), &mut wires, "12,3.,45")?;
    let mut output = MemSink::new(rt.alloc(), 100, 100, Fails::new(rt.alloc()))?;
    let which = run(rt.alloc(), &mut wires, &mut output)?;
    assert_eq!(rt; which, Some(Which::Other(Ended::Released)));
    assert_eq!(rt; output.written(), b"ab12c3.".as_slice());
    assert_eq!(rt; wires.written(0), b"hello".as_slice());
    assert_eq!(rt; wires.written(1), b"hello".as_slice());
    Ok(())
}
