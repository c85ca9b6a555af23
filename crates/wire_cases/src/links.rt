//! Links in memory.
ghost use Rattle.std.specs.Prelude.{◌≡◌, true, false, IfOk, OnErr};
ghost use Rattle.beep_wires.specs.Got.{GotWithin, gives_end};

use crate::fails::fails_of;
use beep_memory::{Give, Gives, MemWires};
use beep_octets::Octets;
use beep_wires::{Failed, Got, WireError, Wires, write_link};
use case_lines::{Bad, Fields, begin, number_of, put_number};
use std::alloc::Global;

/// Adds a link that gives these pieces, with so much room: `~` is a quiet read.
pub(crate) fn add(
    alloc: Global,
    wires: &mut MemWires,
    pieces: &str,
    room: usize,
) -> Result<(), Bad> {
    let mut gives = Gives::new(alloc);
    for piece in pieces.split(',') {
        push(alloc, &mut gives, piece)?;
    }
    if gives.are_some() {
        wires.add(gives, room)?;
    }
    Ok(())
}

/// Adds what a read gives, but for nothing.
fn push(alloc: Global, gives: &mut Gives, piece: &str) -> Result<(), Bad> {
    if piece == "~" {
        gives.push(Give::Quiet)?;
    } else if !piece.is_empty() {
        let mut octets = Octets::new(alloc);
        octets.extend(piece.as_bytes())?;
        gives.push(Give::Bytes(octets))?;
    }
    Ok(())
}

/// The calls that fail (an accept is call 0), and the pieces of a link: what its reads give, and at
/// last `.` for its end.
pub(crate) fn hear(alloc: Global, fields: &mut Fields<'_>, out: &mut Octets) -> Result<(), Bad> {
    let fails = fails_of(alloc, fields.next()?)?;
    let pieces = fields.next()?;
    let mut wires = MemWires::new(alloc, fails);
    add(alloc, &mut wires, pieces, 0)?;
    match wires.accept("0.0.0.0", 601) {
        Ok(link) => hear_link(&mut wires, link, out),
        Err(_) => Err(Bad::Field),
    }
}

/// Reads a link to its end, or to a read that fails, by at most nine reads of at most four octets.
pub(crate) fn hear_link<W: Wires>(wires: &mut W, link: u32, out: &mut Octets) -> Result<(), Bad>
    requires alive { (W.state wires.old link).is_open ≡ true }
    requires going { (W.state wires.old link).has_ended ≡ false }
    requires unfailed { (W.state wires.old link).faults ≡ 0 }
{
    for _ in 0..9 {
        let mut buf = [0; 4];
        let got = wires.read(link, &mut buf);
        if note(got, &buf, out)? {
            return Ok(());
        }
    }
    Ok(())
}

/// Writes what a read gave, `~` where it was quiet and `!` where it failed, and answers whether
/// nothing more is read: that was the end, or failed.
fn note(got: Result<Got, Failed>, buf: &[u8], out: &mut Octets) -> Result<bool, Bad>
    requires { GotWithin got buf.now }
    ensures { IfOk result (λ over. over ≡ false → (gives_end got ≡ false) × OnErr got ⊥) }
{
    match got {
        Ok(Got::Bytes(n)) => put(&buf[..n], out)?,
        Ok(Got::Quiet) => put(b"~", out)?,
        Ok(Got::End) => {
            put(b".", out)?;
            return Ok(true);
        }
        Err(Failed) => {
            put(b"!", out)?;
            return Ok(true);
        }
    }
    Ok(false)
}

fn put(octets: &[u8], out: &mut Octets) -> Result<(), Bad> {
    begin(out)?;
    out.extend(octets)?;
    Ok(())
}

/// The calls that fail, the rooms of links, and calls that ask for one: what each answers, and
/// whether `greetings` is written whole on the link, which is then shut; at last what was written
/// on each of three links.
pub(crate) fn links(alloc: Global, fields: &mut Fields<'_>, out: &mut Octets) -> Result<(), Bad> {
    let fails = fails_of(alloc, fields.next()?)?;
    let rooms = fields.next()?;
    let calls = fields.next()?;
    let mut wires = MemWires::new(alloc, fails);
    add_all(alloc, &mut wires, rooms)?;
    put_links(&mut wires, calls, out)
}

fn add_all(alloc: Global, wires: &mut MemWires, rooms: &str) -> Result<(), Bad> {
    for room in rooms.split(' ') {
        add(alloc, wires, "greet", number_of(room)? as usize)?;
    }
    Ok(())
}

fn put_links(wires: &mut MemWires, calls: &str, out: &mut Octets) -> Result<(), Bad> {
    for call in calls.split(' ') {
        ask(wires, call, out)?;
    }
    for link in 0..3u32 {
        put(wires.written(link), out)?;
    }
    Ok(())
}

/// `accept` or `dial`.
fn ask<W: Wires>(wires: &mut W, call: &str, out: &mut Octets) -> Result<(), Bad> {
    match call {
        "accept" => accept(wires, out),
        "dial" => dial(wires, out),
        _ => Err(Bad::Field),
    }
}

fn accept<W: Wires>(wires: &mut W, out: &mut Octets) -> Result<(), Bad> {
    match wires.accept("0.0.0.0", 601) {
        Ok(link) => greet(wires, link, out),
        Err(error) => put_error(error, out),
    }
}

fn dial<W: Wires>(wires: &mut W, out: &mut Octets) -> Result<(), Bad> {
    match wires.dial("localhost", 7) {
        Ok(link) => greet(wires, link, out),
        Err(error) => put_error(error, out),
    }
}

fn put_error(error: WireError, out: &mut Octets) -> Result<(), Bad> {
    match error {
        WireError::Failed => put(b"none", out),
        WireError::NoMemory => Err(Bad::NoMemory),
    }
}

fn greet<W: Wires>(wires: &mut W, link: u32, out: &mut Octets) -> Result<(), Bad>
    requires alive { (W.state wires.old link).is_open ≡ true }
    requires unfailed { (W.state wires.old link).faults ≡ 0 }
{
    put_number(link as u64, out)?;
    match write_and_shut(wires, link) {
        Ok(()) => put(b"ok", out),
        Err(Failed) => put(b"failed", out),
    }
}

fn write_and_shut<W: Wires>(wires: &mut W, link: u32) -> Result<(), Failed>
    requires alive { (W.state wires.old link).is_open ≡ true }
    requires unfailed { (W.state wires.old link).faults ≡ 0 }
{
    let written = write_link(wires, link, b"greetings");
    wires.shut(link);
    written
}
