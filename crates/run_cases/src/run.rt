//! Runs of a case.

use crate::case::Case;
use crate::judge::{Answers, judge};
use crate::reader::Reader;
use crate::spelling::append_octets;
use crate::stop::Stop;
use beep_cmd::beep_memory::{Give, Gives, MemWires};
use beep_cmd::beep_octets::Octets;
use beep_cmd::beep_run;
use beep_cmd::beep_wires::{Fails, MemSink};
use std::alloc::Global;

/// The room of a link, which is more than an end says in a run.
const LINK_ROOM: usize = 8192;

/// The words, what is read, the sizes of its first reads, and how many octets a later read, and a
/// write, have at most.
#[derive(Clone, Copy)]
pub(crate) struct Way<'a> {
    pub(crate) words: &'a str,
    pub(crate) input: &'a [u8],
    pub(crate) sizes: &'a [usize],
    pub(crate) read_piece: usize,
    pub(crate) write_piece: usize,
}

/// Runs a case in one way, and says what came out otherwise than it is wanted: nothing where all
/// did.
pub(crate) fn run_once(alloc: Global, case: &Case, way: Way<'_>) -> Result<String, Stop> {
    let words = words_of(alloc, way.words)?;
    let mut source = Reader::new(way.input, way.sizes, way.read_piece, case.plan.failing_read);
    let mut sink = sink_of(alloc, case, way.write_piece)?;
    let mut wires = wires_of(alloc, case)?;
    let status = beep_run(alloc, words.as_slice(), &mut source, &mut sink, &mut wires);
    let answers = Answers {
        status: u64::from(status),
        reads: source.reads(),
        output: sink.written(),
        wires: &wires,
    };
    judge(alloc, &case.wanted, &answers)
}

/// The words of a text, with a space between them.
fn words_of(alloc: Global, text: &str) -> Result<Vec<String>, Stop> {
    let mut words = Vec::new(alloc);
    for word in text.split_whitespace() {
        if words.push(String::from_str(alloc, word)?).is_err() {
            return Err(Stop::NoMemory);
        }
    }
    Ok(words)
}

fn planned(alloc: Global, call: Option<u64>) -> Result<Fails, Stop> {
    let mut fails = Fails::new(alloc);
    if let Some(number) = call {
        fails.push(number)?;
    }
    Ok(fails)
}

fn sink_of(alloc: Global, case: &Case, piece: usize) -> Result<MemSink, Stop> {
    let fails = planned(alloc, case.plan.failing_write)?;
    let sink = MemSink::new(alloc, case.plan.room, piece.max(1), fails)?;
    Ok(sink)
}

/// The links of a case.
fn wires_of(alloc: Global, case: &Case) -> Result<MemWires, Stop> {
    let fails = planned(alloc, case.plan.failing_link)?;
    let mut wires = MemWires::new(alloc, fails);
    for link in case.given.links.iter() {
        add_link(alloc, &mut wires, link.as_str())?;
    }
    Ok(wires)
}

/// Adds a link whose peer says this.
fn add_link(alloc: Global, wires: &mut MemWires, text: &str) -> Result<(), Stop> {
    let gives = gives_of(alloc, text)?;
    if gives.are_some() {
        wires.add(gives, LINK_ROOM)?;
    }
    Ok(())
}

/// What a link gives: `|` parts what reads give, and `~` is a quiet read.
fn gives_of(alloc: Global, text: &str) -> Result<Gives, Stop> {
    let mut gives = Gives::new(alloc);
    for piece in text.split('|') {
        if piece == "~" {
            gives.push(Give::Quiet)?;
        } else if !piece.is_empty() {
            gives.push(Give::Bytes(octets_of(alloc, piece)?))?;
        }
    }
    Ok(gives)
}

fn octets_of(alloc: Global, text: &str) -> Result<Octets, Stop> {
    let mut octets = Octets::new(alloc);
    append_octets(&mut octets, text)?;
    Ok(octets)
}
