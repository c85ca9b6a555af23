//! The program `beep`: it makes the real source, sink and links, makes one call, hands on its
//! status, and says on standard error what a status but 0 means and what caused it.
#![tactic(auto)]

mod cause;
mod usage;

use crate::cause::{Why, meaning_of};
use beep_cmd::{beep_run, status};
use beep_std::{StdSink, StdSource, StdWires, hold_streams};
use std::alloc::Global;
use std::env::{self, Env};
use std::io::{self, ErrorKind, IsTerminal};
use std::process::ExitCode;

/// Why a stream that wasn't open when the program began can't be read or written.
const CLOSED: &str = "it wasn't open when the program began";

fn main(rt: HostRuntime) -> ExitCode {
    let streams = match hold_streams(&rt) {
        Ok(streams) => streams,
        Err(why) => return early(&rt, status::WRITE_FAULT, Why::Error(why)),
    };
    let words = match words_of(&rt) {
        Ok(words) => words,
        Err(e) if e.kind() == ErrorKind::OutOfMemory => return early(
            &rt,
            status::NO_MEMORY,
            Why::Unknown,
        ),
        // A word that is no text is no command, as no word at all.
        Err(_) => Vec::new(rt.alloc()),
    };
    // What a peer sends would be lost: none is asked for it.
    if !streams.output && command_of(&words) == "listen" {
        return early(&rt, status::WRITE_FAULT, Why::Text(CLOSED));
    }
    let mut input = StdSource::new(rt.stdin());
    let mut output = StdSink::new(rt.stdout());
    let shows_progress = rt.stderr().is_terminal() && !is_quiet(&words);
    let mut wires = StdWires::new(rt.alloc(), rt, shows_progress);
    let status = beep_run(
        rt.alloc(),
        words.as_slice(),
        &mut input,
        &mut output,
        &mut wires,
    );
    if status == status::USAGE {
        usage::say_fault(&rt, words.as_slice());
        return ExitCode::from(status);
    }
    let why = match status {
        status::READ_FAULT if !streams.input => Why::Text(CLOSED),
        status::READ_FAULT => Why::of_error(input.why()),
        status::WRITE_FAULT if !streams.output => Why::Text(CLOSED),
        status::WRITE_FAULT => Why::of_error(output.why()),
        status::WIRE_FAULT => Why::of_text(wires.why()),
        _ => Why::Unknown,
    };
    let meaning = meaning_of(status, command_of(&words), output.tail());
    ended(&rt, status, meaning, why)
}

/// The first word, or none at all.
fn command_of(words: &Vec<String>) -> &str {
    match words.first() {
        Some(word) => word.as_str(),
        None => "",
    }
}

/// Whether the words say that nothing is to be told of a session.
fn is_quiet(words: &Vec<String>) -> bool {
    words.windows(2).any(|pair| pair[0].as_str() == "--quiet" && pair[1].as_str() == "yes")
}

/// The words after the program's name.
fn words_of<R: Env + Alloc<A = Global>>(rt: &R) -> io::Result<Vec<String>> {
    let mut words = Vec::new(rt.alloc());
    for word in env::args(rt)?.skip(1) {
        words.push(word)?;
    }
    Ok(words)
}

/// Ends before a command has begun.
fn early(rt: &HostRuntime, status: u8, why: Why<'_>) -> ExitCode {
    ended(rt, status, meaning_of(status, "", &[]), why)
}

/// Says what the status means and what caused it, unless it is 0. Where that write fails nothing is
/// left to be said.
fn ended(rt: &HostRuntime, status: u8, meaning: &str, why: Why<'_>) -> ExitCode {
    if status != status::FINE {
        let _ = eprintln!(rt; "beep: {meaning}{why}");
    }
    ExitCode::from(status)
}
