//! Messages that one session in memory carries to another, for bench/session.py to time. Without
//! words it carries a few.
#![tactic(auto)]

mod peer;
mod stop;
mod timing;

use crate::stop::Stop;
use crate::timing::{Load, time};
use std::alloc::Global;
use std::env::{self, Env};
use std::io;
use std::process::ExitCode;

/// What is carried without words.
const SHORT: Load = Load {
    messages: 12,
    size: 20,
    window: 4096,
    channels: 3,
};

fn main(rt: HostRuntime) -> ExitCode {
    let words = match words_of(&rt) {
        Ok(words) => words,
        Err(_) => return ExitCode::from(1),
    };
    match run(rt.alloc(), words.as_slice()) {
        Ok(()) => ExitCode::from(0),
        Err(_) => ExitCode::from(1),
    }
}

/// The words after the program's name.
fn words_of<R: Env + Alloc<A = Global>>(rt: &R) -> io::Result<Vec<String>> {
    let mut words = Vec::new(rt.alloc());
    for word in env::args(rt)?.skip(1) {
        words.push(word)?;
    }
    Ok(words)
}

/// What the words ask for: how many requests are carried, of how many octets, at which window, and
/// over how many channels.
fn run(alloc: Global, words: &[String]) -> Result<(), Stop> {
    match words {
        [] => time(alloc, SHORT),
        [messages, size, window, channels] => time(
            alloc,
            Load {
                messages: number_of(messages)?,
                size: number_of(size)?,
                window: number_of(window)?,
                channels: number_of(channels)?,
            },
        ),
        _ => Err(Stop::Words),
    }
}

fn number_of(word: &String) -> Result<u32, Stop> {
    match word.as_str().parse::<u32>() {
        Ok(number) => Ok(number),
        Err(_) => Err(Stop::Words),
    }
}
