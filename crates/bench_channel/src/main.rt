//! Calls on one life of a channel, over and over, for bench/channel.py to time. Without words it
//! makes each of them a few times.
#![tactic(auto)]

mod arriving;
mod sending;
mod stop;

use crate::arriving::{arrive_all, take_all};
use crate::sending::{PIECE, cut_all, give_all};
use crate::stop::Stop;
use beep_channel::Channel;
use beep_octets::Octets;
use std::alloc::Global;
use std::env::{self, Env};
use std::io;
use std::process::ExitCode;

/// The own window of each channel, in octets.
pub(crate) const WINDOW: u32 = 65536;

fn main(rt: HostRuntime) -> ExitCode {
    let words = match words_of(&rt) {
        Ok(words) => words,
        Err(_) => return ExitCode::from(1),
    };
    match run(rt.alloc(), words.as_slice()) {
        Ok(()) => ExitCode::from(0),
        Err(_) => ExitCode::from(1),
    }
}

/// The words after the program's name.
fn words_of<R: Env + Alloc<A = Global>>(rt: &R) -> io::Result<Vec<String>> {
    let mut words = Vec::new(rt.alloc());
    for word in env::args(rt)?.skip(1) {
        words.push(word)?;
    }
    Ok(words)
}

/// What the words ask for: the last call to make, the octets of a message, the messages of a
/// channel, and how many channels.
fn run(alloc: Global, words: &[String]) -> Result<(), Stop> {
    match words {
        [] => {
            channels(alloc, "cut", 20, 3, 2)?;
            channels(alloc, "take", 20, 3, 2)
        }
        [last, size, messages, count] => {
            let size = number_of(size)?;
            let messages = number_of(messages)?;
            let count = number_of(count)?;
            channels(alloc, last.as_str(), size, messages, count)
        }
        _ => Err(Stop::Words),
    }
}

fn number_of(word: &String) -> Result<u32, Stop> {
    match word.as_str().parse::<u32>() {
        Ok(number) => Ok(number),
        Err(_) => Err(Stop::Words),
    }
}

/// Makes channels, one after another, and in each the calls up to this one.
fn channels(alloc: Global, last: &str, size: u32, messages: u32, count: u32) -> Result<(), Stop> {
    let mut payload = Octets::new(alloc);
    for _ in 0..size {
        payload.extend(b"x")?;
    }
    let mut out = Octets::new(alloc);
    out.reserve(PIECE as usize)?;
    let room = (size as usize).saturating_mul(messages as usize);
    for _ in 0..count {
        let mut channel = Channel::new(alloc, 1, WINDOW)?;
        channel.reserve(room, messages as usize)?;
        calls(&mut channel, last, payload.as_slice(), messages, &mut out)?;
    }
    Ok(())
}

/// The calls on one channel, up to this one.
fn calls(
    channel: &mut Channel,
    last: &str,
    payload: &[u8],
    messages: u32,
    out: &mut Octets,
) -> Result<(), Stop> {
    match last {
        "new" => Ok(()),
        "give" => give_all(channel, payload, messages),
        "cut" => {
            give_all(channel, payload, messages)?;
            cut_all(channel, out)
        }
        "arrive" => arrive_all(channel, payload, messages),
        "take" => {
            arrive_all(channel, payload, messages)?;
            take_all(channel);
            Ok(())
        }
        _ => Err(Stop::Words),
    }
}
