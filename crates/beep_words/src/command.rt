//! The command that words are (docs/COMMANDS.md).
ghost use Rattle.std.specs.Prelude.{◌≡◌, ◌↔◌, Some, map, string_bytes, IfOk, OnErr};
ghost use Rattle.beep_words.specs.CommandSet.{IsCommand, IsOfEnd};
ghost use Rattle.beep_words.specs.Choosing.{asked, asked_alone, command_at, command_in, help_in, makes_end, run_at};
ghost use Rattle.beep_words.specs.declared.command.Command.{Command as CommandValue};

use crate::options::Options;
use crate::reading::{are_listen_options, are_options, is_bound, pair_in, settings_in, show_in};
use beep_octets::NoMemory;
use beep_settings::Settings;
use std::alloc::Global;

/// What the options of `show` say.
#[derive(Clone, Copy, Debug, PartialEq, Eq)]
pub struct ShowSettings {
    /// Whether the elements of channel zero are listed.
    pub elements: bool,
    /// How many octets are read at most, at least 1.
    pub octets: u32,
}

/// What the options of `pair` say.
#[derive(Clone, Copy, Debug, PartialEq, Eq)]
pub struct PairSettings {
    /// The own window of each channel at both ends, in octets, 4,096 to 65,536.
    pub window: u32,
    /// The most octets of payload in one frame that is sent, 1 to 4,096.
    pub piece: u32,
    /// The number whose schedule is run, in place of one that is read.
    pub seed: Option<u32>,
}

/// A command, with what its options say.
#[derive(Debug, Drop)]
pub enum Command {
    /// Lists the frames of a recorded stream.
    Show(ShowSettings),
    /// Judges a recorded session.
    Replay,
    /// Sends lines to a collector.
    Send(Settings),
    /// Collects lines.
    Listen(Settings),
    /// Runs a schedule between two ends in memory.
    Pair(PairSettings),
    /// Writes a help text.
    Help(Topic),
    /// Writes the version.
    Version,
}

/// What help is asked for.
#[derive(Clone, Copy, Debug, PartialEq, Eq)]
pub enum Topic {
    /// The program and its commands.
    Program,
    /// `show`.
    Show,
    /// `replay`.
    Replay,
    /// `send`.
    Send,
    /// `listen`.
    Listen,
    /// `pair`.
    Pair,
}

/// The command that the words are, where they are one. Only `send` and `listen` take memory.
pub fn command_of(alloc: Global, words: &[String]) -> Result<Option<Command>, NoMemory>
    ensures ok { IfOk result (λ one. (command : CommandValue)
        → ((one ≡ Some command) ↔ IsCommand command (map string_bytes words.now))) }
    ensures err { OnErr result (IsOfEnd (map string_bytes words.now)) }
{
    command_at(alloc, is_bound(words), words)
}

/// Goes over the words, where it is known whether links are accepted on an address.
fn command_at(alloc: Global, bound: bool, words: &[String]) -> Result<Option<Command>, NoMemory>
    ensures ok { IfOk result (λ one. one ≡ command_at bound (map string_bytes words.now)) }
    ensures err { OnErr result (makes_end (command_at bound (map string_bytes words.now))) }
{
    match asked(words) {
        Some(question) => Ok(Some(question)),
        None => run_at(alloc, bound, words),
    }
}

/// What the words ask, where they are a question.
pub(crate) fn asked(words: &[String]) -> Option<Command>
    ensures { result ≡ asked (map string_bytes words.now) }
{
    match words {
        [word] => asked_alone(word.as_str()),
        [name, word] if word.as_str() == "--help" => help_in(name.as_str()),
        _ => None,
    }
}

fn asked_alone(word: &str) -> Option<Command>
    ensures { result ≡ asked_alone word.now }
{
    match word {
        "--help" => Some(Command::Help(Topic::Program)),
        "--version" => Some(Command::Version),
        _ => None,
    }
}

/// Help on the command of this name, where it is one.
fn help_in(name: &str) -> Option<Command>
    ensures { result ≡ help_in name.now }
{
    match name {
        "show" => Some(Command::Help(Topic::Show)),
        "replay" => Some(Command::Help(Topic::Replay)),
        "send" => Some(Command::Help(Topic::Send)),
        "listen" => Some(Command::Help(Topic::Listen)),
        "pair" => Some(Command::Help(Topic::Pair)),
        _ => None,
    }
}

/// The command that the words are, where they are one that runs.
fn run_at(alloc: Global, bound: bool, words: &[String]) -> Result<Option<Command>, NoMemory>
    ensures ok { IfOk result (λ one. one ≡ run_at bound (map string_bytes words.now)) }
    ensures err { OnErr result (makes_end (run_at bound (map string_bytes words.now))) }
{
    match words {
        [command, options @ ..] => command_in(alloc, bound, command.as_str(), options),
        [] => Ok(None),
    }
}

/// The command of this name with these options, where it is one that runs.
fn command_in(
    alloc: Global,
    bound: bool,
    name: &str,
    words: &[String],
) -> Result<Option<Command>, NoMemory>
    ensures ok { IfOk result (λ one. one ≡ command_in bound name.now (map string_bytes words.now)) }
    ensures err { OnErr result (makes_end (command_in bound name.now (map string_bytes words.now))) }
{
    match name {
        "show" if are_options(Options::Show, words) => Ok(Some(Command::Show(show_in(words)))),
        "replay" if are_options(Options::Replay, words) => Ok(Some(Command::Replay)),
        "send" if are_options(Options::Send, words) => {
            Ok(Some(Command::Send(settings_in(alloc, words)?)))
        }
        "listen" if are_listen_options(bound, words) => {
            Ok(Some(Command::Listen(settings_in(alloc, words)?)))
        }
        "pair" if are_options(Options::Pair, words) => Ok(Some(Command::Pair(pair_in(words)))),
        _ => Ok(None),
    }
}
