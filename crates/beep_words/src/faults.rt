//! What is wrong with words that are no command.
ghost use Rattle.std.specs.Prelude.{◌≡◌, ◌↔◌, Bool, true, None, length, map, string_bytes};
ghost use Rattle.beep_words.specs.CommandSet.{form_in, IsCommand, IsNoCommand};
ghost use Rattle.beep_words.specs.Choosing.{IsBound};
ghost use Rattle.beep_words.specs.Rows.{rows_of};
ghost use Rattle.beep_words.specs.Faults.{command_fault, fault_at, fault_in, last_fault, listen_fault, option_fault, option_place, set_fault};
ghost use Rattle.beep_words.specs.declared.command.Command.{Command as CommandValue};

use crate::command::asked;
use crate::form::{Form, is_of};
use crate::options::Options;
use crate::reading::{is_among, is_bound, is_lone};

/// What is wrong with words that are no command. A place is the number of the words before the word
/// that is meant.
#[derive(Clone, Copy, Debug, PartialEq, Eq)]
pub enum Fault {
    /// There are no words.
    NoCommand,
    /// The first word is no command.
    UnknownCommand,
    /// The word at this place is no option of the command.
    UnknownOption(usize),
    /// Nothing follows the option at this place.
    NoValue(usize),
    /// The word behind the option at this place isn't one of its values, which are of this form.
    NotAllowed(usize, Form),
    /// The option at this place comes once more.
    Twice(usize),
    /// A run that is recorded accepts one link, and the option at this place says several.
    Several(usize),
}

/// What is wrong with the words, where they are no command: the first fault, in their order.
pub fn fault_of(words: &[String]) -> Option<Fault>
    ensures fault { (bound : Bool) → ((bound ≡ true) ↔ IsBound (map string_bytes words.now))
        → result ≡ fault_in bound (map string_bytes words.now) }
    ensures none { result ≡ None → IsNoCommand (map string_bytes words.now) → ⊥ }
    ensures command { (command : CommandValue) → IsCommand command (map string_bytes words.now)
        → result ≡ None }
{
    fault_in(is_bound(words), words)
}

fn fault_in(bound: bool, words: &[String]) -> Option<Fault>
    ensures { result ≡ fault_in bound (map string_bytes words.now) }
{
    if asked(words).is_some() {
        None
    } else {
        fault_at(bound, count_of(words), words)
    }
}

fn count_of(words: &[String]) -> usize
    ensures { result ≡ length (map string_bytes words.now) }
{
    words.len()
}

/// The fault of words that ask nothing, of which there are so many.
fn fault_at(bound: bool, count: usize, words: &[String]) -> Option<Fault>
    ensures { result ≡ fault_at bound count (map string_bytes words.now) }
{
    match words {
        [name, options @ ..] => command_fault(bound, count, name.as_str(), options),
        [] => Some(Fault::NoCommand),
    }
}

/// The fault of a command of this name with these options.
fn command_fault(bound: bool, count: usize, name: &str, words: &[String]) -> Option<Fault>
    ensures { result ≡ command_fault bound count name.now (map string_bytes words.now) }
{
    match name {
        "show" => option_fault(Options::Show, count, words),
        "replay" => option_fault(Options::Replay, count, words),
        "send" => option_fault(Options::Send, count, words),
        "listen" => match option_fault(Options::Listen, count, words) {
            Some(fault) => Some(fault),
            None => listen_fault(bound, count, words),
        },
        "pair" => option_fault(Options::Pair, count, words),
        _ => Some(Fault::UnknownCommand),
    }
}

/// The fault of the first option that has one, where `count` is the number of all words.
fn option_fault(options: Options, count: usize, words: &[String]) -> Option<Fault>
    ensures { result ≡ option_fault (rows_of options) count (map string_bytes words.now) }
{
    match words {
        [] => None,
        [name] => Some(last_fault(options, count.saturating_sub(1), name.as_str())),
        [name, word, others @ ..] => {
            let place = count.saturating_sub(others.len()).saturating_sub(2);
            match set_fault(options, place, name.as_str(), word.as_str(), others) {
                Some(fault) => Some(fault),
                None => option_fault(options, count, others),
            }
        }
    }
}

fn last_fault(options: Options, place: usize, name: &str) -> Fault
    ensures { result ≡ last_fault (form_in (rows_of options) name.now) place }
{
    match options.form(name) {
        Some(_) => Fault::NoValue(place),
        None => Fault::UnknownOption(place),
    }
}

fn set_fault(
    options: Options,
    place: usize,
    name: &str,
    word: &str,
    others: &[String],
) -> Option<Fault>
    ensures { result ≡ set_fault (form_in (rows_of options) name.now) place name.now word.now
        (map string_bytes others.now) }
{
    let Some(form) = options.form(name) else {
        return Some(Fault::UnknownOption(place));
    };
    if !is_of(form, word) {
        Some(Fault::NotAllowed(place, form))
    } else if is_among(name, others) {
        Some(Fault::Twice(place))
    } else {
        None
    }
}

/// What doesn't go together in options of `listen`.
fn listen_fault(bound: bool, count: usize, words: &[String]) -> Option<Fault>
    ensures { result ≡ listen_fault bound count (map string_bytes words.now) }
{
    if !bound {
        Some(Fault::NotAllowed(option_place("--bind", count, words), Form::Address))
    } else if !is_lone(words) {
        Some(Fault::Several(option_place("--sessions", count, words)))
    } else {
        None
    }
}

/// The place of an option, and of none the number of all words.
fn option_place(name: &str, count: usize, words: &[String]) -> usize
    ensures { result ≡ option_place name.now count (map string_bytes words.now) }
{
    match words {
        [other, _, others @ ..] => {
            if other.as_str() == name {
                count.saturating_sub(others.len()).saturating_sub(2)
            } else {
                option_place(name, count, others)
            }
        }
        _ => count,
    }
}
