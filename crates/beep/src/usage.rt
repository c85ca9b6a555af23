//! What is wrong with words that are no command, on standard error.

use beep_cmd::beep_words::{Fault, Form, fault_of};
use std::io;

/// Says the first fault of the words in one line, where they have one. Where that write fails
/// nothing is left to be said.
pub(crate) fn say_fault(rt: &HostRuntime, words: &[String]) {
    if let Some(fault) = fault_of(words) {
        let _ = say(rt, words, fault);
    }
}

fn say(rt: &HostRuntime, words: &[String], fault: Fault) -> io::Result<()> {
    let command = word_at(words, 0);
    match fault {
        Fault::NoCommand => eprintln!(rt; "beep: no command; try 'beep --help'"),
        Fault::UnknownCommand => {
            eprintln!(rt; "beep: unknown command '{command}'; try 'beep --help'")
        }
        Fault::UnknownOption(place) => {
            let name = word_at(words, place);
            eprintln!(rt; "beep: unknown option '{name}' of {command}; try 'beep {command} --help'")
        }
        Fault::NoValue(place) => {
            let name = word_at(words, place);
            eprintln!(rt; "beep: {name} has no value; try 'beep {command} --help'")
        }
        Fault::NotAllowed(place, form) => say_not_allowed(rt, words, place, form),
        Fault::Twice(place) => {
            let name = word_at(words, place);
            eprintln!(rt; "beep: {name} is given twice; try 'beep {command} --help'")
        }
        Fault::Several(place) => {
            let several = word_at(words, place.saturating_add(1));
            eprintln!(rt; "beep: --record yes is of one session, and not of '{several}'")
        }
    }
}

/// Says which value isn't one of the option at this place, and which are.
fn say_not_allowed(rt: &HostRuntime, words: &[String], place: usize, form: Form) -> io::Result<()> {
    let name = word_at(words, place);
    let value = word_at(words, place.saturating_add(1));
    eprint!(rt; "beep: '{value}' isn't a value of {name}: ")?;
    match form {
        Form::Choice => eprintln!(rt; "yes or no"),
        Form::Number(least, most) => eprintln!(rt; "a number from {least} to {most}"),
        Form::Octets(most) => eprintln!(rt; "1 to {most} octets, the first of them not -"),
        Form::Printable(most) => {
            eprintln!(rt; "1 to {most} printable characters of ASCII, the first of them not -")
        }
        Form::Address => eprintln!(rt; "an IPv4 or IPv6 address"),
        Form::Raw => eprintln!(rt; "raw"),
    }
}

/// The word at this place, or none.
fn word_at<'w>(words: &'w [String], place: usize) -> &'w str {
    match words.get(place) {
        Some(word) => word.as_str(),
        None => "",
    }
}
