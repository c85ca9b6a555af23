//! Going over the words of options.
ghost use Rattle.std.specs.Prelude.{◌≡◌, ◌↔◌, true, ◌&&◌, ◌||◌, ◌==◌, not, map, string_bytes, chars, IfOk, OnOk, bytes_eq};
ghost use Rattle.std.specs.Option.{option_copied};
ghost use Rattle.beep_words.specs.Choosing.{is_of_some, is_among, are_options, word_in, number_at, number_or, number_set_at, choice_at, choice_or, text_at, is_lone, are_listen_options, bound_text, IsBound, show_of, settings_of, pair_of};
ghost use Rattle.beep_words.specs.CommandSet.{form_in, IsAddress};
ghost use Rattle.beep_words.specs.Rows.{rows_of};

use crate::command::{PairSettings, ShowSettings};
use crate::form::{is_address, is_of, number_in};
use crate::options::{MAX_PORT, Options};
use beep_chars::Text;
use beep_octets::NoMemory;
use beep_seq::INITIAL_WINDOW;
use beep_settings::{BIND, HOST, IDLE, OCTETS, PIECE, PORT, RAW_URI, SESSIONS, Settings};
use std::alloc::Global;

/// Whether the words are options of a command and their values, each option once at most.
pub(crate) fn are_options(options: Options, words: &[String]) -> bool
    ensures { result ≡ are_options (rows_of options) (map string_bytes words.now) }
{
    match words {
        [] => true,
        [name, word, others @ ..] => {
            is_first(options, name.as_str(), word.as_str(), others) && are_options(options, others)
        }
        _ => false,
    }
}

/// Whether the words begin with an option and its value, and don't have it once more.
fn is_first(options: Options, name: &str, word: &str, others: &[String]) -> bool
    ensures { result ≡ (is_of_some (form_in (rows_of options) name.now) word.now
        && not (is_among name.now (map string_bytes others.now))) }
{
    is_option(options, name, word) && !is_among(name, others)
}

fn is_option(options: Options, name: &str, word: &str) -> bool
    ensures { result ≡ is_of_some (form_in (rows_of options) name.now) word.now }
{
    match options.form(name) {
        Some(form) => is_of(form, word),
        None => false,
    }
}

/// Whether the option is one of those among these words.
pub(crate) fn is_among(name: &str, words: &[String]) -> bool
    ensures { result ≡ is_among name.now (map string_bytes words.now) }
{
    match words {
        [other, _, others @ ..] => other.as_str() == name || is_among(name, others),
        _ => false,
    }
}

/// The word of the value of an option, where it is set.
fn word_in<'w>(name: &str, words: &'w [String]) -> Option<&'w str>
    ensures { option_copied result ≡ word_in name.now (map string_bytes words.now) }
{
    match words {
        [other, word, others @ ..] => {
            if other.as_str() == name {
                Some(word.as_str())
            } else {
                word_in(name, others)
            }
        }
        _ => None,
    }
}

/// The number that an option is set to, or else its own.
fn number_at(name: &str, default: u32, words: &[String]) -> u32
    ensures { result ≡ number_at name.now default (map string_bytes words.now) }
{
    match word_in(name, words) {
        Some(word) => match number_in(word) {
            Some(number) => number,
            None => default,
        },
        None => default,
    }
}

/// The number that an option is set to, where it is set.
fn number_set_at(name: &str, words: &[String]) -> Option<u32>
    ensures { result ≡ number_set_at name.now (map string_bytes words.now) }
{
    match word_in(name, words) {
        Some(word) => number_in(word),
        None => None,
    }
}

/// Whether an option is set to `yes`, or else its own.
fn choice_at(name: &str, default: bool, words: &[String]) -> bool
    ensures { result ≡ choice_at name.now default (map string_bytes words.now) }
{
    match word_in(name, words) {
        Some(word) => word == "yes",
        None => default,
    }
}

/// The text that an option is set to, or else its own.
fn text_at(alloc: Global, name: &str, default: &str, words: &[String]) -> Result<Text, NoMemory>
    ensures { IfOk result (λ text.
        text ≡ chars (text_at name.now default.now (map string_bytes words.now))) }
{
    match word_in(name, words) {
        Some(word) => Text::of(alloc, word),
        None => Text::of(alloc, default),
    }
}

/// Whether a run that is recorded accepts one link.
pub(crate) fn is_lone(words: &[String]) -> bool
    ensures { result ≡ is_lone (map string_bytes words.now) }
{
    !choice_at("--record", false, words) || number_at("--sessions", SESSIONS, words) == 1
}

/// Whether the words are options of `listen` that go together, where it is known whether links are
/// accepted on an address.
pub(crate) fn are_listen_options(bound: bool, words: &[String]) -> bool
    ensures { result ≡ are_listen_options bound (map string_bytes words.now) }
{
    are_options(Options::Listen, words) && bound && is_lone(words)
}

/// Whether the words, of which the first is a command, have links accepted on an address.
pub(crate) fn is_bound(words: &[String]) -> bool
    ensures { (result ≡ true) ↔ IsBound (map string_bytes words.now) }
{
    match words {
        [_, options @ ..] => is_bound_by(options),
        [] => true,
    }
}

fn is_bound_by(options: &[String]) -> bool
    ensures { (result ≡ true) ↔ IsAddress (bound_text (map string_bytes options.now)) }
{
    match word_in("--bind", options) {
        Some(word) => is_address(word),
        None => is_address(BIND),
    }
}

/// What the options of `show` say.
pub(crate) fn show_in(words: &[String]) -> ShowSettings
    ensures { result ≡ show_of (map string_bytes words.now) }
{
    ShowSettings {
        elements: choice_at("--elements", false, words),
        octets: number_at("--octets", OCTETS, words),
    }
}

/// What the options of `send` and `listen` say.
pub(crate) fn settings_in(alloc: Global, words: &[String]) -> Result<Settings, NoMemory>
    ensures { IfOk result (λ settings. settings ≡ settings_of (map string_bytes words.now)) }
{
    Ok(Settings {
        host: text_at(alloc, "--host", HOST, words)?,
        bind: text_at(alloc, "--bind", BIND, words)?,
        port: number_at("--port", u32::from(PORT), words).min(MAX_PORT) as u16,
        raw_uri: text_at(alloc, "--raw-uri", RAW_URI, words)?,
        window: number_at("--window", INITIAL_WINDOW, words),
        piece: number_at("--piece", PIECE, words),
        idle: number_at("--idle", IDLE, words),
        octets: number_at("--octets", OCTETS, words),
        sessions: number_at("--sessions", SESSIONS, words),
        recording: choice_at("--record", false, words),
        quiet: choice_at("--quiet", false, words),
    })
}

/// What the options of `pair` say.
pub(crate) fn pair_in(words: &[String]) -> PairSettings
    ensures { result ≡ pair_of (map string_bytes words.now) }
{
    let window = number_at("--window", INITIAL_WINDOW, words);
    let piece = number_at("--piece", PIECE, words);
    let seed = number_set_at("--seed", words);
    PairSettings {
        window,
        piece,
        seed,
    }
}
