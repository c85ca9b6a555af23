//! What a value of an option may be.
ghost use Rattle.std.specs.Prelude.{◌≡◌, ◌↔◌, true, is_some, length};
ghost use Rattle.std.specs.List.{list_all};
ghost use Rattle.beep_words.specs.CommandSet.{begins_with_dash, is_printable, IsAddress};
ghost use Rattle.beep_words.specs.Choosing.{value_of_word, within, number_in, is_text};

use crate::options::MAX_ADDRESS;
use itoa::Buffer;
use std::net::IpAddr;

/// The form of the values of an option.
#[derive(Clone, Copy, Debug, PartialEq, Eq)]
pub enum Form {
    /// `yes` or `no`.
    Choice,
    /// A number from a least to a greatest one.
    Number(u32, u32),
    /// 1 to so many octets, of which the first isn't `-`.
    Octets(usize),
    /// The same, all of them printable characters of ASCII.
    Printable(usize),
    /// An IPv4 or IPv6 address, of 1 to 45 octets.
    Address,
    /// The word `raw`.
    Raw,
}

/// Whether a word is a value of a form.
pub(crate) fn is_of(form: Form, word: &str) -> bool
    ensures { result ≡ is_some (value_of_word form word.now) }
{
    match form {
        Form::Choice => word == "yes" || word == "no",
        Form::Number(least, most) => is_within(number_in(word), least, most),
        Form::Octets(most) => is_text(word.as_bytes(), most),
        Form::Printable(most) => is_text(word.as_bytes(), most) && are_printable(word.as_bytes()),
        Form::Address => is_text(word.as_bytes(), MAX_ADDRESS),
        Form::Raw => word == "raw",
    }
}

fn is_within(number: Option<u32>, least: u32, most: u32) -> bool
    ensures { result ≡ is_some (within least most number) }
{
    match number {
        Some(n) => least <= n && n <= most,
        None => false,
    }
}

fn is_text(octets: &[u8], most: usize) -> bool
    ensures { result ≡ is_text most octets.now }
{
    0 < octets.len() && octets.len() <= most && !begins_with_dash(octets)
}

fn begins_with_dash(octets: &[u8]) -> bool
    ensures { result ≡ begins_with_dash octets.now }
{
    match octets {
        [first, ..] => *first == b'-',
        [] => false,
    }
}

fn are_printable(octets: &[u8]) -> bool
    ensures { result ≡ list_all is_printable octets.now }
{
    octets.iter().all(|octet| b' ' <= *octet && *octet <= b'~')
}

/// A number of 32 bits that is written as it is printed.
pub(crate) fn number_in(word: &str) -> Option<u32>
    ensures { result ≡ number_in word.now }
{
    let Ok(number) = word.parse::<u32>() else {
        return None;
    };
    let mut buffer = Buffer::new();
    if buffer.format(number) != word {
        return None;
    }
    Some(number)
}

/// Whether a word is the text of an IPv4 or IPv6 address.
pub(crate) fn is_address(word: &str) -> bool
    ensures { (result ≡ true) ↔ IsAddress word.now }
{
    match word.parse::<IpAddr>() {
        Ok(_) => true,
        Err(_) => false,
    }
}
