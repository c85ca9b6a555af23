//! The words of an act: what it is, and at most two numbers.

use crate::answer::number_in;

/// The words of an act.
#[derive(Clone, Copy, Debug)]
pub struct Words<'l> {
    /// The first word.
    pub act: &'l str,
    /// The first number, as a rule that of a channel, or 0.
    pub number: u32,
    /// The second number, as a rule a length in octets, or 0.
    pub len: u32,
}

impl<'l> Words<'l> {
    /// The words of a line.
    pub fn of(line: &'l str) -> Words<'l> {
        let mut words = line.split(' ');
        let act = words.next().unwrap_or("");
        let number = number_in(words.next());
        let len = number_in(words.next());
        Words { act, number, len }
    }
}
