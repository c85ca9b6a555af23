//! The words of an answer.

use beep_octets::{NoMemory, Octets};
use itoa::Buffer;

/// Begins a word: a space stands before each but the first.
pub fn begin(out: &mut Octets) -> Result<(), NoMemory> {
    if out.is_empty() {
        return Ok(());
    }
    out.extend(b" ")
}

/// Appends a word.
pub fn put_word(word: &str, out: &mut Octets) -> Result<(), NoMemory> {
    begin(out)?;
    out.extend(word.as_bytes())
}

/// Appends a number as a word.
pub fn put_number(number: u64, out: &mut Octets) -> Result<(), NoMemory> {
    let mut buffer = Buffer::new();
    put_word(buffer.format(number), out)
}

/// Appends `yes` or `no`.
pub fn put_yes(holds: bool, out: &mut Octets) -> Result<(), NoMemory> {
    if holds {
        put_word("yes", out)
    } else {
        put_word("no", out)
    }
}
