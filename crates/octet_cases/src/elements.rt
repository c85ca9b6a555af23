//! What a text is: one that says an element, or one that is refused, and then where.

use beep_octets::Octets;
use beep_plain::{Outcome, decide};
use beep_text::{Element, MAX_TEXT, TextError, read_element, write_element};
use case_lines::{Bad, Fields, begin, octets_of, put_number, put_word};
use std::alloc::Global;

/// A text: what the plain program decides, which is what the reader answers too.
pub(crate) fn text(alloc: Global, fields: &mut Fields<'_>, out: &mut Octets) -> Result<(), Bad> {
    let text = octets_of(alloc, fields.next()?)?;
    put_decided(alloc, text.as_slice(), out)?;
    let mut read = Octets::new(alloc);
    put_read(alloc, text.as_slice(), &mut read)?;
    if out.as_slice().ends_with(read.as_slice()) {
        return Ok(());
    }
    put_word("but the reader:", out)?;
    out.extend(read.as_slice())?;
    Ok(())
}

/// A text of so many octets that the plain program takes too long: its length, and what the reader
/// answers.
pub(crate) fn long(alloc: Global, fields: &mut Fields<'_>, out: &mut Octets) -> Result<(), Bad> {
    let text = octets_of(alloc, fields.next()?)?;
    put_number(text.len() as u64, out)?;
    put_read(alloc, text.as_slice(), out)
}

/// `says` and the canonical text, `at` and the place, or that and `in` and the place of the
/// reference.
fn put_decided(alloc: Global, text: &[u8], out: &mut Octets) -> Result<(), Bad> {
    if MAX_TEXT < text.len() {
        return Err(Bad::Field);
    }
    match decide(alloc, text)? {
        Outcome::Says(element) => put_element(&element, out),
        Outcome::Stops(at) => put_place("at", at as u64, out),
        Outcome::StopsInReference(from, at) => {
            put_place("at", at as u64, out)?;
            put_place("in", from as u64, out)
        }
    }
}

/// The same, where a place within a reference isn't answered.
pub(crate) fn put_read(alloc: Global, text: &[u8], out: &mut Octets) -> Result<(), Bad> {
    match read_element(alloc, text) {
        Ok(element) => put_element(&element, out),
        Err(error) => put_error(error, out),
    }
}

pub(crate) fn put_error(error: TextError, out: &mut Octets) -> Result<(), Bad> {
    match error {
        TextError::Malformed(at) => put_place("at", at as u64, out),
        TextError::Entity(from) => put_place("in", from as u64, out),
        TextError::TooLong => put_too_long(out),
        TextError::NoMemory => Err(Bad::NoMemory),
    }
}

fn put_too_long(out: &mut Octets) -> Result<(), Bad> {
    put_word("too long", out)?;
    Ok(())
}

fn put_element(element: &Element, out: &mut Octets) -> Result<(), Bad> {
    put_word("says", out)?;
    begin(out)?;
    write_element(element, out)?;
    Ok(())
}

fn put_place(word: &str, place: u64, out: &mut Octets) -> Result<(), Bad> {
    put_word(word, out)?;
    put_number(place, out)?;
    Ok(())
}
