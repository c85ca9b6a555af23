//! The characters of a text, and where the body of a message begins.

use beep_chars::Text;
use beep_mime::split_entity;
use beep_octets::Octets;
use case_lines::{Bad, Fields, number_of, octets_of, put_number, put_word};
use std::alloc::Global;

/// A text and places in it: how many characters it has, how many octets, and the numbers of the
/// characters at these places.
pub(crate) fn chars(alloc: Global, fields: &mut Fields<'_>, out: &mut Octets) -> Result<(), Bad> {
    let text = Text::of(alloc, fields.next()?)?;
    put_number(text.len() as u64, out)?;
    put_number(text.as_str().len() as u64, out)?;
    for place in fields.next()?.split(' ') {
        put_character(text.get(number_of(place)? as usize), out)?;
    }
    Ok(())
}

fn put_character(character: Option<char>, out: &mut Octets) -> Result<(), Bad> {
    match character {
        Some(character) => put_number(character as u64, out)?,
        None => put_word("none", out)?,
    }
    Ok(())
}

/// A payload: where its body begins.
pub(crate) fn mime(alloc: Global, fields: &mut Fields<'_>, out: &mut Octets) -> Result<(), Bad> {
    let payload = octets_of(alloc, fields.next()?)?;
    put_number(split_entity(payload.as_slice()) as u64, out)?;
    Ok(())
}
