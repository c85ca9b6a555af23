//! Texts with so many attributes that they are made here.

use crate::elements::put_error;
use beep_octets::{NoMemory, Octets};
use beep_text::{Element, MAX_NAME, read_element};
use case_lines::{Bad, Fields, octets_of, put_number, put_word};
use std::alloc::Global;

/// The octets that a name may go on with.
static NAME_OCTETS: [u8; 66] =
    *b"ABCDEFGHIJKLMNOPQRSTUVWXYZabcdefghijklmnopqrstuvwxyz0123456789_-.:";

/// So many attributes with the names `a0000`, `a0001` and so on, and what follows them: how long
/// the text is, and `all` where each of them is read, or what is wrong with it.
pub(crate) fn attributes(
    alloc: Global,
    fields: &mut Fields<'_>,
    out: &mut Octets,
) -> Result<(), Bad> {
    let count = fields.number()? as usize;
    let mut text = numbered(alloc, count)?;
    text.extend(octets_of(alloc, fields.next()?)?.as_slice())?;
    put_number(text.len() as u64, out)?;
    match read_element(alloc, text.as_slice()) {
        Ok(element) => put_count(&element, count, out),
        Err(error) => put_error(error, out),
    }
}

/// Whether an element has so many attributes and no more.
fn put_count(element: &Element, count: usize, out: &mut Octets) -> Result<(), Bad> {
    let has_last = count == 0 || element.attr_at(count - 1).is_some();
    if has_last && element.attr_at(count).is_none() {
        put_word("all", out)?;
    } else {
        put_word("not all", out)?;
    }
    Ok(())
}

/// A tag with so many attributes of 36 octets.
fn numbered(alloc: Global, count: usize) -> Result<Octets, NoMemory> {
    let mut text = Octets::new(alloc);
    text.extend(b"<a")?;
    for i in 0..count {
        text.extend(b" a")?;
        text.extend(&[digit(i / 1000), digit(i / 100), digit(i / 10), digit(i)])?;
        text.extend(b"='abcdefghijklmnopqrstuvwxyz.'")?;
    }
    Ok(text)
}

fn digit(n: usize) -> u8 {
    b'0' + (n % 10) as u8
}

/// How many names that are longer by one octet stand before one that is taken, and what follows
/// that one: `read`, or what is wrong.
pub(crate) fn names(alloc: Global, fields: &mut Fields<'_>, out: &mut Octets) -> Result<(), Bad> {
    let mut text = longer_names(alloc, fields.number()? as usize)?;
    text.extend(octets_of(alloc, fields.next()?)?.as_slice())?;
    match read_element(alloc, text.as_slice()) {
        Ok(_) => put_word("read", out)?,
        Err(error) => put_error(error, out)?,
    }
    Ok(())
}

/// A tag with an attribute whose name is shorter by one octet than the longest may be, and others
/// whose names are longer by one of the first so many octets; then the first name again.
fn longer_names(alloc: Global, count: usize) -> Result<Octets, NoMemory> {
    let name = [b'b'; MAX_NAME - 1];
    let mut text = Octets::new(alloc);
    text.extend(b"<a ")?;
    text.extend(&name)?;
    for octet in NAME_OCTETS.iter().take(count) {
        text.extend(b"='' ")?;
        text.extend(&name)?;
        text.extend(&[*octet])?;
    }
    text.extend(b"='' ")?;
    text.extend(&name)?;
    Ok(text)
}
