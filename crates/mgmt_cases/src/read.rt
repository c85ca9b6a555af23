//! What a payload says, or why it isn't read.

use beep_mgmt::{MgmtError, read_mgmt, write_mgmt_element};
use beep_octets::{NoMemory, Octets};
use case_lines::{Bad, Fields, octets_of, put_number, put_word};
use std::alloc::Global;

/// What stands before an element in a message that is written.
pub(crate) const HEADER: &str = "Content-Type: application/beep+xml\r\n\r\n";

/// A payload: the element that is written of what it says, or why it isn't read.
pub(crate) fn read(alloc: Global, fields: &mut Fields<'_>, out: &mut Octets) -> Result<(), Bad> {
    let payload = octets_of(alloc, fields.next()?)?;
    put_read(alloc, payload.as_slice(), out)
}

/// An element: the same of its message, which has a header and ends with CR LF.
pub(crate) fn element(alloc: Global, fields: &mut Fields<'_>, out: &mut Octets) -> Result<(), Bad> {
    let element = octets_of(alloc, fields.next()?)?;
    let payload = message(alloc, element.as_slice())?;
    put_read(alloc, payload.as_slice(), out)
}

/// The message of an element.
fn message(alloc: Global, element: &[u8]) -> Result<Octets, NoMemory> {
    let mut out = Octets::new(alloc);
    out.extend(HEADER.as_bytes())?;
    out.extend(element)?;
    out.extend(b"\r\n")?;
    Ok(out)
}

fn put_read(alloc: Global, payload: &[u8], out: &mut Octets) -> Result<(), Bad> {
    match read_mgmt(alloc, payload) {
        Ok(m) => {
            write_mgmt_element(&m, out)?;
            Ok(())
        }
        Err(error) => put_error(error, out),
    }
}

pub(crate) fn put_error(error: MgmtError, out: &mut Octets) -> Result<(), Bad> {
    match error {
        MgmtError::Malformed(at) => put_place("malformed", at, out),
        MgmtError::Entity(at) => put_place("reference", at, out),
        MgmtError::TooLong => put_only("too long", out),
        MgmtError::Shape => put_only("shape", out),
        MgmtError::NoMemory => Err(Bad::NoMemory),
    }
}

pub(crate) fn put_only(word: &str, out: &mut Octets) -> Result<(), Bad> {
    put_word(word, out)?;
    Ok(())
}

fn put_place(word: &str, at: u32, out: &mut Octets) -> Result<(), Bad> {
    put_word(word, out)?;
    put_number(at as u64, out)?;
    Ok(())
}
