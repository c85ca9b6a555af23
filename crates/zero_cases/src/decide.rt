//! What a request of channel zero is answered.

use crate::standing::standing_of;
use beep_decide::{Answer, Standing, decide};
use beep_mgmt::{Mgmt, read_mgmt};
use beep_octets::{NoMemory, Octets};
use case_lines::{Bad, Fields, octets_of, put_number, put_word};
use std::alloc::Global;

/// What stands, and the element of a request: the answer of a listener that offers `urn:x` and, as
/// tuning, `urn:t`.
pub(crate) fn decided(alloc: Global, fields: &mut Fields<'_>, out: &mut Octets) -> Result<(), Bad> {
    let standing = standing_of(alloc, fields.next()?)?;
    let element = fields.next()?;
    put_decided(alloc, &standing, element, out)
}

fn put_decided(
    alloc: Global,
    standing: &Standing,
    element: &str,
    out: &mut Octets,
) -> Result<(), Bad> {
    let element = octets_of(alloc, element)?;
    let request = request_of(alloc, element.as_slice())?;
    put_answer(decide(alloc, standing, request.as_ref())?, out)
}

/// What the message of an element says, if it can be read.
fn request_of(alloc: Global, element: &[u8]) -> Result<Option<Mgmt>, NoMemory> {
    let mut octets = Octets::new(alloc);
    octets.extend(b"Content-Type: application/beep+xml\r\n\r\n")?;
    octets.extend(element)?;
    octets.extend(b"\r\n")?;
    match read_mgmt(alloc, octets.as_slice()) {
        Ok(request) => Ok(Some(request)),
        Err(_) => Ok(None),
    }
}

/// The answer in a word and a number: a code, or the place of an offer.
fn put_answer(answer: Answer, out: &mut Octets) -> Result<(), Bad> {
    match answer {
        Answer::Refuse(code) => put_both("ERR", code as u64, out),
        Answer::Choose(place) => put_both("choose", place as u64, out),
        Answer::Tune(place, _) => put_both("tune", place as u64, out),
        Answer::GrantClose => {
            put_word("ok", out)?;
            Ok(())
        }
    }
}

fn put_both(word: &str, number: u64, out: &mut Octets) -> Result<(), Bad> {
    put_word(word, out)?;
    put_number(number, out)?;
    Ok(())
}
