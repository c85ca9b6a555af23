//! What a frame of a story holds.

use beep_octets::{NoMemory, Octets};
use case_lines::{Bad, number_of};
use std::alloc::Global;

/// The MIME header of a message of channel zero.
const HEADER: &[u8] = b"Content-Type: application/beep+xml\r\n\r\n";

/// The elements of channel zero that a word names, and parts of some.
static ELEMENTS: [(&str, &str); 23] = [
    ("greeting", "<greeting />"),
    (
        "start0",
        "<start number='0'><profile uri='urn:x' /></start>",
    ),
    (
        "start1",
        "<start number='1'><profile uri='urn:x' /></start>",
    ),
    (
        "start2",
        "<start number='2'><profile uri='urn:x' /></start>",
    ),
    (
        "start3",
        "<start number='3'><profile uri='urn:x' /></start>",
    ),
    (
        "far",
        "<start number='2147483649'><profile uri='urn:x' /></start>",
    ),
    ("start2_begins", "<start number='2'><profile"),
    ("start2_ends", " uri='urn:x' /></start>"),
    ("chosen", "<profile uri='urn:x' />"),
    ("chosen_begins", "<p"),
    ("chosen_ends", "rofile uri='urn:x' />"),
    ("unlisted", "<profile uri='urn:y' />"),
    (
        "unreadable",
        "<profile uri='urn:x' encoding='base64'>!</profile>",
    ),
    ("close0", "<close number='0' code='200' />"),
    ("close1", "<close number='1' code='200' />"),
    ("close2", "<close number='2' code='200' />"),
    ("close3", "<close number='3' code='200' />"),
    ("close1_begins", "<close number='1'"),
    ("close1_ends", " code='200' />"),
    ("ok", "<ok />"),
    (
        "error",
        "<error code='550'>requested action not taken</error>",
    ),
    ("nothing", "nothing"),
    ("blanks", ""),
];

fn element_of(word: &str) -> Option<&'static str> {
    for (name, element) in &ELEMENTS {
        if *name == word {
            return Some(*element);
        }
    }
    None
}

/// The octets that a word stands for: a number of octets, or a message, which has blanks up to the
/// size after `^`.
pub(crate) fn payload_of(alloc: Global, text: &str) -> Result<Octets, Bad> {
    if let Some((word, size)) = text.split_once('^') {
        let mut octets = message_of(alloc, word)?;
        let count = (number_of(size)? as usize).saturating_sub(octets.len());
        fill(&mut octets, count, b" ")?;
        return Ok(octets);
    }
    message_of(alloc, text)
}

/// So many octets, or the message that a word names.
fn message_of(alloc: Global, word: &str) -> Result<Octets, Bad> {
    let mut octets = Octets::new(alloc);
    match element_of(word) {
        Some(element) => append(&mut octets, word, element)?,
        None => fill(&mut octets, number_of(word)? as usize, b"x")?,
    }
    Ok(octets)
}

fn fill(octets: &mut Octets, count: usize, octet: &[u8]) -> Result<(), NoMemory> {
    for _ in 0..count {
        octets.extend(octet)?;
    }
    Ok(())
}

/// Appends the message of channel zero that a word names, with what stands before and after an
/// element.
fn append(out: &mut Octets, word: &str, element: &str) -> Result<(), NoMemory> {
    let is_part = word == "nothing" || word == "blanks";
    if !is_part && !word.ends_with("_ends") {
        out.extend(HEADER)?;
    }
    out.extend(element.as_bytes())?;
    if !is_part && !word.ends_with("_begins") {
        out.extend(b"\r\n")?;
    }
    Ok(())
}
