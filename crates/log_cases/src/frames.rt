//! Frames of a session of RAW, by the names of what they say (RFC 3195, section 3).

use beep_octets::{NoMemory, Octets};
use std::alloc::Global;

/// The MIME header of a message of channel zero, which has 38 octets.
const MIME: &str = "Content-Type: application/beep+xml\r\n\r\n";

/// How many octets have come of half a window.
const HALF: usize = 2048;

/// The header line of a message of channel zero and its element, by its name.
fn element_of(name: &str) -> Option<(&'static str, &'static str)> {
    match name {
        "offers" => Some((
            "RPY 0 0 . 0 122",
            "<greeting><profile uri='http://xml.resource.org/profiles/syslog/RAW' /></greeting>",
        )),
        "greeting" => Some(("RPY 0 0 . 0 52", "<greeting />")),
        "away" => Some(("ERR 0 0 . 0 60", "<error code='421' />")),
        "start" => Some((
            "MSG 0 1 . 52 127",
            "<start number='1'>\
             <profile uri='http://xml.resource.org/profiles/syslog/RAW' /></start>",
        )),
        "chosen" => Some((
            "RPY 0 1 . 122 101",
            "<profile uri='http://xml.resource.org/profiles/syslog/RAW' />",
        )),
        "close" => Some(("MSG 0 2 . 179 71", "<close number='1' code='200' />")),
        "ok" => Some(("RPY 0 2 . 223 46", "<ok />")),
        "release" => Some(("MSG 0 3 . 250 71", "<close number='0' code='200' />")),
        "released" => Some(("RPY 0 3 . 269 46", "<ok />")),
        _ => None,
    }
}

/// A frame of another channel, a SEQ, or octets that are neither, by the name.
fn other_of(name: &str) -> Option<&'static str> {
    match name {
        "ready" => Some("MSG 1 0 . 0 9\r\n\r\nready\r\nEND\r\n"),
        "line" => Some("ANS 1 0 . 0 7 0\r\n\r\none\r\nEND\r\n"),
        "wrong" => Some("ANS 1 0 . 0 7 0\r\n\r\ntwo\r\nEND\r\n"),
        "nul" => Some("NUL 1 0 . 7 0\r\nEND\r\n"),
        "seq" => Some("SEQ 1 2048 4096\r\n"),
        "bad" => Some("MSG 01"),
        _ => None,
    }
}

/// The octets of a name, or none.
pub(crate) fn octets_of(alloc: Global, name: &str) -> Result<Option<Octets>, NoMemory> {
    let mut octets = Octets::new(alloc);
    if let Some((line, element)) = element_of(name) {
        for part in [line, "\r\n", MIME, element, "\r\nEND\r\n"] {
            octets.extend(part.as_bytes())?;
        }
        // The CRLF after the element is the payload's, and `END` follows it.
        return Ok(Some(octets));
    }
    if let Some(text) = other_of(name) {
        octets.extend(text.as_bytes())?;
        return Ok(Some(octets));
    }
    if name != "half" {
        return Ok(None);
    }
    octets.extend(b"ANS 1 0 * 0 2048 0\r\n")?;
    for _ in 0..HALF {
        octets.extend(b"x")?;
    }
    octets.extend(b"END\r\n")?;
    Ok(Some(octets))
}
