//! Reading an element (RFC 3080, section 6.4).
ghost use Rattle.std.specs.Prelude.{◌≡◌, ◌<◌, ◌≤◌, length, IfOk, IfErr};
ghost use Rattle.beep_text.specs.Elements.{IsBody};
ghost use Rattle.beep_text.specs.Refused.{Refuses};
ghost use Rattle.beep_text.specs.Reading.{last_amp, refusal_of};

use crate::element::Element;
use crate::limits::MAX_TEXT;
use crate::mode::Mode;
use crate::octet::in_ref;
use crate::reader::Reader;
use std::alloc::Global;
use thiserror::Error;

/// Why a body isn't read. The places count octets from 0.
#[derive(Clone, Copy, Debug, PartialEq, Eq, Error)]
pub enum TextError {
    /// No octets can follow those before this place, or the body ends too soon.
    #[error("malformed at {0}")]
    Malformed(u32),
    /// The same inside a reference, which begins at this place.
    #[error("bad reference at {0}")]
    Entity(u32),
    /// The body has more octets than are read.
    #[error("too long")]
    TooLong,
    /// Out of memory; a later call may succeed.
    #[error("out of memory")]
    NoMemory,
}

/// The element that a body says. It goes over the octets once.
pub fn read_element(alloc: Global, body: &[u8]) -> Result<Element, TextError>
    ensures value { IfOk result (λ e. IsBody body.now e) }
    ensures refused { IfErr result (λ error. Refuses body.now error) }
    ensures too_long { MAX_TEXT < length body.now → result ≡ Err TextError.TooLong }
{
    if body.len() > MAX_TEXT {
        return Err(TextError::TooLong);
    }
    let mut reader = Reader::new(alloc);
    for i in 0..body.len() {
        let octet = body[i];
        let mode = reader.mode;
        match reader.take(octet) {
            Ok(true) => {}
            Ok(false) => return Err(refusal(mode, &body[..i])),
            Err(_) => return Err(TextError::NoMemory),
        }
    }
    match reader.finish() {
        Some(element) => Ok(element),
        None => Err(TextError::Malformed(body.len() as u32)),
    }
}

/// The refusal after these octets.
fn refusal(mode: Mode, front: &[u8]) -> TextError
    requires short { length front.now < MAX_TEXT }
    ensures { result ≡ refusal_of mode (length front.now) (last_amp front.now) }
{
    if in_ref(mode) {
        return TextError::Entity(last_amp(front) as u32);
    }
    TextError::Malformed(front.len() as u32)
}

/// The place of the last `&`, or 0.
fn last_amp(octets: &[u8]) -> usize
    ensures value { result ≡ last_amp octets.now }
    ensures within { result ≤ length octets.now }
{
    let mut last = 0;
    for (i, octet) in octets.iter().enumerate() {
        if *octet == b'&' {
            last = i;
        }
    }
    last
}
