//! Messages that have the very text that is written of the commonest values
//! (RFC 3080, section 2.3.1).
//!
//! Most messages are a start with one profile without content, that profile chosen, a close without
//! a note, or its ok. These are compared with the text that is written of them, which takes no
//! memory but that of the value; any other is read as a tree of elements.
ghost use Rattle.std.specs.Prelude.{◌≡◌, ◌<◌, ◌≤◌, ◌++◌, true, length, take, codes, IfOk, IfSome, IsTrue};
ghost use Rattle.std.specs.List.{list_all};
ghost use Rattle.std.specs.Fmt.{decimal};
ghost use Rattle.beep_octets.specs.Numbers.{numbers_32};
ghost use Rattle.beep_mgmt.specs.declared.limits.TheConstants.{MAX_CODE};
ghost use Rattle.beep_mgmt.specs.Form.{form_of, plain_profile};
ghost use Rattle.beep_mgmt.specs.Message.{Says};
ghost use Rattle.beep_mgmt.specs.Written.{code_digits, is_writable};
ghost use Rattle.beep_mgmt.specs.Canonical.{is_itself, bare, bare_profile, IsWritten};

use crate::mgmt::Mgmt;
use crate::profile::{Encoding, Profile};
use crate::profiles::Profiles;
use beep_chars::Text;
use beep_octets::{NoMemory, Octets};
use itoa::Buffer;
use std::alloc::Global;

/// What a message says that is one of these, in its text. None says nothing of a message.
pub(crate) fn canonical_said(alloc: Global, payload: &[u8]) -> Result<Option<Mgmt>, NoMemory>
    ensures value { IfOk result (λ said. IfSome said (λ m. Says payload.now (form_of m))) }
    ensures writable { IfOk result (λ said.
        IfSome said (λ m. IsTrue (is_writable (form_of m)))) }
{
    match after(payload, b"Content-Type: application/beep+xml\r\n\r\n") {
        Some(text) => element_said(alloc, text),
        None => Ok(None),
    }
}

/// What the text of an element says, with CR LF after it.
fn element_said(alloc: Global, text: &[u8]) -> Result<Option<Mgmt>, NoMemory>
    ensures { IfOk result (λ said. IfSome said (λ m. IsWritten text.now (form_of m))) }
{
    match text {
        [b'<', b's', ..] => start_said(alloc, text),
        [b'<', b'p', ..] => chosen_said(alloc, text),
        [b'<', b'c', ..] => Ok(close_said(alloc, text)),
        [b'<', b'o', ..] => Ok(okay_said(text)),
        _ => Ok(None),
    }
}

/// A start of one profile without content (RFC 3080, section 2.3.1.2).
fn start_said(alloc: Global, text: &[u8]) -> Result<Option<Mgmt>, NoMemory>
    ensures { IfOk result (λ said. IfSome said (λ m. IsWritten text.now (form_of m))) }
{
    let Some(rest) = after(text, b"<start number='") else {
        return Ok(None);
    };
    let Some((number, rest)) = number_front(rest) else {
        return Ok(None);
    };
    let Some(rest) = after(rest, b"'>") else {
        return Ok(None);
    };
    let Some((uri, rest)) = uri_front(rest) else {
        return Ok(None);
    };
    if !is(rest, b"</start>\r\n") {
        return Ok(None);
    }
    let mut profiles = Profiles::new(alloc);
    profiles.push(profile_of(alloc, uri)?)?;
    Ok(Some(Mgmt::Start {
        number,
        server: None,
        profiles,
    }))
}

/// The profile chosen, without content (RFC 3080, section 2.3.1.2).
fn chosen_said(alloc: Global, text: &[u8]) -> Result<Option<Mgmt>, NoMemory>
    ensures { IfOk result (λ said. IfSome said (λ m. IsWritten text.now (form_of m))) }
{
    let Some((uri, rest)) = uri_front(text) else {
        return Ok(None);
    };
    if !is(rest, b"\r\n") {
        return Ok(None);
    }
    let profile = profile_of(alloc, uri)?;
    Ok(Some(Mgmt::Chosen { profile }))
}

/// A close without a note (RFC 3080, section 2.3.1.3).
fn close_said(alloc: Global, text: &[u8]) -> Option<Mgmt>
    ensures { IfSome result (λ m. IsWritten text.now (form_of m)) }
{
    let Some(rest) = after(text, b"<close number='") else {
        return None;
    };
    let Some((number, rest)) = number_front(rest) else {
        return None;
    };
    let Some(rest) = after(rest, b"' code='") else {
        return None;
    };
    let Some((code, rest)) = code_front(rest) else {
        return None;
    };
    if !is(rest, b"' />\r\n") {
        return None;
    }
    Some(Mgmt::Close {
        number,
        code,
        note: Text::new(alloc),
    })
}

/// The ok (RFC 3080, section 2.3.1.4).
fn okay_said(text: &[u8]) -> Option<Mgmt>
    ensures { IfSome result (λ m. IsWritten text.now (form_of m)) }
{
    if is(text, b"<ok />\r\n") {
        Some(Mgmt::Okay)
    } else {
        None
    }
}

/// What comes after these octets, where they stand at the front.
fn after<'a>(octets: &'a [u8], front: &[u8]) -> Option<&'a [u8]>
    ensures { IfSome result (λ rest. octets.now ≡ front.now ++ rest.now) }
{
    if octets.starts_with(front) {
        Some(&octets[front.len()..])
    } else {
        None
    }
}

/// Whether the octets are these.
fn is(octets: &[u8], others: &[u8]) -> bool
    ensures { result ≡ true → octets.now ≡ others.now }
{
    octets == others
}

/// The number at the front as it is written, and what comes after it.
fn number_front(octets: &[u8]) -> Option<(u32, &[u8])>
    ensures { IfSome result (λ found. (octets.now ≡ decimal found.0 ++ found.1.now)
        × (found.0 < numbers_32)) }
{
    let number = digits_front(octets);
    match after(octets, Buffer::new().format(number).as_bytes()) {
        Some(rest) => Some((number, rest)),
        None => None,
    }
}

/// What the digits at the front stand for, where they are one number as it is written.
fn digits_front(octets: &[u8]) -> u32 {
    let mut number = 0u32;
    for octet in octets {
        if !octet.is_ascii_digit() {
            return number;
        }
        number = number.wrapping_mul(10).wrapping_add((octet - b'0') as u32);
    }
    number
}

/// The code at the front, three digits, and what comes after it.
fn code_front(octets: &[u8]) -> Option<(u16, &[u8])>
    ensures { IfSome result (λ found. (octets.now ≡ code_digits found.0 ++ found.1.now)
        × (found.0 ≤ MAX_CODE)) }
{
    match octets {
        [a, b, c, rest @ ..] => {
            if !(a.is_ascii_digit() && b.is_ascii_digit() && c.is_ascii_digit()) {
                return None;
            }
            let code = 100 * (a - b'0') as u16 + 10 * (b - b'0') as u16 + (c - b'0') as u16;
            Some((code, rest))
        }
        _ => None,
    }
}

/// The URI of the profile at the front that has no content, and what comes after the profile.
fn uri_front(octets: &[u8]) -> Option<(&[u8], &[u8])>
    ensures { IfSome result (λ found. (list_all is_itself found.0.now ≡ true)
        × (octets.now ≡ bare found.0.now ++ found.1.now)) }
{
    let Some(rest) = after(octets, b"<profile uri='") else {
        return None;
    };
    let (uri, rest) = rest.split_at(itself_count(rest));
    match after(rest, b"' />") {
        Some(rest) => Some((uri, rest)),
        None => None,
    }
}

/// How many octets at the front stand for themselves in a value.
fn itself_count(octets: &[u8]) -> usize
    ensures within { result ≤ length octets.now }
    ensures itself { list_all is_itself (take result octets.now) ≡ true }
{
    for i in 0..octets.len() {
        if !is_itself(octets[i]) {
            return i;
        }
    }
    octets.len()
}

/// Whether the octet stands for itself in a value.
fn is_itself(octet: u8) -> bool
    ensures { result ≡ is_itself octet }
{
    b' ' <= octet
        && octet <= b'~'
        && octet != b'&'
        && octet != b'\''
        && octet != b'<'
        && octet != b'>'
}

/// The profile of this URI without content.
fn profile_of(alloc: Global, uri: &[u8]) -> Result<Profile, NoMemory>
    requires itself { list_all is_itself uri.now ≡ true }
    ensures { IfOk result (λ p. plain_profile p ≡ bare_profile uri.now) }
{
    Ok(Profile {
        uri: text_of(alloc, uri)?,
        encoding: Encoding::Plain,
        content: Octets::new(alloc),
        readable: true,
    })
}

/// The octets as characters.
fn text_of(alloc: Global, octets: &[u8]) -> Result<Text, NoMemory>
    requires itself { list_all is_itself octets.now ≡ true }
    ensures { IfOk result (λ text. text ≡ octets.now) }
{
    match std::str::from_utf8(octets) {
        Ok(characters) => Text::of(alloc, characters),
        Err(_) => unreachable!(),
    }
}
