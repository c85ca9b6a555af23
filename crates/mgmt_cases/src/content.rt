//! The content of a profile.

use crate::read::{put_error, put_only};
use beep_mgmt::{Encoding, Mgmt, Profile, read_mgmt};
use beep_octets::{NoMemory, Octets};
use case_lines::{Bad, Fields, begin, octets_of, put_word};
use std::alloc::Global;

/// What stands in a profile's tag after its URI, and its content: how it came, whether it is
/// readable, and the octets that are kept.
pub(crate) fn content(alloc: Global, fields: &mut Fields<'_>, out: &mut Octets) -> Result<(), Bad> {
    let attribute = octets_of(alloc, fields.next()?)?;
    let text = octets_of(alloc, fields.next()?)?;
    let payload = profile_of(alloc, attribute.as_slice(), text.as_slice())?;
    match read_mgmt(alloc, payload.as_slice()) {
        Ok(Mgmt::Chosen { profile }) => put_profile(&profile, out),
        Ok(_) => put_only("another message", out),
        Err(error) => put_error(error, out),
    }
}

fn profile_of(alloc: Global, attribute: &[u8], text: &[u8]) -> Result<Octets, NoMemory> {
    let mut out = Octets::new(alloc);
    out.extend(b"<profile uri='a' ")?;
    out.extend(attribute)?;
    out.extend(b">")?;
    out.extend(text)?;
    out.extend(b"</profile>")?;
    Ok(out)
}

fn put_profile(profile: &Profile, out: &mut Octets) -> Result<(), Bad> {
    put_only(word_of(profile.encoding), out)?;
    if !profile.readable {
        put_word("unreadable", out)?;
    }
    begin(out)?;
    out.extend(profile.content.as_slice())?;
    Ok(())
}

fn word_of(encoding: Encoding) -> &'static str {
    match encoding {
        Encoding::Plain => "plain",
        Encoding::Base64 => "base64",
        Encoding::Other => "other",
    }
}
