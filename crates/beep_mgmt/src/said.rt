//! The profile that an element says (RFC 3080, section 2.3.1.2).
ghost use Rattle.std.specs.Prelude.{◌≡◌, ◌++◌, option_copied, option_map, IfOk, OnOk, not};
ghost use Rattle.std.specs.List.{filter};
ghost use Rattle.std.specs.Result.{result_ok};
ghost use Rattle.base64.specs.GeneralPurpose.{decode_of};
ghost use Rattle.base64.specs.Engines.{standard};
ghost use Rattle.beep_octets.specs.Held.{Held};
ghost use Rattle.beep_chars.specs.Characters.{is_space};
ghost use Rattle.beep_text.specs.Listed.{items_listed};
ghost use Rattle.beep_mgmt.specs.Form.{plain_profile};
ghost use Rattle.beep_mgmt.specs.Said.{encoding_said, content_text, octets_said, profile_with, profile_said};
ghost use Rattle.beep_mgmt.specs.Parts.{part_text, octets_in};

use crate::limits::MAX_CONTENT;
use crate::profile::{Encoding, Profile};
use base64::DecodeAllocError;
use base64::engine::general_purpose::STANDARD;
use beep_chars::is_space;
use beep_octets::{NoMemory, Octets};
use beep_text::{Element, Item, Text, write_element};
use std::alloc::Global;

/// The profile that an element says, where it says one.
pub(crate) fn profile_said(alloc: Global, element: &Element) -> Result<Option<Profile>, NoMemory>
    ensures { IfOk result (λ p. option_map plain_profile p ≡ profile_said element.now) }
{
    if !element.name().is_word("profile") {
        return Ok(None);
    }
    let Some(uri) = element.value_named("uri") else {
        return Ok(None);
    };
    let uri = uri.copy()?;
    let encoding = encoding_said(element.value_named("encoding"));
    let mut text = Octets::new(alloc);
    put_content(element.items(), &mut text)?;
    let profile = profile_with(alloc, uri, encoding, text)?;
    Ok(Some(profile))
}

/// How the content is encoded.
fn encoding_said(name: Option<&Text>) -> Encoding
    ensures { result ≡ encoding_said (option_copied name.entry) }
{
    let Some(name) = name else {
        return Encoding::Plain;
    };
    if name.is_word("none") {
        return Encoding::Plain;
    }
    if name.is_word("base64") {
        return Encoding::Base64;
    }
    Encoding::Other
}

/// Appends the content as it is written.
fn put_content(items: &[Item], out: &mut Octets) -> Result<(), NoMemory>
    ensures { OnOk result (out.new.octets
        ≡ out.old.octets ++ content_text (items_listed items.now)) }
{
    for item in items {
        put_part(item, out)?;
    }
    Ok(())
}

fn put_part(item: &Item, out: &mut Octets) -> Result<(), NoMemory>
    ensures { OnOk result (out.new.octets ≡ out.old.octets ++ part_text item.now) }
{
    match item {
        Item::Chars(text) => out.extend(text.as_str().as_bytes()),
        Item::Child(element) => write_element(element, out),
    }
}

/// The profile of this content, where it is readable and no more than is kept.
fn profile_with(
    alloc: Global,
    uri: Text,
    encoding: Encoding,
    text: Octets,
) -> Result<Profile, NoMemory>
    ensures { IfOk result (λ p. plain_profile p
        ≡ profile_with uri encoding (octets_said encoding text.octets)) }
{
    match octets_said(alloc, encoding, text)? {
        Some(content) if content.len() <= MAX_CONTENT => Ok(Profile {
            uri,
            encoding,
            content,
            readable: true,
        }),
        Some(_) | None => Ok(Profile {
            uri,
            encoding,
            content: Octets::new(alloc),
            readable: false,
        }),
    }
}

/// The octets that a content stands for, where it stands for some.
fn octets_said(alloc: Global, encoding: Encoding, text: Octets) -> Result<Option<Octets>, NoMemory>
    ensures { IfOk result (λ o. octets_in o ≡ octets_said encoding text.octets) }
{
    match encoding {
        Encoding::Plain => Ok(Some(text)),
        Encoding::Base64 => decoded(alloc, &text),
        Encoding::Other => Ok(Some(text)),
    }
}

/// The octets that stand in Base64 between white space, where it is Base64.
fn decoded(alloc: Global, text: &Octets) -> Result<Option<Octets>, NoMemory>
    ensures { IfOk result (λ o. octets_in o ≡ octets_said Encoding.Base64 text.now.octets) }
{
    let symbols = symbols_in(alloc, text.as_slice())?;
    match STANDARD.decode(alloc, symbols.as_slice()) {
        Ok(bytes) => {
            let mut content = Octets::new(alloc);
            content.extend(&bytes)?;
            Ok(Some(content))
        }
        Err(DecodeAllocError::DecodeError(_)) => Ok(None),
        Err(DecodeAllocError::OutOfMemory) => Err(NoMemory),
    }
}

/// The octets that aren't white space.
fn symbols_in(alloc: Global, text: &[u8]) -> Result<Octets, NoMemory>
    ensures { IfOk result (λ o. o.octets ≡ filter (λ c. not (is_space c)) text.now) }
{
    let mut symbols = Octets::new(alloc);
    for octet in text {
        if !is_space(*octet as char) {
            symbols.extend(&[*octet])?;
        }
    }
    Ok(symbols)
}
