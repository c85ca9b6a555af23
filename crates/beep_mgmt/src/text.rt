//! Texts that are made of others.
ghost use Rattle.std.specs.Prelude.{◌≡◌, Some, None, chars, IfOk, IsTrue, if◌then◌else◌};
ghost use Rattle.std.specs.List.{list_all};
ghost use Rattle.base64.specs.GeneralPurpose.{encode_of};
ghost use Rattle.base64.specs.Engines.{standard};
ghost use Rattle.beep_chars.specs.Characters.{is_allowed};
ghost use Rattle.beep_mgmt.specs.Written.{is_text};

use base64::engine::general_purpose::STANDARD;
use beep_chars::{Text, are_allowed};
use beep_octets::NoMemory;
use std::alloc::Global;

/// The octets as characters, where an element may hold them.
pub(crate) fn text_in(alloc: Global, octets: &[u8]) -> Result<Option<Text>, NoMemory>
    ensures { IfOk result (λ text. text
        ≡ (if is_text octets.now then Some (chars octets.now) else None)) }
{
    let Ok(characters) = std::str::from_utf8(octets) else {
        return Ok(None);
    };
    if !are_allowed(characters) {
        return Ok(None);
    }
    Ok(Some(Text::of(alloc, characters)?))
}

/// The octets in Base64.
pub(crate) fn base64_text(alloc: Global, octets: &[u8]) -> Result<Text, NoMemory>
    ensures value { IfOk result (λ text. text ≡ encode_of standard octets.now) }
    ensures allowed { IfOk result (λ text. IsTrue (list_all is_allowed text)) }
{
    let symbols = STANDARD.encode(alloc, octets)?;
    Text::of(alloc, symbols.as_str())
}
