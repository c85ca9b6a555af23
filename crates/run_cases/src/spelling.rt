//! Octets as a record writes them (docs/FORMATS.md, "Records").

use crate::stop::Stop;
use beep_cmd::beep_octets::Octets;

/// Appends the octets that a text spells.
pub(crate) fn append_octets(out: &mut Octets, text: &str) -> Result<(), Stop> {
    let mut is_plain = true;
    for part in text.split('\\') {
        if is_plain {
            out.extend(part.as_bytes())?;
            is_plain = false;
        } else if part.is_empty() {
            out.extend(b"\\")?;
            is_plain = true;
        } else {
            append_spelled(out, part.as_bytes())?;
        }
    }
    Ok(())
}

/// Appends what stands after a `\`: an octet by its letter or its two digits, and then others.
fn append_spelled(out: &mut Octets, part: &[u8]) -> Result<(), Stop> {
    let (octet, rest) = match part {
        [b'r', rest @ ..] => (b'\r', rest),
        [b'n', rest @ ..] => (b'\n', rest),
        [high, low, rest @ ..] => (octet_of(digit(*high)?, digit(*low)?), rest),
        _ => return Err(Stop::Line),
    };
    out.extend(&[octet])?;
    out.extend(rest)?;
    Ok(())
}

fn octet_of(high: u8, low: u8) -> u8 {
    high.wrapping_mul(16).wrapping_add(low)
}

fn digit(octet: u8) -> Result<u8, Stop> {
    match octet {
        b'0'..=b'9' => Ok(octet.wrapping_sub(b'0')),
        b'a'..=b'f' => Ok(octet.wrapping_sub(b'a').wrapping_add(10)),
        _ => Err(Stop::Line),
    }
}

/// Appends octets by their spelling, and begins a new line after each LF.
pub(crate) fn spell(out: &mut String, octets: &[u8]) -> Result<(), Stop> {
    for octet in octets {
        spell_one(out, *octet)?;
    }
    Ok(())
}

fn spell_one(out: &mut String, octet: u8) -> Result<(), Stop> {
    match octet {
        b'\r' => out.push_str("\\r")?,
        b'\n' => out.push_str("\\n\n    ")?,
        b'\\' => out.push_str("\\\\")?,
        32..=126 => out.push(char::from(octet))?,
        _ => spell_by_digits(out, octet)?,
    }
    Ok(())
}

fn spell_by_digits(out: &mut String, octet: u8) -> Result<(), Stop> {
    out.push('\\')?;
    out.push(digit_of(octet / 16))?;
    out.push(digit_of(octet % 16))?;
    Ok(())
}

/// A hexadecimal digit.
fn digit_of(value: u8) -> char {
    char::from_digit(u32::from(value), 16).unwrap_or('?')
}
