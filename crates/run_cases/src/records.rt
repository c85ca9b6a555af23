//! Records of a case, cut in several ways.

use crate::stop::Stop;
use beep_cmd::beep_octets::Octets;
use std::alloc::Global;

/// A record that an end of this name kept: its first line, and then these lines, or the same with
/// each octet that was read or written in a line of its own.
pub(crate) fn record_of(
    alloc: Global,
    role: &str,
    lines: &[u8],
    in_octets: bool,
) -> Result<Octets, Stop> {
    let Ok(text) = str::from_utf8(lines) else {
        return Err(Stop::Line);
    };
    let mut out = Octets::new(alloc);
    out.extend(b"beep-record 1 ")?;
    out.extend(role.as_bytes())?;
    out.extend(b"\n")?;
    for line in text.lines() {
        if in_octets && (line.starts_with("R ") || line.starts_with("W ")) {
            cut(&mut out, line.as_bytes())?;
        } else {
            put_line(&mut out, line)?;
        }
    }
    Ok(out)
}

fn put_line(out: &mut Octets, line: &str) -> Result<(), Stop> {
    out.extend(line.as_bytes())?;
    out.extend(b"\n")?;
    Ok(())
}

/// How much of an octet's spelling has come.
#[derive(Clone, Copy, PartialEq, Eq)]
enum Spelled {
    /// All of it.
    Whole,
    /// A `\`.
    Begun,
    /// A `\` and a digit.
    Digit,
}

/// Appends a line for each octet that this line spells.
fn cut(out: &mut Octets, line: &[u8]) -> Result<(), Stop> {
    let [letter, blank, spelling @ ..] = line else {
        return Err(Stop::Line);
    };
    let mut spelled = Spelled::Whole;
    for octet in spelling {
        if spelled == Spelled::Whole {
            out.extend(&[*letter, *blank])?;
        }
        spelled = after(spelled, *octet);
        put_octet(out, *octet, spelled)?;
    }
    Ok(())
}

fn put_octet(out: &mut Octets, octet: u8, spelled: Spelled) -> Result<(), Stop> {
    out.extend(&[octet])?;
    if spelled == Spelled::Whole {
        out.extend(b"\n")?;
    }
    Ok(())
}

fn after(spelled: Spelled, octet: u8) -> Spelled {
    match spelled {
        Spelled::Whole if octet == b'\\' => Spelled::Begun,
        Spelled::Begun if octet.is_ascii_digit() || matches!(octet, b'a'..=b'f') => Spelled::Digit,
        Spelled::Whole | Spelled::Begun | Spelled::Digit => Spelled::Whole,
    }
}
