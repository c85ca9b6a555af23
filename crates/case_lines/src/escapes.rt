//! The octets that a field stands for.
ghost use Rattle.std.specs.Prelude.{◌<◌, IfOk};

use crate::bad::Bad;
use crate::fields::number_of;
use beep_octets::Octets;
use std::alloc::Global;

/// The octets that a field stands for. After a backslash `n`, `r`, `t` and `b` stand for LF, CR,
/// a tab and a backslash, `x41` for the octet of this number, `(3 ab)` for `ababab`, and `-` for
/// nothing.
pub fn octets_of(alloc: Global, field: &str) -> Result<Octets, Bad> {
    let mut out = Octets::new(alloc);
    let Some((plain, rest)) = field.split_once('\\') else {
        out.extend(field.as_bytes())?;
        return Ok(out);
    };
    out.extend(plain.as_bytes())?;
    for piece in rest.split('\\') {
        put_piece(piece, &mut out)?;
    }
    Ok(out)
}

/// Appends what stands after a backslash, up to the next one.
fn put_piece(piece: &str, out: &mut Octets) -> Result<(), Bad> {
    if let Some(text) = piece.strip_prefix('(') {
        return put_repeated(text, out);
    }
    match piece.as_bytes() {
        [b'n', rest @ ..] => put_after(b'\n', rest, out),
        [b'r', rest @ ..] => put_after(b'\r', rest, out),
        [b't', rest @ ..] => put_after(b'\t', rest, out),
        [b'b', rest @ ..] => put_after(b'\\', rest, out),
        [b'x', high, low, rest @ ..] => put_after(octet_of(*high, *low)?, rest, out),
        [b'-', rest @ ..] => put(rest, out),
        _ => Err(Bad::Field),
    }
}

fn put_after(octet: u8, rest: &[u8], out: &mut Octets) -> Result<(), Bad> {
    put(&[octet], out)?;
    put(rest, out)
}

fn put(octets: &[u8], out: &mut Octets) -> Result<(), Bad> {
    match out.extend(octets) {
        Ok(()) => Ok(()),
        Err(_) => Err(Bad::NoMemory),
    }
}

/// Appends `3 ab)c` as `abababc`.
fn put_repeated(text: &str, out: &mut Octets) -> Result<(), Bad> {
    let Some((inner, rest)) = text.split_once(')') else {
        return Err(Bad::Field);
    };
    let Some((count, part)) = inner.split_once(' ') else {
        return Err(Bad::Field);
    };
    for _ in 0..number_of(count)? {
        put(part.as_bytes(), out)?;
    }
    put(rest.as_bytes(), out)
}

fn octet_of(high: u8, low: u8) -> Result<u8, Bad> {
    Ok(digit_of(high)? * 16 + digit_of(low)?)
}

fn digit_of(letter: u8) -> Result<u8, Bad>
    ensures { IfOk result (λ digit. digit < 16) }
{
    match letter {
        b'0'..=b'9' => Ok(letter - b'0'),
        b'A'..=b'F' => Ok(letter - b'A' + 10),
        _ => Err(Bad::Field),
    }
}
