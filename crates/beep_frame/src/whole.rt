//! A header or a payload that stands whole at the front of octets (RFC 3080, section 2.2.1).
ghost use Rattle.std.specs.Prelude.{◌≡◌, ◌<◌, ◌≤◌, ◌++◌, ◌∷◌, length, slice_index, IfSome};
ghost use Rattle.std.specs.Fmt.{decimal};
ghost use Rattle.beep_frame.specs.Frame.{IsHead, max_ansno_of};
ghost use Rattle.beep_frame.specs.Spelling.{answer_field, continuation, header, keyword as letters, line_end, trailer};

use crate::head::{Head, MAX_NUMBER};
use crate::kind::Kind;
use crate::line::SPACE;

/// A header, and what follows it, where one stands whole at the front of these octets.
pub(crate) fn whole_header(bytes: &[u8]) -> Option<(Head, &[u8])>
    ensures { IfSome result (λ it. IsHead it.0 × (bytes.now ≡ header it.0 ++ it.1.now)) }
{
    let (kind, rest) = keyword(bytes)?;
    let (channel, rest) = number(rest, MAX_NUMBER, SPACE)?;
    let (msgno, rest) = number(rest, MAX_NUMBER, SPACE)?;
    let (more, rest) = flag(rest)?;
    let (seqno, rest) = number(rest, u32::MAX, SPACE)?;
    let (size, ansno, rest) = sizes(kind, rest)?;
    let head = Head {
        kind,
        channel,
        msgno,
        more,
        seqno,
        size,
        ansno,
    };
    Some((head, rest))
}

/// The keyword of a data frame and a space.
fn keyword(bytes: &[u8]) -> Option<(Kind, &[u8])>
    ensures { IfSome result (λ found. bytes.now ≡ letters found.0 ++ 32 ∷ found.1.now) }
{
    match bytes {
        [b'A', b'N', b'S', b' ', rest @ ..] => Some((Kind::Ans, rest)),
        [b'M', b'S', b'G', b' ', rest @ ..] => Some((Kind::Msg, rest)),
        [b'R', b'P', b'Y', b' ', rest @ ..] => Some((Kind::Rpy, rest)),
        [b'N', b'U', b'L', b' ', rest @ ..] => Some((Kind::Nul, rest)),
        [b'E', b'R', b'R', b' ', rest @ ..] => Some((Kind::Err, rest)),
        _ => None,
    }
}

/// A number of at most `max`, and the octet that ends it.
#[inline(always)]
fn number(bytes: &[u8], max: u32, end: u8) -> Option<(u32, &[u8])>
    ensures { IfSome result (λ found. (found.0 ≤ max)
        × (bytes.now ≡ decimal found.0 ++ end ∷ found.1.now)) }
{
    if let Some(rest) = after(bytes, b'0') {
        return Some((0, after(rest, end)?));
    }
    match bytes {
        [b'1'..=b'9', ..] => positive(bytes, max, end),
        _ => None,
    }
}

/// The same where the first octet is a digit above zero. Most octets of a header are digits.
#[inline(always)]
fn positive(bytes: &[u8], max: u32, end: u8) -> Option<(u32, &[u8])>
    requires some { 0 < length bytes.now }
    requires first { (49 ≤ slice_index bytes.now 0) × (slice_index bytes.now 0 ≤ 57) }
    ensures { IfSome result (λ found. (found.0 ≤ max)
        × (bytes.now ≡ decimal found.0 ++ end ∷ found.1.now)) }
{
    let most = u64::from(max);
    let mut number = u64::from(bytes[0] - b'0');
    let mut at = 1;
    while at < bytes.len() && bytes[at].is_ascii_digit() && number <= most {
        number = number * 10 + u64::from(bytes[at] - b'0');
        at += 1;
    }
    if at < bytes.len() && bytes[at] == end && number <= most {
        return Some((number as u32, &bytes[at + 1..]));
    }
    None
}

/// Whether the message goes on, and a space.
fn flag(bytes: &[u8]) -> Option<(bool, &[u8])>
    ensures { IfSome result (λ found. bytes.now ≡ continuation found.0 ∷ 32 ∷ found.1.now) }
{
    match bytes {
        [b'.', b' ', rest @ ..] => Some((false, rest)),
        [b'*', b' ', rest @ ..] => Some((true, rest)),
        _ => None,
    }
}

/// The size, the answer number where the kind has one, and the end of the line.
#[inline(always)]
fn sizes(kind: Kind, bytes: &[u8]) -> Option<(u32, u32, &[u8])>
    ensures { IfSome result (λ found. (found.0 ≤ MAX_NUMBER) × (found.1 ≤ max_ansno_of kind)
        × (bytes.now ≡ decimal found.0 ++ answer_field kind found.1 ++ line_end ++ found.2.now)) }
{
    match kind {
        Kind::Ans => {
            let (size, rest) = number(bytes, MAX_NUMBER, SPACE)?;
            let (ansno, rest) = number(rest, MAX_NUMBER, b'\r')?;
            Some((size, ansno, after(rest, b'\n')?))
        }
        Kind::Msg | Kind::Rpy | Kind::Err | Kind::Nul => {
            let (size, rest) = number(bytes, MAX_NUMBER, b'\r')?;
            Some((size, 0, after(rest, b'\n')?))
        }
    }
}

/// A payload of this size, and what follows its trailer, where both stand whole at the front.
pub(crate) fn whole_payload(size: u32, bytes: &[u8]) -> Option<(&[u8], &[u8])>
    ensures { IfSome result (λ found. (length found.0.now ≡ size)
        × (bytes.now ≡ found.0.now ++ trailer ++ found.1.now)) }
{
    let (payload, after) = bytes.split_at_checked(size as usize)?;
    match after {
        [b'E', b'N', b'D', b'\r', b'\n', rest @ ..] => Some((payload, rest)),
        _ => None,
    }
}

/// What follows this octet, where it stands first.
fn after(bytes: &[u8], octet: u8) -> Option<&[u8]>
    ensures { IfSome result (λ rest. bytes.now ≡ octet ∷ rest.now) }
{
    match bytes {
        [first, rest @ ..] if *first == octet => Some(rest),
        _ => None,
    }
}
