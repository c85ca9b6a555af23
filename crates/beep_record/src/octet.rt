//! How an octet is written in a record, and which octets may follow in the text of one.
ghost use Rattle.std.specs.Prelude.{◌≡◌, ◌<◌, ◌≤◌, [], ◌∷◌, ◌++◌, true, false, length, take, slice_index, IfSome, OnOk};
ghost use Rattle.beep_record.specs.Record.{is_plain, hex_digit, octet_text, octets_text};
ghost use Rattle.beep_record.specs.Machine.{are_plain, is_hex, digit_of, is_hexed, is_high};

use beep_octets::{NoMemory, Octets};

/// Whether the octet stands for itself.
pub(crate) fn is_plain(octet: u8) -> bool
    ensures { result ≡ is_plain octet }
{
    b' ' <= octet && octet <= b'~' && octet != b'\\'
}

/// How many octets are looked at together.
const BLOCK: usize = 16;

/// Whether each octet stands for itself. It looks at all of them, so that a block takes no longer
/// than an octet.
fn are_plain(octets: &[u8]) -> bool
    ensures { result ≡ are_plain octets.now }
{
    let mut all = true;
    for octet in octets {
        all = is_plain(*octet) && all;
    }
    all
}

/// How many octets stand at the front in blocks of which each octet stands for itself.
fn plain_blocks(octets: &[u8]) -> usize
    ensures within { result ≤ length octets.now }
    ensures plain { are_plain (take result octets.now) ≡ true }
{
    let mut at = 0;
    while BLOCK <= octets.len() - at && are_plain(&octets[at..at + BLOCK]) {
        at += BLOCK;
    }
    at
}

/// How many octets at the front stand for themselves.
pub(crate) fn plain_count(octets: &[u8]) -> usize
    ensures within { result ≤ length octets.now }
    ensures plain { are_plain (take result octets.now) ≡ true }
    ensures next { result < length octets.now
        → is_plain (slice_index octets.now result) ≡ false }
{
    for i in plain_blocks(octets)..octets.len() {
        if !is_plain(octets[i]) {
            return i;
        }
    }
    octets.len()
}

/// Whether the text of CR LF is at the front.
#[tactic(auto, unfolding(crate::specs::Record::octet_text))]
pub(crate) fn is_line_end(octets: &[u8]) -> bool
    ensures text { result ≡ true → take 4 octets.now ≡ octets_text (13 ∷ 10 ∷ []) }
    ensures within { result ≡ true → 4 ≤ length octets.now }
{
    matches!(octets, [b'\\', b'r', b'\\', b'n', ..])
}

/// The octet that a letter stands for, where its text is at the front.
#[tactic(auto, unfolding(crate::specs::Record::octet_text))]
pub(crate) fn lettered(octets: &[u8]) -> Option<u8>
    ensures text { IfSome result (λ octet. take 2 octets.now ≡ octet_text octet) }
    ensures within { IfSome result (λ _. 2 ≤ length octets.now) }
{
    match octets {
        [b'\\', b'r', ..] => Some(b'\r'),
        [b'\\', b'n', ..] => Some(b'\n'),
        [b'\\', b'\\', ..] => Some(b'\\'),
        _ => None,
    }
}

/// Whether the octet is a hexadecimal digit in lower case.
pub(crate) fn is_hex(octet: u8) -> bool
    ensures { result ≡ is_hex octet }
{
    (b'0' <= octet && octet <= b'9') || (b'a' <= octet && octet <= b'f')
}

/// What a hexadecimal digit stands for.
pub(crate) fn digit_of(octet: u8) -> u8
    ensures { result ≡ digit_of octet }
{
    if octet <= b'9' {
        octet.saturating_sub(b'0')
    } else {
        octet.saturating_sub(b'a' - 10)
    }
}

/// Whether an octet is written by two digits.
pub(crate) fn is_hexed(octet: u8) -> bool
    ensures { result ≡ is_hexed octet }
{
    (octet < b' ' && octet != b'\n' && octet != b'\r') || b'~' < octet
}

/// Whether this is the first digit of such an octet.
pub(crate) fn is_high(digit: u8) -> bool
    ensures { result ≡ is_high digit }
{
    digit < 2 || 7 <= digit
}

/// The digit of a number below 16.
fn hex_digit(n: u8) -> u8
    requires { n < 16 }
    ensures { result ≡ hex_digit n }
{
    if n < 10 { b'0' + n } else { b'a' - 10 + n }
}

/// Appends an octet as it is written.
#[tactic(auto, unfolding(crate::specs::Record::octet_text))]
pub(crate) fn put_octet(octet: u8, out: &mut Octets) -> Result<(), NoMemory>
    ensures { OnOk result (out.new.octets ≡ out.old.octets ++ octet_text octet) }
{
    if is_plain(octet) {
        return out.extend(&[octet]);
    }
    match octet {
        b'\r' => out.extend(b"\\r"),
        b'\n' => out.extend(b"\\n"),
        b'\\' => out.extend(b"\\\\"),
        _ => out.extend(&[b'\\', hex_digit(octet / 16), hex_digit(octet % 16)]),
    }
}
