//! Finding what the octets of a feed lead to: one place in a frame after another.
ghost use Rattle.std.specs.Prelude.{◌≡◌, ◌≢◌, ℕ, ◌<◌, ◌≤◌, true, Option, List, take, length, slice_index};
ghost use Rattle.beep_frame.specs.Line.{at_line, IsTurn};
ghost use Rattle.beep_frame.specs.Reading.{run, At, TakesLine};
ghost use Rattle.beep_frame.specs.Finding.{is_place, Finds};
ghost use Rattle.beep_frame.specs.declared.head.Head.{Head as header_type};
ghost use Rattle.beep_frame.specs.declared.line.Line.{Line as line_type};

use crate::head::Head;
use crate::line::Line;
use crate::seq::Seq;
use crate::whole::whole_header;

/// Where in a frame the next octet stands.
#[derive(Clone, Copy, Debug, PartialEq, Eq)]
pub(crate) enum Place {
    /// In a line, or before its first octet.
    Line,
    /// In a payload of which so many octets are left, at least one.
    Payload(u32),
    /// In a trailer of which so many octets came, at most four.
    Trailer(usize),
}

/// What the octets of a feed lead to.
#[derive(Clone, Copy, Debug, PartialEq, Eq)]
pub(crate) enum Found {
    /// All octets were used, and no line and no data frame has ended.
    More,
    /// The last octet used is the LF of this header.
    Head(Head),
    /// The last octet used is the LF of a trailer, which ends a data frame.
    Frame,
    /// The last octet used is the LF of this SEQ.
    Seq(Seq),
    /// The last octet used can't stand there in a line.
    BadLine,
    /// The last octet used can't stand there in a trailer.
    BadTrailer,
}

/// What ends a data frame.
static TRAILER: [u8; 5] = *b"END\r\n";

/// Takes octets up to the next thing found.
pub(crate) fn find(place: &mut Place, line: &mut Line, bytes: &[u8]) -> (usize, Found)
    requires { is_place place.old ≡ true }
    ensures within { result.0 ≤ length bytes.now }
    ensures progress { 0 < length bytes.now → 0 < result.0 }
    ensures place { is_place place.new ≡ true }
    ensures found { (rest : List ℕ) (known : Option header_type)
        → At place.old line.old rest known
        → Finds result.1 place.new line.new rest known bytes.now result.0 }
{
    match *place {
        Place::Line => find_line(line, bytes),
        Place::Payload(left) => find_payload(place, left, bytes),
        Place::Trailer(at) => find_trailer(place, at, bytes),
    }
}

/// Goes on in a line. A header that has come whole is read at once.
fn find_line(line: &mut Line, bytes: &[u8]) -> (usize, Found)
    ensures within { result.0 ≤ length bytes.now }
    ensures progress { 0 < length bytes.now → 0 < result.0 }
    ensures found { (rest : List ℕ) (known : Option header_type)
        → At Place.Line line.old rest known
        → Finds result.1 Place.Line line.new rest known bytes.now result.0 }
{
    if line.is_at_start() {
        if let Some((head, rest)) = whole_header(bytes) {
            return (bytes.len() - rest.len(), Found::Head(head));
        }
    }
    read_line(line, bytes)
}

/// Takes octets up to the line's end, or all of them.
fn read_line(line: &mut Line, bytes: &[u8]) -> (usize, Found)
    ensures within { result.0 ≤ length bytes.now }
    ensures turn { IsTurn result.1 line.new (run (at_line line.old) (take result.0 bytes.now)) }
    ensures used { TakesLine result.1 line.old bytes.now result.0 }
{
    for (i, byte) in bytes.iter().enumerate() {
        let found = line.turn(*byte);
        let Found::More = found else {
            return (i + 1, found);
        };
    }
    (bytes.len(), Found::More)
}

/// Goes on in a payload of which `left` octets are left. It looks at none of them.
fn find_payload(place: &mut Place, left: u32, bytes: &[u8]) -> (usize, Found)
    requires { 0 < left }
    ensures within { result.0 ≤ length bytes.now }
    ensures progress { 0 < length bytes.now → 0 < result.0 }
    ensures place { is_place place.old ≡ true → is_place place.new ≡ true }
    ensures found { (rest : List ℕ) (known : Option header_type) (line : line_type)
        → At (Place.Payload left) line rest known
        → Finds result.1 place.new line rest known bytes.now result.0 }
{
    let count = bytes.len();
    if (count as u64) < u64::from(left) {
        *place = Place::Payload(left - count as u32);
        return (count, Found::More);
    }
    let left = left as usize;
    let (count, found) = find_trailer(place, 0, &bytes[left..]);
    (left + count, found)
}

/// Goes on in a trailer of which `at` octets came.
fn find_trailer(place: &mut Place, at: usize, bytes: &[u8]) -> (usize, Found)
    requires { at < 5 }
    ensures within { result.0 ≤ length bytes.now }
    ensures progress { 0 < length bytes.now → 0 < result.0 }
    ensures place { is_place place.old ≡ true → is_place place.new ≡ true }
    ensures found { (rest : List ℕ) (known : Option header_type) (line : line_type)
        → At (Place.Trailer at) line rest known
        → Finds result.1 place.new line rest known bytes.now result.0 }
{
    if let (0, [b'E', b'N', b'D', b'\r', b'\n', ..]) = (at, bytes) {
        return (TRAILER.len(), Found::Frame);
    }
    let count = matched(&TRAILER[at..], bytes);
    if at + count == TRAILER.len() {
        return (count, Found::Frame);
    }
    if count == bytes.len() {
        *place = Place::Trailer(at + count);
        return (count, Found::More);
    }
    (count + 1, Found::BadTrailer)
}

/// How many octets stand in both, from the front.
fn matched(expected: &[u8], bytes: &[u8]) -> usize
    ensures expected { result ≤ length expected.now }
    ensures bytes { result ≤ length bytes.now }
    ensures same { take result bytes.now ≡ take result expected.now }
    ensures other { result < length expected.now → result < length bytes.now
        → slice_index bytes.now result ≢ slice_index expected.now result }
{
    for (i, byte) in bytes.iter().enumerate() {
        if i >= expected.len() || *byte != expected[i] {
            return i;
        }
    }
    bytes.len()
}
