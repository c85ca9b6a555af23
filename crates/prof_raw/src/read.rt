//! The entries of a body (RFC 3195, section 3).
ghost use Rattle.std.specs.Prelude.{◌≡◌, ◌+◌, ◌<◌, ◌≤◌, false, [], ◌∷◌, length, drop, MatchOption, IfOk, IfSome, IfNone};
ghost use Rattle.std.specs.List.{slice_range};
ghost use Rattle.prof_raw.specs.Entries.{entries_of};
ghost use Rattle.prof_raw.specs.Walk.{begins_with_end, piece_len};

use crate::list::Entries;
use beep_octets::NoMemory;
use memchr::memchr;
use std::alloc::Global;

/// Where an entry stands in a body: from its first octet to the place after its last.
#[derive(Clone, Copy, Debug, PartialEq, Eq)]
pub struct Place {
    /// The place of its first octet.
    pub start: usize,
    /// The place after its last octet.
    pub end: usize,
}

/// The entries of a body, in their order.
pub fn entries(alloc: Global, body: &[u8]) -> Result<Entries, NoMemory>
    ensures { IfOk result (λ list. list ≡ entries_of body.now) }
{
    let mut list = Entries::new(alloc);
    let mut at = 0;
    while let Some(place) = next_entry(body, at) {
        list.push(&body[place.start..place.end])?;
        at = place.end;
    }
    Ok(list)
}

/// The first entry of what stands in a body from `at` on. The next one is looked for from its end
/// on, so that a body is gone over once, in place.
pub fn next_entry(body: &[u8], at: usize) -> Option<Place>
    requires within { at ≤ length body.now }
    ensures entry { MatchOption result (entries_of (drop at body.now) ≡ [])
        (λ p. entries_of (drop at body.now)
        ≡ slice_range body.now p.start p.end ∷ entries_of (drop p.end body.now)) }
    ensures place { IfSome result
        (λ p. (at ≤ p.start) × (p.start < p.end) × (p.end ≤ length body.now)) }
{
    let start = after_ends(body, at);
    if start == body.len() {
        return None;
    }
    let end = piece_end(body, start);
    Some(Place { start, end })
}

/// The place after the line ends that stand from `from` on.
fn after_ends(body: &[u8], from: usize) -> usize
    requires { from ≤ length body.now }
    ensures same { entries_of (drop result body.now) ≡ entries_of (drop from body.now) }
    ensures place { (from ≤ result) × (result ≤ length body.now) }
    ensures none { begins_with_end (drop result body.now) ≡ false }
{
    let mut at = from;
    while is_line_end(body, at) {
        at += 2;
    }
    at
}

/// The place of the first line end from `from` on, or the body's end.
fn piece_end(body: &[u8], from: usize) -> usize
    requires { from ≤ length body.now }
    ensures { result ≡ from + piece_len (drop from body.now) }
{
    let mut at = from;
    while let Some(place) = next_cr(body, at) {
        if is_line_end(body, place) {
            return place;
        }
        at = place + 1;
    }
    body.len()
}

/// The first place of a CR from a place on.
fn next_cr(body: &[u8], from: usize) -> Option<usize>
    requires { from ≤ length body.now }
    ensures some { IfSome result (λ place. (from ≤ place) × (place < length body.now)
        × (from + piece_len (drop from body.now) ≡ place + piece_len (drop place body.now))) }
    ensures none { IfNone result (from + piece_len (drop from body.now) ≡ length body.now) }
{
    match memchr(b'\r', &body[from..]) {
        Some(count) => Some(from + count),
        None => None,
    }
}

/// Whether CR LF stands at `at`.
pub(crate) fn is_line_end(body: &[u8], at: usize) -> bool
    requires { at ≤ length body.now }
    ensures { result ≡ begins_with_end (drop at body.now) }
{
    if body.len() - at < 2 {
        return false;
    }
    body[at] == b'\r' && body[at + 1] == b'\n'
}
