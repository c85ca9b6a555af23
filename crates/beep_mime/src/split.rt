//! Where the body of a message begins (RFC 3080, section 2.2).
ghost use Rattle.std.specs.Prelude.{◌≡◌, ◌<◌, ◌≤◌, ◌==◌, ◌&&◌, ◌||◌, false, [], ◌∷◌, length, take, drop, slice_index, MatchOption, IfSome};
ghost use Rattle.beep_mime.specs.Split.{lines_after, ends_in_cr, is_header_line, is_continuation, body_start, body_of};

/// The place in a payload where its body begins: after the MIME header, or 0 where there is none.
pub fn split_entity(payload: &[u8]) -> usize
    ensures value { result ≡ body_start payload.now }
    ensures within { result ≤ length payload.now }
{
    let mut at = 0;
    let mut within = false;
    while let Some(len) = first_line(&payload[at..]) {
        let (line, _) = payload[at..].split_at(len);
        if !precedes(line, within) {
            return if len == 2 { at + 2 } else { at };
        }
        at += len;
        within = true;
    }
    at
}

/// The body of a payload. It goes over the header.
pub fn body(payload: &[u8]) -> &[u8]
    ensures { result.now ≡ body_of payload.now }
{
    &payload[split_entity(payload)..]
}

/// Whether a line belongs to the header; within: one of its lines came before.
fn precedes(line: &[u8], within: bool) -> bool
    requires { 1 ≤ length line.now }
    ensures { result ≡ (is_header_line false line.now || (within && is_continuation line.now)) }
{
    is_header(line) || within && continues(line)
}

/// The octets of the first line, with its end.
fn first_line(bytes: &[u8]) -> Option<usize>
    ensures line { MatchOption result (lines_after [] bytes.now ≡ [])
        (λ len. lines_after [] bytes.now
        ≡ take len bytes.now ∷ lines_after [] (drop len bytes.now)) }
    ensures within { IfSome result (λ len. (2 ≤ len) × (len ≤ length bytes.now)) }
{
    for i in 0..bytes.len() {
        if ends_line(bytes, i) {
            return Some(i + 1);
        }
    }
    None
}

/// Whether a line ends with the octet at `i`.
fn ends_line(bytes: &[u8], i: usize) -> bool
    requires { i < length bytes.now }
    ensures { result ≡ (slice_index bytes.now i == 10 && ends_in_cr (take i bytes.now)) }
{
    bytes[i] == b'\n' && i > 0 && bytes[i - 1] == b'\r'
}

/// Whether a line begins with a name and a colon.
fn is_header(line: &[u8]) -> bool
    ensures { result ≡ is_header_line false line.now }
{
    let mut named = false;
    for octet in line {
        if *octet == b':' {
            return named;
        }
        if !(b'!'..=b'~').contains(octet) {
            return false;
        }
        named = true;
    }
    false
}

/// Whether a line continues one before it.
fn continues(line: &[u8]) -> bool
    requires { 1 ≤ length line.now }
    ensures { result ≡ is_continuation line.now }
{
    line[0] == b' ' || line[0] == b'\t'
}
