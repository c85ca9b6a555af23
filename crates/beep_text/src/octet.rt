//! What one octet does to a character, and the classes of characters (RFC 3080, section 6.4).
ghost use Rattle.std.specs.Prelude.{◌≡◌, ◌+◌, ◌*◌, ◌<◌, ◌≤◌};
ghost use Rattle.beep_octets.specs.Numbers.{numbers_8, numbers_32};
ghost use Rattle.beep_chars.specs.Characters.{is_space, is_allowed, is_name_start, is_name_char, is_digit};
ghost use Rattle.beep_text.specs.Elements.{is_hex_digit, digit_of};
ghost use Rattle.beep_text.specs.Machine.{letter_after, letters_taken, is_no_letter, allowed_taken, first_taken, named_taken, digit_taken, is_digit_in, taken_after, char_taken, is_fresh, is_tail, grown, base_of, is_ref, in_ref};
ghost use Rattle.beep_text.specs.declared.mode.Part.{Part};
ghost use Rattle.beep_text.specs.declared.mode.Letters.{Letters};

use crate::mode::{Letters, Mode, Part, Taken};

// What a character of UTF-8 begins with and goes on with (RFC 3629, section 4).
const FIRST_TAIL: u8 = 0x80;

const FIRST_OF_TWO: u8 = 0xC2;

const FIRST_OF_THREE: u8 = 0xE0;

const FIRST_OF_FOUR: u8 = 0xF0;

const FIRST_OF_NONE: u8 = 0xF5;

const LEAD_OF_TWO: u8 = 0xC0;

const TAIL_VALUES: u64 = 64;

// The least numbers of characters that a text may have.
const TAB: u64 = b'\t' as u64;

const LF: u64 = b'\n' as u64;

const CR: u64 = b'\r' as u64;

const SPACE: u64 = b' ' as u64;

// The numbers of characters: all but the surrogates and two more.
const LAST_BEFORE_SURROGATES: u64 = 0xD7FF;

const FIRST_AFTER_SURROGATES: u64 = 0xE000;

const LAST_OF_THREE: u64 = 0xFFFD;

const LEAST_OF_FOUR: u64 = 0x10000;

const LAST: u64 = 0x10FFFF;

// What is left of these bounds before the last octet of a character, and before the last two.
const THREE_BY_ONE: u64 = 0x800 / 64;

const SURROGATES_BY_ONE: u64 = 0xD800 / 64;

const AFTER_SURROGATES_BY_ONE: u64 = 0xE000 / 64;

const END_BY_ONE: u64 = 0x110000 / 64;

const FOUR_BY_TWO: u64 = 0x10000 / 4096;

const END_BY_TWO: u64 = 0x110000 / 4096;

/// Whether the octet is white space.
pub(crate) fn is_space(octet: u8) -> bool
    ensures { result ≡ is_space octet }
{
    beep_chars::is_space(octet as char)
}

/// Whether a name may begin with the octet.
pub(crate) fn is_name_start(octet: u8) -> bool
    ensures { result ≡ is_name_start octet }
{
    beep_chars::is_name_start(octet as char)
}

/// Whether a name may go on with the octet.
pub(crate) fn is_name_char(octet: u8) -> bool
    ensures { result ≡ is_name_char octet }
{
    beep_chars::is_name_char(octet as char)
}

fn is_digit(octet: u8) -> bool
    ensures { result ≡ is_digit octet }
{
    b'0' <= octet && octet <= b'9'
}

fn is_hex_digit(octet: u8) -> bool
    ensures { result ≡ is_hex_digit octet }
{
    is_digit(octet) || (b'A' <= octet && octet <= b'F') || (b'a' <= octet && octet <= b'f')
}

fn is_allowed(number: u64) -> bool
    ensures { result ≡ is_allowed number }
{
    (number == TAB || number == LF || number == CR)
        || (SPACE <= number && number <= LAST_BEFORE_SURROGATES)
        || (FIRST_AFTER_SURROGATES <= number && number <= LAST_OF_THREE)
        || (LEAST_OF_FOUR <= number && number <= LAST)
}

/// A character of this number, where a text may have it.
fn allowed(number: u64) -> Taken
    ensures { result ≡ allowed_taken number }
{
    if !is_allowed(number) {
        return Taken::Dead;
    }
    match char::from_u32(number as u32) {
        Some(character) => Taken::Whole(character),
        None => Taken::Dead,
    }
}

/// Whether nothing of a character came.
pub(crate) fn is_fresh(part: Part) -> bool
    ensures { result ≡ is_fresh part }
{
    match part {
        Part::Fresh => true,
        Part::One(_) | Part::Two(_) | Part::Three(_) | Part::Name(_) | Part::Number(_, _, _) =>
            false,
    }
}

/// What an octet does to a character that may be a reference.
pub(crate) fn char_taken(part: Part, octet: u8) -> Taken
    ensures { result ≡ char_taken part octet }
{
    if is_fresh(part) && octet == b'&' {
        return Taken::More(Part::Name(Letters::Empty));
    }
    taken_after(part, octet)
}

/// What an octet does to a character.
pub(crate) fn taken_after(part: Part, octet: u8) -> Taken
    ensures { result ≡ taken_after part octet }
{
    match part {
        Part::Fresh => first_taken(octet),
        Part::One(value) => one_after(value, octet),
        Part::Two(value) => two_after(value, octet),
        Part::Three(value) => three_after(value, octet),
        Part::Name(letters) => name_after(letters, octet),
        Part::Number(hex, any, value) => number_after(hex, any, value, octet),
    }
}

fn first_taken(octet: u8) -> Taken
    ensures { result ≡ first_taken octet }
{
    if octet < FIRST_TAIL {
        return allowed(octet as u64);
    }
    if octet < FIRST_OF_TWO {
        return Taken::Dead;
    }
    if octet < FIRST_OF_THREE {
        return Taken::More(Part::One((octet - LEAD_OF_TWO) as u32));
    }
    if octet < FIRST_OF_FOUR {
        return Taken::More(Part::Two((octet - FIRST_OF_THREE) as u32));
    }
    if octet < FIRST_OF_NONE {
        return Taken::More(Part::Three((octet - FIRST_OF_FOUR) as u32));
    }
    Taken::Dead
}

fn is_tail(octet: u8) -> bool
    ensures { result ≡ is_tail octet }
{
    FIRST_TAIL <= octet && octet < LEAD_OF_TWO
}

fn grown(value: u32, octet: u8) -> u64
    ensures { result ≡ grown value octet }
{
    value as u64 * TAIL_VALUES + (octet.saturating_sub(FIRST_TAIL)) as u64
}

fn one_after(value: u32, octet: u8) -> Taken
    ensures { result ≡ taken_after (Part.One value) octet }
{
    if is_tail(octet) {
        return allowed(grown(value, octet));
    }
    Taken::Dead
}

fn two_after(value: u32, octet: u8) -> Taken
    ensures { result ≡ taken_after (Part.Two value) octet }
{
    let next = grown(value, octet);
    if !is_tail(octet) || next < THREE_BY_ONE || END_BY_ONE <= next {
        return Taken::Dead;
    }
    if next < SURROGATES_BY_ONE || AFTER_SURROGATES_BY_ONE <= next {
        return Taken::More(Part::One(next as u32));
    }
    Taken::Dead
}

fn three_after(value: u32, octet: u8) -> Taken
    ensures { result ≡ taken_after (Part.Three value) octet }
{
    let next = grown(value, octet);
    if is_tail(octet) && FOUR_BY_TWO <= next && next < END_BY_TWO {
        return Taken::More(Part::Two(next as u32));
    }
    Taken::Dead
}

fn name_after(letters: Letters, octet: u8) -> Taken
    ensures { result ≡ taken_after (Part.Name letters) octet }
{
    if octet == b';' {
        return letters_taken(letters);
    }
    if octet == b'#' && letters == Letters::Empty {
        return Taken::More(Part::Number(false, false, 0));
    }
    match letter_after(letters, octet) {
        Some(next) => Taken::More(Part::Name(next)),
        None => Taken::Dead,
    }
}

fn letters_taken(letters: Letters) -> Taken
    ensures { result ≡ letters_taken letters }
{
    match letters {
        Letters::Amp => Taken::Whole('&'),
        Letters::Apos => Taken::Whole('\''),
        Letters::Gt => Taken::Whole('>'),
        Letters::Lt => Taken::Whole('<'),
        Letters::Quot => Taken::Whole('"'),
        Letters::Empty | Letters::A | Letters::Am | Letters::Ap | Letters::Apo => Taken::Dead,
        Letters::G | Letters::L | Letters::Q | Letters::Qu | Letters::Quo => Taken::Dead,
    }
}

fn letter_after(letters: Letters, octet: u8) -> Option<Letters>
    ensures { result ≡ letter_after letters octet }
{
    match letters {
        Letters::Empty => first_letter(octet),
        Letters::A => {
            if octet == b'm' {
                return Some(Letters::Am);
            }
            (octet == b'p').then_some(Letters::Ap)
        }
        Letters::Am => (octet == b'p').then_some(Letters::Amp),
        Letters::Ap => (octet == b'o').then_some(Letters::Apo),
        Letters::Apo => (octet == b's').then_some(Letters::Apos),
        Letters::G => (octet == b't').then_some(Letters::Gt),
        Letters::L => (octet == b't').then_some(Letters::Lt),
        Letters::Q => (octet == b'u').then_some(Letters::Qu),
        Letters::Qu => (octet == b'o').then_some(Letters::Quo),
        Letters::Quo => (octet == b't').then_some(Letters::Quot),
        Letters::Amp | Letters::Apos | Letters::Gt | Letters::Lt | Letters::Quot => None,
    }
}

fn first_letter(octet: u8) -> Option<Letters>
    ensures { result ≡ letter_after Letters.Empty octet }
{
    match octet {
        b'a' => Some(Letters::A),
        b'g' => Some(Letters::G),
        b'l' => Some(Letters::L),
        b'q' => Some(Letters::Q),
        _ => None,
    }
}

fn is_digit_in(hex: bool, octet: u8) -> bool
    ensures { result ≡ is_digit_in hex octet }
{
    if hex {
        is_hex_digit(octet)
    } else {
        is_digit(octet)
    }
}

fn digit_of(octet: u8) -> u64
    ensures value { result ≡ digit_of octet }
    ensures within { result < numbers_8 }
{
    if octet <= b'9' {
        return octet.saturating_sub(b'0') as u64;
    }
    if octet <= b'F' {
        return octet.saturating_sub(b'A' - 10) as u64;
    }
    octet.saturating_sub(b'a' - 10) as u64
}

fn number_after(hex: bool, any: bool, value: u32, octet: u8) -> Taken
    ensures { result ≡ taken_after (Part.Number hex any value) octet }
{
    if octet == b';' {
        return if any {
            allowed(value as u64)
        } else {
            Taken::Dead
        };
    }
    if octet == b'x' && !hex && !any {
        return Taken::More(Part::Number(true, false, 0));
    }
    if is_digit_in(hex, octet) {
        return digit_taken(hex, base_times(hex, value) + digit_of(octet));
    }
    Taken::Dead
}

fn base_times(hex: bool, value: u32) -> u64
    ensures value { result ≡ base_of hex * value }
    ensures within { result ≤ 16 * numbers_32 }
{
    if hex {
        16 * value as u64
    } else {
        10 * value as u64
    }
}

fn digit_taken(hex: bool, number: u64) -> Taken
    ensures { result ≡ digit_taken hex number }
{
    if number <= LAST {
        return Taken::More(Part::Number(hex, true, number as u32));
    }
    Taken::Dead
}

/// Whether a part of a reference was read.
fn is_ref(part: Part) -> bool
    ensures { result ≡ is_ref part }
{
    match part {
        Part::Fresh | Part::One(_) | Part::Two(_) | Part::Three(_) => false,
        Part::Name(_) | Part::Number(_, _, _) => true,
    }
}

/// Whether the place stands in a reference.
pub(crate) fn in_ref(mode: Mode) -> bool
    ensures { result ≡ in_ref mode }
{
    match mode {
        Mode::Value(_, part) | Mode::Content(part) => is_ref(part),
        Mode::Lead | Mode::Begun | Mode::Naming | Mode::Tag(_) | Mode::Slash => false,
        Mode::Attr | Mode::Equals | Mode::Quote | Mode::Bang(_) | Mode::Section(_, _) => false,
        Mode::Closing(_) | Mode::Closed | Mode::Trail => false,
    }
}
