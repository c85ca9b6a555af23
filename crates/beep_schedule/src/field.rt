//! The numbers of a line, a space before each.
ghost use Rattle.std.specs.Prelude.{◌≡◌, ◌≤◌, ◌<◌, drop, length, IfSome};
ghost use Rattle.beep_schedule.specs.Reading.{number_in as number_of, word_length as word_length_of, place_of, field_of, numbers_of, first, second, third};

use itoa::Buffer;

/// A number, and how many octets it has with the space before it.
#[derive(Clone, Copy)]
pub(crate) struct Field {
    pub(crate) value: u32,
    pub(crate) len: usize,
}

/// At most three numbers.
#[derive(Clone, Copy)]
pub(crate) enum Numbers {
    Zero,
    One(u32),
    Two(u32, u32),
    Three(u32, u32, u32),
}

/// The numbers that are all of the text, where they are at most three.
pub(crate) fn numbers_in(text: &[u8]) -> Option<Numbers>
    ensures { result ≡ numbers_of text.now }
{
    if text.is_empty() {
        return Some(Numbers::Zero);
    }
    let one = field_in(text)?;
    let rest = &text[one.len..];
    if rest.is_empty() {
        return Some(Numbers::One(one.value));
    }
    after_one(one.value, rest)
}

fn after_one(one: u32, text: &[u8]) -> Option<Numbers>
    ensures { result ≡ second one text.now (field_of text.now) }
{
    let two = field_in(text)?;
    let rest = &text[two.len..];
    if rest.is_empty() {
        return Some(Numbers::Two(one, two.value));
    }
    after_two(one, two.value, rest)
}

fn after_two(one: u32, two: u32, text: &[u8]) -> Option<Numbers>
    ensures { result ≡ third one two text.now (field_of text.now) }
{
    let three = field_in(text)?;
    let rest = &text[three.len..];
    if rest.is_empty() {
        return Some(Numbers::Three(one, two, three.value));
    }
    None
}

/// The space and the number with which the text begins.
fn field_in(text: &[u8]) -> Option<Field>
    ensures field { result ≡ field_of text.now }
    ensures within { IfSome result (λ field. field.len ≤ length text.now) }
{
    match text {
        [b' ', rest @ ..] => {
            let len = word_length(rest);
            let value = number_in(&rest[..len])?;
            Some(Field {
                value,
                len: len + 1,
            })
        }
        _ => None,
    }
}

/// How many octets stand before the first space.
fn word_length(text: &[u8]) -> usize
    ensures length { result ≡ word_length_of text.now }
    ensures within { result ≤ length text.now }
{
    match place_of(b' ', text) {
        Some(at) => at,
        None => text.len(),
    }
}

/// The place of the first such octet.
pub(crate) fn place_of(octet: u8, text: &[u8]) -> Option<usize>
    ensures { result ≡ place_of octet text.now }
{
    text.iter().position(|other| *other == octet)
}

/// The number that a word says as it is printed, where it has 32 bits.
fn number_in(word: &[u8]) -> Option<u32>
    ensures { result ≡ number_of word.now }
{
    let Ok(text) = str::from_utf8(word) else {
        return None;
    };
    let Ok(number) = text.parse::<u32>() else {
        return None;
    };
    let mut buffer = Buffer::new();
    if buffer.format(number) != text {
        return None;
    }
    Some(number)
}
