//! Numbers and codes, as attributes say and write them (RFC 3080, section 2.3.1).
ghost use Rattle.std.specs.Prelude.{◌≡◌, ◌+◌, ◌-◌, ◌^◌, ◌<◌, ◌≤◌, ◌&&◌, ◌==◌, Some, None, option_copied, length, slice_index, nat_le, if◌then◌else◌, IfOk, IfSome};
ghost use Rattle.std.specs.List.{list_all};
ghost use Rattle.std.specs.Fmt.{decimal};
ghost use Rattle.beep_chars.specs.Characters.{is_digit};
ghost use Rattle.beep_text.specs.Elements.{number_of};
ghost use Rattle.beep_mgmt.specs.declared.limits.TheConstants.{MAX_CODE, MAX_DIGITS};
ghost use Rattle.beep_mgmt.specs.Said.{number_said, number_or_zero, code_said};
ghost use Rattle.beep_mgmt.specs.Written.{code_digits};

use crate::limits::{CODE_DIGITS, MAX_DIGITS};
use beep_chars::Text;
use beep_octets::NoMemory;
use std::alloc::Global;

/// The number that an attribute says, where there is one.
pub(crate) fn number_said(text: Option<&Text>) -> Option<u32>
    ensures { result ≡ number_said (option_copied text.entry) }
{
    let text = text?;
    let number = digits_said(text)?;
    if text.len() == 0 || text.len() != 1 && text.get(0) == Some('0') {
        return None;
    }
    if number > u32::MAX as u64 {
        return None;
    }
    Some(number as u32)
}

/// The same, or 0 without the attribute.
pub(crate) fn number_or_zero(text: Option<&Text>) -> Option<u32>
    ensures { result ≡ number_or_zero (option_copied text.entry) }
{
    match text {
        Some(_) => number_said(text),
        None => Some(0),
    }
}

/// The code that an attribute says, where there is one.
pub(crate) fn code_said(text: Option<&Text>) -> Option<u16>
    ensures value { result ≡ code_said (option_copied text.entry) }
{
    let text = text?;
    if text.len() != CODE_DIGITS {
        return None;
    }
    let code = digits_said(text)?;
    Some(code as u16)
}

/// The number that at most `MAX_DIGITS` digits spell, where there is nothing else.
fn digits_said(text: &Text) -> Option<u64>
    ensures value { result ≡ (if nat_le (length text.now) MAX_DIGITS && list_all is_digit text.now
        then Some (number_of 10 text.now) else None) }
    ensures within { IfSome result (λ n. n < 10 ^ length text.now) }
{
    let len = text.len();
    if len > MAX_DIGITS {
        return None;
    }
    let mut number = 0;
    for i in 0..len {
        number = 10 * number + digit_at(text, i)?;
    }
    Some(number)
}

/// What the character at `i` stands for, where it is a digit.
fn digit_at(text: &Text, i: usize) -> Option<u64>
    requires { i < length text.now }
    ensures { result ≡ (if is_digit (slice_index text.now i)
        then Some (slice_index text.now i - 48) else None) }
{
    match text.get(i) {
        Some(c) if '0' <= c && c <= '9' => Some(c as u64 - 48),
        Some(_) | None => None,
    }
}

/// A number in decimal.
pub(crate) fn decimal_text(alloc: Global, number: u32) -> Result<Text, NoMemory>
    ensures { IfOk result (λ text. text ≡ decimal number) }
{
    if number < 10 {
        return digit_text(alloc, number);
    }
    let mut text = decimal_text(alloc, number / 10)?;
    text.push(digit(number % 10))?;
    Ok(text)
}

fn digit_text(alloc: Global, number: u32) -> Result<Text, NoMemory>
    requires { number < 10 }
    ensures { IfOk result (λ text. text ≡ decimal number) }
{
    let mut text = Text::new(alloc);
    text.push(digit(number))?;
    Ok(text)
}

/// The three digits of a code.
pub(crate) fn code_text(alloc: Global, code: u16) -> Result<Text, NoMemory>
    requires { code ≤ MAX_CODE }
    ensures { IfOk result (λ text. text ≡ code_digits code) }
{
    let mut text = Text::new(alloc);
    text.push(digit(code as u32 / 100))?;
    text.push(digit(code as u32 / 10 % 10))?;
    text.push(digit(code as u32 % 10))?;
    Ok(text)
}

/// The digit of a number below ten.
fn digit(number: u32) -> char
    requires { number < 10 }
    ensures { result ≡ 48 + number }
{
    (b'0' + number as u8) as char
}
