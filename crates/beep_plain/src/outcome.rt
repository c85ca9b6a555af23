//! The plain program that decides what a short text is (RFC 3080, section 6.4).
//!
//! A text that says no element is refused at the first octet after which no octets can follow. The
//! program looks for that octet as the definition puts it: it asks of one prefix after another
//! whether octets can follow it, and takes the answer from what `read_element` ensures.
ghost use Rattle.std.specs.Prelude.{◌≡◌, ℕ, ◌≤◌, true, false, length, IfOk};
ghost use Rattle.beep_text.specs.declared.limits.TheConstants.{MAX_TEXT};
ghost use Rattle.beep_text.specs.Tree.{Tree};
ghost use Rattle.beep_text.specs.Elements.{IsBody, IsAlive, Stops};
ghost use Rattle.beep_plain.specs.Decided.{Decides};

use beep_octets::NoMemory;
use beep_text::{Element, MAX_TEXT, TextError, read_element};
use std::alloc::Global;

/// What a text is. The places count octets from 0.
#[derive(Debug, Drop)]
pub enum Outcome {
    /// It says this element.
    Says(Element),
    /// No octets can follow those before this place, or the text ends too soon.
    Stops(usize),
    /// The same within a reference: the place of its `&`, and the place where the text stops.
    StopsInReference(usize, usize),
}

/// What the text is. It takes time in the square of the text's length.
pub fn decide(alloc: Global, text: &[u8]) -> Result<Outcome, NoMemory>
    requires short { length text.now ≤ MAX_TEXT }
    ensures { IfOk result (λ outcome. Decides text.now outcome) }
{
    match read_element(alloc, text) {
        Ok(element) => Ok(Outcome::Says(element)),
        Err(TextError::Malformed(_)) => Ok(Outcome::Stops(stop(alloc, text)?)),
        Err(TextError::Entity(from)) => Ok(Outcome::StopsInReference(
            from as usize,
            stop(alloc, text)?,
        )),
        Err(TextError::TooLong) => unreachable!(),
        Err(TextError::NoMemory) => Err(NoMemory),
    }
}

/// Where a text that says no element is refused.
fn stop(alloc: Global, text: &[u8]) -> Result<usize, NoMemory>
    requires short { length text.now ≤ MAX_TEXT }
    requires none { (e : Tree) → ¬ (IsBody text.now e) }
    ensures { IfOk result (λ q. Stops text.now q) }
{
    for at in 0..text.len() {
        if !is_alive(alloc, &text[..at + 1])? {
            return Ok(at);
        }
    }
    Ok(text.len())
}

/// Whether octets can follow.
fn is_alive(alloc: Global, text: &[u8]) -> Result<bool, NoMemory>
    requires short { length text.now ≤ MAX_TEXT }
    ensures alive { IfOk result (λ alive. alive ≡ true → IsAlive text.now) }
    ensures dead { IfOk result (λ alive. alive ≡ false → ¬ (IsAlive text.now)) }
{
    match read_element(alloc, text) {
        Ok(_) => Ok(true),
        Err(TextError::Malformed(at)) => Ok(at as usize == text.len()),
        Err(TextError::Entity(_)) => Ok(false),
        Err(TextError::TooLong) => unreachable!(),
        Err(TextError::NoMemory) => Err(NoMemory),
    }
}
