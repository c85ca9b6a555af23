//! Names of texts, and texts that stand for longer ones.

use crate::stop::Stop;
use std::alloc::Global;
use std::fmt::Write;

/// A name and the text that it stands for.
#[derive(Drop)]
struct Named {
    name: String,
    text: String,
}

/// What names stand for.
#[derive(Drop)]
pub(crate) struct Macros {
    all: Vec<Named>,
}

impl Macros {
    pub(crate) fn new(alloc: Global) -> Macros {
        Macros {
            all: Vec::new(alloc),
        }
    }

    /// Takes a name and its text. A name that is known has this text after its own, after `; `.
    pub(crate) fn learn(&mut self, alloc: Global, name: &str, text: &str) -> Result<(), Stop> {
        for named in self.all.iter_mut() {
            if named.name.as_str() == name {
                named.text.push_str("; ")?;
                named.text.push_str(text)?;
                return Ok(());
            }
        }
        let name = String::from_str(alloc, name)?;
        let text = String::from_str(alloc, text)?;
        if self.all.push(Named { name, text }).is_err() {
            return Err(Stop::NoMemory);
        }
        Ok(())
    }

    /// The text that a name stands for.
    fn text_of(&self, name: &str) -> Result<&str, Stop> {
        for named in self.all.iter() {
            if named.name.as_str() == name {
                return Ok(named.text.as_str());
            }
        }
        Err(Stop::Line)
    }

    /// The text in which what stands between `{` and `}` is replaced by what it stands for.
    pub(crate) fn expanded(&self, alloc: Global, text: &str) -> Result<String, Stop> {
        let mut out = String::new(alloc);
        let mut is_plain = true;
        for part in text.split('{') {
            if is_plain {
                out.push_str(part)?;
                is_plain = false;
            } else {
                self.put_part(&mut out, part)?;
            }
        }
        Ok(out)
    }

    fn put_part(&self, out: &mut String, part: &str) -> Result<(), Stop> {
        let (inside, after) = part.split_once('}').ok_or(Stop::Line)?;
        self.put_inside(out, inside)?;
        out.push_str(after)?;
        Ok(())
    }

    fn put_inside(&self, out: &mut String, inside: &str) -> Result<(), Stop> {
        if let Some(rest) = inside.strip_prefix('*') {
            return put_copies(out, rest);
        }
        if let Some(rest) = inside.strip_prefix('#') {
            return put_numbered(out, rest);
        }
        out.push_str(self.text_of(inside)?)?;
        Ok(())
    }
}

/// Appends copies of a text, after the number of which it stands.
fn put_copies(out: &mut String, rest: &str) -> Result<(), Stop> {
    let (count, text) = number_before(rest)?;
    for _ in 0..count {
        out.push_str(text)?;
    }
    Ok(())
}

/// Appends copies of a text in which a number stands for each `#`. Before the text stand how many,
/// the first number, and by how much each is greater than the one before.
fn put_numbered(out: &mut String, rest: &str) -> Result<(), Stop> {
    let (count, rest) = number_before(rest)?;
    let (first, rest) = number_before(rest)?;
    let (step, text) = number_before(rest)?;
    let mut number = first;
    for _ in 0..count {
        put_with(out, text, number)?;
        number = number.wrapping_add(step);
    }
    Ok(())
}

fn put_with(out: &mut String, text: &str, number: u64) -> Result<(), Stop> {
    let mut is_first = true;
    for part in text.split('#') {
        if !is_first {
            write!(out, "{number}")?;
        }
        out.push_str(part)?;
        is_first = false;
    }
    Ok(())
}

/// A number, and what stands after the blank that follows it.
pub(crate) fn number_before(text: &str) -> Result<(u64, &str), Stop> {
    let (number, rest) = text.split_once(' ').ok_or(Stop::Line)?;
    Ok((number_of(number)?, rest))
}

pub(crate) fn number_of(text: &str) -> Result<u64, Stop> {
    match text.parse::<u64>() {
        Ok(number) => Ok(number),
        Err(_) => Err(Stop::Line),
    }
}
