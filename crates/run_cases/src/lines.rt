//! What each line says of a case (README.md).

use crate::case::{Case, Given, Plan, Said, Times, Wanted};
use crate::macros::{number_before, number_of};
use crate::spelling::append_octets;
use crate::stop::Stop;
use beep_cmd::beep_octets::Octets;
use std::alloc::Global;

impl Case {
    /// Takes a line: its first word, and the text after it.
    pub(crate) fn hear(&mut self, alloc: Global, word: &str, text: &str) -> Result<(), Stop> {
        match word {
            "run" | "in" | "octets" | "link" => self.given.hear(alloc, word, text),
            "out" | "begun" | "status" | "times" | "reads" => self.wanted.hear(alloc, word, text),
            "said" => self.hear_said(alloc, text),
            "record" | "pieces" | "cuts" => self.plan.hear_way(word, text),
            _ => self.plan.hear(word, number_of(text)?),
        }
    }

    /// What is to be said on the latest link.
    fn hear_said(&mut self, alloc: Global, text: &str) -> Result<(), Stop> {
        let Some(last) = self.given.links.len().checked_sub(1) else {
            return Err(Stop::Line);
        };
        let link = u32::try_from(last).or(Err(Stop::Line))?;
        let octets = joined(alloc, text)?;
        match self.wanted.said.push(Said { link, octets }) {
            Ok(()) => Ok(()),
            Err(_) => Err(Stop::NoMemory),
        }
    }
}

/// The octets of a text, without the `|` in it.
fn joined(alloc: Global, text: &str) -> Result<Octets, Stop> {
    let mut octets = Octets::new(alloc);
    for part in text.split('|') {
        append_octets(&mut octets, part)?;
    }
    Ok(octets)
}

/// Appends a text to others.
fn put(texts: &mut Vec<String>, alloc: Global, text: &str) -> Result<(), Stop> {
    match texts.push(String::from_str(alloc, text)?) {
        Ok(()) => Ok(()),
        Err(_) => Err(Stop::NoMemory),
    }
}

/// Appends the lines of a text, between which `; ` stands.
fn append_lines(out: &mut Octets, text: &str) -> Result<(), Stop> {
    for line in text.split("; ") {
        out.extend(line.as_bytes())?;
        out.extend(b"\n")?;
    }
    Ok(())
}

impl Given {
    fn hear(&mut self, alloc: Global, word: &str, text: &str) -> Result<(), Stop> {
        match word {
            "run" => put(&mut self.words, alloc, text)?,
            "in" => append_lines(&mut self.input, text)?,
            "octets" => self.hear_octets(text)?,
            _ => put(&mut self.links, alloc, text)?,
        }
        Ok(())
    }

    /// Octets of the input, with `|` where a read ends.
    fn hear_octets(&mut self, text: &str) -> Result<(), Stop> {
        let mut is_first = true;
        for part in text.split('|') {
            if !is_first {
                self.end_read()?;
            }
            append_octets(&mut self.input, part)?;
            is_first = false;
        }
        Ok(())
    }

    /// A read ends with the octets so far.
    fn end_read(&mut self) -> Result<(), Stop> {
        let len = self.input.len();
        let size = len.saturating_sub(self.sized);
        self.sized = len;
        match self.sizes.push(size) {
            Ok(()) => Ok(()),
            Err(_) => Err(Stop::NoMemory),
        }
    }
}

impl Wanted {
    fn hear(&mut self, alloc: Global, word: &str, text: &str) -> Result<(), Stop> {
        match word {
            "out" => append_lines(&mut self.output, text)?,
            "begun" => append_octets(&mut self.output, text)?,
            "status" => self.status = number_of(text)?,
            "times" => self.hear_times(alloc, text)?,
            _ => self.reads = Some(number_of(text)?),
        }
        Ok(())
    }

    fn hear_times(&mut self, alloc: Global, text: &str) -> Result<(), Stop> {
        let (count, text) = number_before(text)?;
        let mut octets = Octets::new(alloc);
        append_octets(&mut octets, text)?;
        let times = Times {
            count,
            text: octets,
        };
        match self.times.push(times) {
            Ok(()) => Ok(()),
            Err(_) => Err(Stop::NoMemory),
        }
    }
}

impl Plan {
    fn hear_way(&mut self, word: &str, text: &str) -> Result<(), Stop> {
        if !text.is_empty() {
            return Err(Stop::Line);
        }
        match word {
            "record" => self.is_record = true,
            "pieces" => self.in_pieces = true,
            _ => self.in_cuts = true,
        }
        Ok(())
    }

    fn hear(&mut self, word: &str, number: u64) -> Result<(), Stop> {
        match word {
            "read_piece" => self.read_piece = number as usize,
            "write_piece" => self.write_piece = number as usize,
            "room" => self.room = number as usize,
            "fail_read" => self.failing_read = Some(number),
            "fail_write" => self.failing_write = Some(number),
            "fail_link" => self.failing_link = Some(number),
            _ => return Err(Stop::Line),
        }
        Ok(())
    }
}
