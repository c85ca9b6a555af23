//! What a line wants, and how many lines got it.

use session_lines::Stop;

/// How many cases and answers there were, and how many of these were wrong.
#[derive(Clone, Copy, Debug)]
pub(crate) struct Counts {
    /// The number of the line in hand, from 1.
    pub(crate) line: u64,
    pub(crate) cases: u64,
    pub(crate) answers: u64,
    pub(crate) wrong: u64,
}

impl Counts {
    pub(crate) fn new() -> Counts {
        Counts {
            line: 0,
            cases: 0,
            answers: 0,
            wrong: 0,
        }
    }

    pub(crate) fn add_answer(&mut self, is_right: bool) {
        self.answers = self.answers.saturating_add(1);
        if !is_right {
            self.wrong = self.wrong.saturating_add(1);
        }
    }
}

/// An act, its number, and the answer that is wanted: `ok` where the line says none.
#[derive(Clone, Copy, Debug)]
pub(crate) struct Line<'l> {
    pub(crate) number: u64,
    pub(crate) act: &'l str,
    pub(crate) wanted: &'l str,
}

impl<'l> Line<'l> {
    pub(crate) fn of(line: &'l str, number: u64) -> Line<'l> {
        let (act, wanted) = match line.rsplit_once(" -> ") {
            Some(parts) => parts,
            None => (line, "ok"),
        };
        Line {
            number,
            act,
            wanted,
        }
    }
}

/// Whether the answer is the one that a line wants. Another one is printed.
pub(crate) fn is_right(rt: &impl Print, line: &Line<'_>, came: &str) -> Result<bool, Stop> {
    if came == line.wanted {
        return Ok(true);
    }
    let number = line.number;
    let act = line.act;
    let wanted = line.wanted;
    println!(rt; "line {number}: {act}: wanted {wanted}, came {came}")?;
    Ok(false)
}
