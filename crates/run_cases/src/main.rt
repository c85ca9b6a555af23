//! Runs the cases on its standard input, each by the one call of the program `beep` over a source,
//! a sink and links in memory, and prints which came out otherwise than they say.
#![tactic(auto)]

mod case;
mod judge;
mod lines;
mod macros;
mod reader;
mod records;
mod run;
mod spelling;
mod stop;
mod tally;

use crate::case::Case;
use crate::macros::Macros;
use crate::stop::Stop;
use crate::tally::Tally;
use std::alloc::Global;
use std::process::ExitCode;

/// What is known after so many lines: what names stand for, the case that they have begun, and what
/// came out of those before it.
#[derive(Drop)]
struct Book {
    lines: u64,
    macros: Macros,
    case: Case,
    tally: Tally,
}

fn main(rt: HostRuntime) -> ExitCode {
    match run_all(&rt) {
        Ok(0) => ExitCode::from(0),
        _ => ExitCode::from(1),
    }
}

/// Runs all cases, and answers how many runs came out otherwise.
fn run_all(rt: &HostRuntime) -> Result<u64, Stop> {
    let mut book = Book::new(rt.alloc());
    for line in rt.lines(rt.alloc()) {
        let line = line?;
        book.take(rt, line.as_str())?;
    }
    book.end_case(rt)?;
    report(rt, book.tally.runs, book.tally.wrong)?;
    Ok(book.tally.wrong)
}

fn report(rt: &HostRuntime, runs: u64, wrong: u64) -> Result<(), Stop> {
    println!(rt; "{runs} runs, {wrong} wrong")?;
    Ok(())
}

impl Book {
    fn new(alloc: Global) -> Book {
        Book {
            lines: 0,
            macros: Macros::new(alloc),
            case: Case::new(alloc),
            tally: Tally::new(),
        }
    }

    /// Takes the next line, and says where it isn't understood.
    fn take(&mut self, rt: &HostRuntime, line: &str) -> Result<(), Stop> {
        self.lines = self.lines.saturating_add(1);
        if line.starts_with('#') {
            return Ok(());
        }
        if line.is_empty() {
            return self.end_case(rt);
        }
        let heard = self.hear(rt.alloc(), line);
        pass_on(rt, self.lines, heard)
    }

    /// Takes a line of a case, or a name with its text.
    fn hear(&mut self, alloc: Global, line: &str) -> Result<(), Stop> {
        let (word, rest) = line.split_once(' ').unwrap_or((line, ""));
        let text = self.macros.expanded(alloc, rest)?;
        if word == "let" {
            let (name, text) = text.split_once(' ').ok_or(Stop::Line)?;
            return self.macros.learn(alloc, name, text);
        }
        if self.case.at == 0 {
            self.case.at = self.lines;
        }
        self.case.hear(alloc, word, text.as_str())
    }

    /// Runs the case that has come, if one has, and begins another.
    fn end_case(&mut self, rt: &HostRuntime) -> Result<(), Stop> {
        if self.case.at == 0 {
            return Ok(());
        }
        if !self.case.is_run() {
            return pass_on(rt, self.case.at, Err(Stop::Line));
        }
        self.tally.try_case(rt, &self.case)?;
        self.case = Case::new(rt.alloc());
        Ok(())
    }
}

/// Hands on what came of a line, and prints its number where it isn't understood.
fn pass_on(rt: &HostRuntime, line: u64, heard: Result<(), Stop>) -> Result<(), Stop> {
    if let Err(Stop::Line) = heard {
        println!(rt; "line {line} isn't understood")?;
    }
    heard
}
