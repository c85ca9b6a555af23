//! Cases of short logs: what an end was to do by them, and what it did. Each line of the standard
//! input is a case, its last field what is to come of it (`crates/log_cases/README.md`).
#![tactic(auto)]

mod frames;
mod logs;
mod messages;
mod plans;

use beep_octets::Octets;
use beep_script::lines;
use beep_shown::{Shown, is_idle, is_prompt};
use case_lines::{Answers, Bad, Fields, number_of, put_yes};
use messages::put_script;
use std::alloc::Global;
use std::io;

struct Cases;

fn main(rt: HostRuntime) -> io::Result<()> {
    try_cases_of(&rt)
}

fn try_cases_of(rt: &HostRuntime) -> io::Result<()> {
    case_lines::try_cases::<Cases>(rt)
}

impl Answers for Cases {
    fn answer(alloc: Global, fields: &mut Fields<'_>, out: &mut Octets) -> Result<(), Bad> {
        let question = fields.next()?;
        let plan = plans::plan_of(alloc, fields.next()?)?;
        let log = logs::log_of(alloc, fields.next()?)?;
        if let Some(channel) = question.strip_prefix("script.") {
            return put_script(alloc, &plan, &log, number_of(channel)?, out);
        }
        match question {
            "idle" => put_yes(is_idle(alloc, &plan, &log)?, out)?,
            "prompt" => put_yes(is_prompt(alloc, &plan, &log)?, out)?,
            "over" => {
                let session = Shown::of(alloc, &log)?;
                put_yes(session.is_over(alloc)?, out)?;
            }
            "lines" => {
                let session = Shown::of(alloc, &log)?;
                let text = lines(alloc, &plan, session.journal())?;
                put_lines(text.as_slice(), out)?;
            }
            _ => return Err(Bad::Field),
        }
        Ok(())
    }
}

/// Appends lines, each with `/` in place of its LF.
fn put_lines(text: &[u8], out: &mut Octets) -> Result<(), Bad> {
    for octet in text {
        let written = if *octet == b'\n' { b'/' } else { *octet };
        out.extend(&[written])?;
    }
    Ok(())
}
