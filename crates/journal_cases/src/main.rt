//! Cases of whole sessions as one end sees them: each line of the standard input is a case, its
//! last field what is to come of it (`crates/journal_cases/README.md`).
#![tactic(auto)]

mod judged;
mod lawful;
mod limits;
mod lives;
mod payload;
mod rules;
mod story;
mod text;

use beep_octets::Octets;
use case_lines::{Answers, Bad, Fields, try_cases};
use std::alloc::Global;
use std::io;

struct Cases;

fn main(rt: HostRuntime) -> io::Result<()> {
    try_cases::<Cases>(&rt)
}

impl Answers for Cases {
    fn answer(alloc: Global, fields: &mut Fields<'_>, out: &mut Octets) -> Result<(), Bad> {
        match fields.next()? {
            "rule" => rules::rule(alloc, false, fields, out),
            "tuned" => rules::rule(alloc, true, fields, out),
            "released" => rules::released(alloc, fields, out),
            "limit" => limits::limit(alloc, fields, out),
            "longest" => limits::longest(alloc, fields, out),
            "life" => lives::life(alloc, fields, out),
            "lives" => lives::limit(alloc, fields, out),
            "window" => lives::window(alloc, fields, out),
            "wide" => lives::wide(alloc, fields, out),
            "judge" => judged::judge(alloc, fields, out),
            "lawful" => lawful::lawful(alloc, fields, out),
            "whole" => lawful::whole(alloc, fields, out),
            "due" => lawful::due_seq(alloc, fields, out),
            "open" => lawful::open(alloc, fields, out),
            _ => Err(Bad::Field),
        }
    }
}
