//! Cases of the messages of channel zero: each line of the standard input is a case, its last field
//! what is to come of it (`crates/mgmt_cases/README.md`).
#![tactic(auto)]

mod content;
mod read;
mod write;

use beep_octets::Octets;
use case_lines::{Answers, Bad, Fields, try_cases};
use std::alloc::Global;
use std::io;

struct Cases;

fn main(rt: HostRuntime) -> io::Result<()> {
    try_cases::<Cases>(&rt)
}

impl Answers for Cases {
    fn answer(alloc: Global, fields: &mut Fields<'_>, out: &mut Octets) -> Result<(), Bad> {
        match fields.next()? {
            "read" => read::read(alloc, fields, out),
            "element" => read::element(alloc, fields, out),
            "whole" => write::whole(alloc, fields, out),
            "content" => content::content(alloc, fields, out),
            "profile" => write::profile(alloc, fields, out),
            "start" => write::start(alloc, out),
            "fault" => write::fault(alloc, out),
            _ => Err(Bad::Field),
        }
    }
}
