//! Cases of sources, sinks and links, and of what stands on them: each line of the standard input
//! is a case, its last field what is to come of it (`crates/wire_cases/README.md`).
#![tactic(auto)]

mod echo;
mod fails;
mod inputs;
mod links;
mod recorded;
mod sinks;
mod sources;
mod turns;

use beep_octets::Octets;
use case_lines::{Answers, Bad, Fields, try_cases};
use std::alloc::Global;
use std::io;

struct Cases;

fn main(rt: HostRuntime) -> io::Result<()> {
    try_cases::<Cases>(&rt)
}

impl Answers for Cases {
    fn answer(alloc: Global, fields: &mut Fields<'_>, out: &mut Octets) -> Result<(), Bad> {
        match fields.next()? {
            "fails" => fails::fails(alloc, fields, out),
            "sink" => sinks::sink(alloc, fields, out),
            "whole" => sinks::whole(alloc, fields, out),
            "null" => sinks::null(alloc, fields, out),
            "source" => sources::source(alloc, fields, out),
            "hear" => links::hear(alloc, fields, out),
            "links" => links::links(alloc, fields, out),
            "record" => recorded::record(alloc, fields, out),
            "turns" => turns::turns(alloc, fields, out),
            "lines" => inputs::lines(alloc, fields, out),
            "long" => inputs::long(alloc, fields, out),
            _ => Err(Bad::Field),
        }
    }
}
