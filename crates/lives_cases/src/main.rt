//! Cases of the live channels of a session, and of what a session hears: each line of the standard
//! input is a case, its last field what is to come of it (`crates/lives_cases/README.md`).
#![tactic(auto)]

mod carry;
mod ear;
mod heard;
mod lives;

use beep_octets::Octets;
use case_lines::{Answers, Bad, Fields, try_cases};
use std::alloc::Global;
use std::io;

struct Cases;

fn main(rt: HostRuntime) -> io::Result<()> {
    try_cases::<Cases>(&rt)
}

impl Answers for Cases {
    fn answer(alloc: Global, fields: &mut Fields<'_>, out: &mut Octets) -> Result<(), Bad> {
        match fields.next()? {
            "lives" => lives::lives(alloc, fields, out),
            "hear" => heard::hear(alloc, fields, out),
            "octets" => heard::octets(alloc, fields, out),
            _ => Err(Bad::Field),
        }
    }
}
