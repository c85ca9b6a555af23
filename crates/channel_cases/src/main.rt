//! Cases of one channel by itself, and of two that drive each other: each line of the standard
//! input is a case, its last field what is to come of it (`crates/channel_cases/README.md`).
#![tactic(auto)]

mod alone;
mod give;
mod pair;

use beep_octets::Octets;
use case_lines::{Answers, Bad, Fields, try_cases};
use std::alloc::Global;
use std::io;

struct Cases;

fn main(rt: HostRuntime) -> io::Result<()> {
    try_cases::<Cases>(&rt)
}

impl Answers for Cases {
    fn answer(alloc: Global, fields: &mut Fields<'_>, out: &mut Octets) -> Result<(), Bad> {
        match fields.next()? {
            "judge" => alone::judge(alloc, fields, out),
            "acked" => alone::acked(alloc, fields, out),
            "fill" => alone::fill(alloc, fields, out),
            "play" => pair::play(alloc, fields, out),
            _ => Err(Bad::Field),
        }
    }
}
