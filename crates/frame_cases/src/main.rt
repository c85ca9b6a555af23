//! Cases of frames: each line of the standard input is a case, its last field what is to come of it
//! (`crates/frame_cases/README.md`).
#![tactic(auto)]

mod feed;
mod outline;
mod spell;
mod steps;

use beep_octets::Octets;
use case_lines::{Answers, Bad, Fields, try_cases};
use std::alloc::Global;
use std::io;

struct Cases;

fn main(rt: HostRuntime) -> io::Result<()> {
    try_cases::<Cases>(&rt)
}

impl Answers for Cases {
    fn answer(alloc: Global, fields: &mut Fields<'_>, out: &mut Octets) -> Result<(), Bad> {
        match fields.next()? {
            "feed" => feed::feed(alloc, fields, out),
            "whole" => feed::whole(alloc, fields, out),
            "octets" => feed::octets(alloc, fields, out),
            "outline" => outline::outline(alloc, fields, out),
            "spell" => spell::frame(alloc, fields, out),
            "line" => spell::line(fields, out),
            "seq" => spell::seq(fields, out),
            _ => Err(Bad::Field),
        }
    }
}
