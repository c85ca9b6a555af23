//! Cases of the requests of channel zero, what they are answered and which of them wait: each line
//! of the standard input is a case, its last field what is to come of it
//! (`crates/zero_cases/README.md`).
#![tactic(auto)]

mod decide;
mod standing;
mod waiting;

use beep_octets::Octets;
use case_lines::{Answers, Bad, Fields, try_cases};
use std::alloc::Global;
use std::io;

struct Cases;

fn main(rt: HostRuntime) -> io::Result<()> {
    try_cases::<Cases>(&rt)
}

impl Answers for Cases {
    fn answer(alloc: Global, fields: &mut Fields<'_>, out: &mut Octets) -> Result<(), Bad> {
        match fields.next()? {
            "decide" => decide::decided(alloc, fields, out),
            "asked" => waiting::asked(alloc, fields, out),
            "implied" => waiting::implied(alloc, out),
            _ => Err(Bad::Field),
        }
    }
}
