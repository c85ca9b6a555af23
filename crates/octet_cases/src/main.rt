//! Cases of the small libraries over octets: each line of the standard input is a case, its last
//! field what is to come of it (`crates/octet_cases/README.md`).
#![tactic(auto)]

mod chars;
mod elements;
mod entries;
mod inbox;
mod made;
mod outbox;
mod schedule;
mod seq;
mod turns;
mod windows;

use beep_octets::Octets;
use case_lines::{Answers, Bad, Fields, try_cases};
use std::alloc::Global;
use std::io;

struct Cases;

fn main(rt: HostRuntime) -> io::Result<()> {
    try_cases::<Cases>(&rt)
}

impl Answers for Cases {
    fn answer(alloc: Global, fields: &mut Fields<'_>, out: &mut Octets) -> Result<(), Bad> {
        match fields.next()? {
            "plus" => seq::plus(fields, out),
            "minus" => seq::minus(fields, out),
            "recv" => windows::recv(fields, out),
            "send" => windows::send(fields, out),
            "inbox" => inbox::inbox(alloc, fields, out),
            "outbox" => outbox::outbox(alloc, fields, out),
            "turns" => turns::turns(alloc, fields, out),
            "chars" => chars::chars(alloc, fields, out),
            "mime" => chars::mime(alloc, fields, out),
            word => answer_more(alloc, word, fields, out),
        }
    }
}

fn answer_more(
    alloc: Global,
    word: &str,
    fields: &mut Fields<'_>,
    out: &mut Octets,
) -> Result<(), Bad> {
    match word {
        "text" => elements::text(alloc, fields, out),
        "long" => elements::long(alloc, fields, out),
        "attributes" => made::attributes(alloc, fields, out),
        "names" => made::names(alloc, fields, out),
        "entries" => entries::entries_in(alloc, fields, out),
        "body" => entries::body(alloc, fields, out),
        "entry" => entries::entry(alloc, fields, out),
        "schedule" => schedule::schedule(alloc, fields, out),
        "made" => schedule::made(alloc, fields, out),
        "line" => entries::line(alloc, fields, out),
        _ => Err(Bad::Field),
    }
}
