//! The calls that are to fail.

use beep_octets::Octets;
use beep_wires::Fails;
use case_lines::{Bad, Fields, number_of, put_number, put_word, put_yes};
use std::alloc::Global;

/// Numbers of calls, and what is asked of their list.
pub(crate) fn fails(alloc: Global, fields: &mut Fields<'_>, out: &mut Octets) -> Result<(), Bad> {
    let fails = fails_of(alloc, fields.next()?)?;
    for step in fields.next()?.split(' ') {
        answer(&fails, step, out)?;
    }
    Ok(())
}

/// The calls of these numbers, with a space between each two, or `none`.
pub(crate) fn fails_of(alloc: Global, field: &str) -> Result<Fails, Bad> {
    let mut fails = Fails::new(alloc);
    if field == "none" {
        return Ok(fails);
    }
    for number in field.split(' ') {
        fails.push(number_of(number)? as u64)?;
    }
    Ok(fails)
}

/// `len`: how many there are. `?7`: whether call 7 is to fail. `0`: the number at place 0.
fn answer(fails: &Fails, step: &str, out: &mut Octets) -> Result<(), Bad> {
    if step == "len" {
        put_number(fails.len() as u64, out)?;
    } else if let Some(call) = step.strip_prefix('?') {
        put_yes(fails.has(number_of(call)? as u64), out)?;
    } else {
        put_at(fails.get(number_of(step)? as usize), out)?;
    }
    Ok(())
}

fn put_at(number: Option<&u64>, out: &mut Octets) -> Result<(), Bad> {
    match number {
        Some(number) => put_number(*number, out)?,
        None => put_word("none", out)?,
    }
    Ok(())
}
