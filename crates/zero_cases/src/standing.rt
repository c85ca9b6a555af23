//! What stands at an end as a request comes.

use beep_chars::Text;
use beep_decide::{Offer, Standing};
use beep_journal::Role;
use case_lines::{Bad, number_of};
use std::alloc::{AllocError, Global};

/// What a text says, with `; ` between each two: `live N`, `starting N`, `closing N`, `leaving`,
/// `many N`, so many live channels from 5 on, or `initiator`. `-` is a new listener.
pub(crate) fn standing_of(alloc: Global, text: &str) -> Result<Standing, Bad> {
    let mut standing = new_standing(alloc)?;
    add_all(&mut standing, text)?;
    Ok(standing)
}

fn add_all(standing: &mut Standing, text: &str) -> Result<(), Bad> {
    if text != "-" {
        for part in text.split("; ") {
            add(standing, part)?;
        }
    }
    Ok(())
}

/// A listener that offers `urn:x` and, as tuning, `urn:t`.
fn new_standing(alloc: Global) -> Result<Standing, Bad> {
    Ok(Standing {
        role: Role::Listener,
        offers: offers(alloc)?,
        live: Vec::new(alloc),
        starting: Vec::new(alloc),
        closing: Vec::new(alloc),
        leaving: false,
    })
}

fn offers(alloc: Global) -> Result<Vec<Offer>, Bad> {
    let mut offers = Vec::new(alloc);
    push_offer(&mut offers, Text::of(alloc, "urn:x")?, false)?;
    push_offer(&mut offers, Text::of(alloc, "urn:t")?, true)?;
    Ok(offers)
}

fn push_offer(offers: &mut Vec<Offer>, uri: Text, tuning: bool) -> Result<(), AllocError> {
    offers.push(Offer { uri, tuning })?;
    Ok(())
}

fn add(standing: &mut Standing, part: &str) -> Result<(), Bad> {
    match part {
        "leaving" => standing.leaving = true,
        "initiator" => standing.role = Role::Initiator,
        _ => add_number(standing, part)?,
    }
    Ok(())
}

fn add_number(standing: &mut Standing, part: &str) -> Result<(), Bad> {
    let Some((word, number)) = part.split_once(' ') else {
        return Err(Bad::Field);
    };
    let number = number_of(number)?;
    match word {
        "live" => push(&mut standing.live, number),
        "starting" => push(&mut standing.starting, number),
        "closing" => push(&mut standing.closing, number),
        "many" => push_many(&mut standing.live, number),
        _ => Err(Bad::Field),
    }
}

fn push(numbers: &mut Vec<u32>, number: u32) -> Result<(), Bad> {
    match numbers.push(number) {
        Ok(()) => Ok(()),
        Err(_) => Err(Bad::NoMemory),
    }
}

fn push_many(numbers: &mut Vec<u32>, count: u32) -> Result<(), Bad> {
    for i in 0..count {
        push(numbers, i.wrapping_mul(2).wrapping_add(5))?;
    }
    Ok(())
}
