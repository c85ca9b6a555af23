//! The numbers of octets on the wire.

use beep_octets::Octets;
use beep_seq::SeqNo;
use case_lines::{Bad, Fields, put_number};

/// A number, and how many octets further on the answer is.
pub(crate) fn plus(fields: &mut Fields<'_>, out: &mut Octets) -> Result<(), Bad> {
    let number = SeqNo::new(fields.number()?);
    let count = fields.number()?;
    put_number(number.plus(count).get() as u64, out)?;
    Ok(())
}

/// A number and another: how many octets further on the first is.
pub(crate) fn minus(fields: &mut Fields<'_>, out: &mut Octets) -> Result<(), Bad> {
    let number = SeqNo::new(fields.number()?);
    let other = SeqNo::new(fields.number()?);
    put_number(number.minus(other) as u64, out)?;
    Ok(())
}
