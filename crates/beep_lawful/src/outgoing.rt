//! What is due to go out, by plain look-back over a journal (RFC 3081, section 3.1).
//!
//! No session runs this: it is the definitions in code, slow, so that they can be tried on
//! examples.
ghost use Rattle.std.specs.Prelude.{◌≡◌, ◌-◌, IfOk};
ghost use Rattle.beep_history.specs.declared.journal.Side.{Side};
ghost use Rattle.beep_history.specs.Journal.{history_of};
ghost use Rattle.beep_history.specs.Marks.{passed_octets};
ghost use Rattle.beep_journal.specs.Life.{history};
ghost use Rattle.beep_lawful.specs.Due.{due, open_of};

use crate::seqs::opens_half;
use crate::windows::octets_open;
use beep_decide::is_greeted;
use beep_frame::Seq;
use beep_history::{JournalItem, Side, octets_passed};
use beep_journal::{history, is_there};
use beep_octets::NoMemory;
use beep_seq::wire_number;
use std::alloc::Global;

/// The octets of its content that a channel may send, of its live life.
pub fn open_octets(alloc: Global, number: u32, journal: &[JournalItem]) -> Result<u128, NoMemory>
    ensures { IfOk result (λ open_now. open_now ≡ open_of number (history_of journal.now)) }
{
    let past = history(alloc, number, journal)?;
    Ok(octets_open(&past))
}

/// The SEQ that is due for a channel, of an end with a window of this size, 4096 to 65536 octets,
/// by which so many of the octets that arrived in its live life weren't taken.
pub fn due(
    alloc: Global,
    size: u32,
    untaken: u128,
    number: u32,
    journal: &[JournalItem],
) -> Result<Option<Seq>, NoMemory>
    ensures { IfOk result (λ seq. seq ≡ due size
        (passed_octets Side.Received (history number (history_of journal.now)) - untaken)
        number (history_of journal.now)) }
{
    if !is_there(alloc, number, journal)? || !is_greeted(alloc, journal)? {
        return Ok(None);
    }
    let past = history(alloc, number, journal)?;
    let received = octets_passed(Side::Received, &past);
    let taken = received.saturating_sub(untaken);
    if !opens_half(size, taken, &past) {
        return Ok(None);
    }
    let left = u128::from(size).saturating_sub(received - taken);
    Ok(Some(Seq {
        channel: number,
        ackno: wire_number(received),
        window: left as u32,
    }))
}
