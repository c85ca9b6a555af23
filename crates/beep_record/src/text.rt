//! Replaying the text of a record. Each entry is judged as its line ends, and none is kept.
ghost use Rattle.std.specs.Prelude.{◌≡◌, ℕ, ◌<◌, ◌≤◌, ◌++◌, List, [], length, take, None, Some, IfOk, IfErr, OnOk};
ghost use Rattle.beep_octets.specs.Numbers.{numbers_128};
ghost use Rattle.beep_journal.specs.Log.{Entry, flat};
ghost use Rattle.beep_record.specs.Machine.{run, start};
ghost use Rattle.beep_record.specs.Reading.{state_of, IsNumbered};
ghost use Rattle.beep_record.specs.Replaying.{Follows};
ghost use Rattle.beep_record.specs.TextReplaying.{HasEntries, ReplaysOn};
ghost use Rattle.beep_record.specs.Verdicts.{Replays, ReplaysText};
ghost use Rattle.beep_record.specs.Refused.{Refuses};

use crate::log::LogEntries;
use crate::read::{RecordError, may_end};
use crate::reader::Reader;
use crate::replayer::Replayer;
use crate::text_replayer::TextReplayer;
use crate::verdict::Verdict;
use beep_octets::{NoMemory, Octets};
use std::alloc::Global;

/// The verdict and the report of the session that the text of a record shows, as `replay` gives
/// them of its log. It goes over the text once, and takes memory for one line of it and for the
/// report.
pub fn replay_text(alloc: Global, text: &[u8]) -> Result<(Verdict, Octets), RecordError>
    ensures value { IfOk result (λ answer. ReplaysText text.now answer.0 answer.1.octets) }
    ensures refused { IfErr result (λ error. Refuses text.now error) }
{
    let Ok(mut text_replayer) = TextReplayer::new(alloc) else {
        return Err(RecordError::NoMemory);
    };
    let mut i = 0;
    while i < text.len() {
        match text_replayer.take(&text[i..]) {
            Ok(0) => return Err(RecordError::BadRecord(i as u64)),
            Ok(count) => i += count,
            Err(_) => return Err(RecordError::NoMemory),
        }
    }
    if !may_end(text_replayer.reader.mode) {
        return Err(RecordError::BadRecord(text.len() as u64));
    }
    text_replayer.end()
}

impl TextReplayer {
    /// Before any octet.
    fn new(alloc: Global) -> Result<TextReplayer, NoMemory>
        ensures reader { IfOk result (λ t. state_of t.reader ≡ start) }
        ensures follows { IfOk result (λ t. Follows t.replayer [] [] t.out.octets) }
    {
        Ok(TextReplayer {
            reader: Reader::new(alloc),
            replayer: Replayer::new(alloc)?,
            out: Octets::new(alloc),
        })
    }

    /// Takes octets from the front, at least one where one can follow, and answers how many.
    fn take(&mut self, octets: &[u8]) -> Result<usize, NoMemory>
        requires numbered { IsNumbered self.old.reader.mode }
        requires none { self.old.reader.entries ≡ [] }
        requires follows { HasEntries self.old.replayer self.old.out.octets }
        requires some { 0 < length octets.now }
        ensures within { IfOk result (λ count. count ≤ length octets.now) }
        ensures went { IfOk result (λ count. 0 < count
            → ReplaysOn self.old self.new (take count octets.now)) }
        ensures stuck { IfOk result (λ count. count ≡ 0
            → run (Some (state_of self.old.reader)) (take 1 octets.now) ≡ None) }
    {
        let count = self.reader.take(octets)?;
        if !self.reader.entries.is_empty() {
            replay_entries(&mut self.replayer, &self.reader.entries, &mut self.out)?;
            self.reader.entries.clear();
        }
        Ok(count)
    }

    /// Ends the report.
    fn end(self) -> Result<(Verdict, Octets), RecordError>
        ensures value { (log : List Entry) → Follows self.replayer (flat log) [] self.out.octets
            → length (flat log) < numbers_128
            → IfOk result (λ answer. Replays log answer.0 [] answer.1.octets) }
        ensures refused { IfErr result (λ error. error ≡ RecordError.NoMemory) }
    {
        let TextReplayer {
            replayer,
            mut out,
            ..
        } = self;
        match replayer.end(&mut out) {
            Ok(verdict) => Ok((verdict, out)),
            Err(_) => Err(RecordError::NoMemory),
        }
    }
}

/// Takes the entries of a log.
fn replay_entries(
    replayer: &mut Replayer,
    entries: &LogEntries,
    out: &mut Octets,
) -> Result<(), NoMemory>
    requires follows { HasEntries replayer.old out.old.octets }
    ensures { (log : List Entry) (old : List ℕ) → Follows replayer.old (flat log) old out.old.octets
        → OnOk result (Follows replayer.new (flat (entries.now ++ log)) old out.new.octets) }
{
    for entry in entries.as_slice() {
        replayer.entry(entry, out)?;
    }
    Ok(())
}
