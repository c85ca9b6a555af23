//! Replaying a record: the report and the verdict of the session that its log shows.
ghost use Rattle.std.specs.Prelude.{◌≡◌, ℕ, ◌+◌, ◌≤◌, ◌<◌, ◌++◌, List, [], ◌∷◌, length, take, IfOk, OnOk, OnErr};
ghost use Rattle.beep_octets.specs.Numbers.{numbers_64, numbers_128};
ghost use Rattle.beep_journal.specs.Log.{Moment, Entry as LogEntry, flat};
ghost use Rattle.beep_journal.specs.Broken.{none_tunes};
ghost use Rattle.beep_journal.specs.Journal.{Past, Shows};
ghost use Rattle.beep_journal.specs.Texts.{report};
ghost use Rattle.beep_record.specs.Logged.{entry_of};
ghost use Rattle.beep_record.specs.Verdicts.{verdict_of, Replays, Begins};
ghost use Rattle.beep_record.specs.Following.{counts};
ghost use Rattle.beep_record.specs.Replaying.{Follows, HasLog, Stopped, many};

use crate::lines::put_summary;
use crate::log::{Entry, Log};
use crate::replayer::Replayer;
use crate::step::take;
use crate::verdict::Verdict;
use crate::wire::Wire;
use beep_history::Side;
use beep_judge::Judge;
use beep_octets::{NoMemory, Octets};
use std::alloc::Global;

/// Appends the report of a recorded session, and answers its verdict. No start is taken as tuning.
/// It goes over the
/// octets once.
pub fn replay(alloc: Global, log: &Log, out: &mut Octets) -> Result<Verdict, NoMemory>
    ensures value { IfOk result (λ verdict.
        Replays log.now.entries verdict out.old.octets out.new.octets) }
    ensures err { (past : Past) → Shows none_tunes (flat log.now.entries) past
        → OnErr result (Begins (report past) out.old.octets out.new.octets) }
{
    let mut replayer = Replayer::new(alloc)?;
    for entry in log.entries.as_slice() {
        replayer.entry(entry, out)?;
    }
    replayer.end(out)
}

impl Replayer {
    /// Before any octet.
    pub(crate) fn new(alloc: Global) -> Result<Replayer, NoMemory>
        ensures { IfOk result (λ r. (octets : List ℕ) → Follows r [] octets octets) }
    {
        Ok(Replayer {
            received: Wire::new(alloc)?,
            sent: Wire::new(alloc)?,
            judge: Judge::new(alloc)?,
            verdict: Verdict::Fine,
        })
    }

    /// Takes an entry of the log.
    pub(crate) fn entry(&mut self, entry: &Entry, out: &mut Octets) -> Result<(), NoMemory>
        requires follows { HasLog self.old out.old.octets }
        ensures ok { (log : List LogEntry) (old : List ℕ)
            → Follows self.old (flat log) old out.old.octets
            → OnOk result (Follows self.new (flat (entry_of entry.now ∷ log)) old out.new.octets) }
        ensures small { (log : List LogEntry)
            → length (flat (entry_of entry.now ∷ log)) ≤ length (flat log) + numbers_64 }
        ensures err { (log : List LogEntry) (old : List ℕ)
            → Follows self.old (flat log) old out.old.octets
            → OnErr result (Stopped (flat (entry_of entry.now ∷ log)) old out.new.octets) }
    {
        match entry {
            Entry::Read(octets) => self.feed(Side::Received, octets.as_slice(), out),
            Entry::Wrote(octets) => self.feed(Side::Sent, octets.as_slice(), out),
            Entry::Quiet | Entry::Ended => Ok(()),
        }
    }

    /// Takes octets of a side.
    fn feed(&mut self, side: Side, octets: &[u8], out: &mut Octets) -> Result<(), NoMemory>
        requires follows { HasLog self.old out.old.octets }
        ensures ok { (log : List Moment) (old : List ℕ) → Follows self.old log old out.old.octets
            → OnOk result (Follows self.new (many side octets.now log) old out.new.octets) }
        ensures small { length octets.now < numbers_64 }
        ensures err { (log : List Moment) (old : List ℕ) → Follows self.old log old out.old.octets
            → OnErr result (Stopped (many side octets.now log) old out.new.octets) }
    {
        let mut at = 0;
        while at < octets.len() {
            let count = self.take(side, &octets[at..], out)?;
            at += count;
        }
        Ok(())
    }

    /// Takes octets of a side up to the next step, or all of them where they don't count, and
    /// answers how many.
    fn take(&mut self, side: Side, octets: &[u8], out: &mut Octets) -> Result<usize, NoMemory>
        requires follows { HasLog self.old out.old.octets }
        requires some { 0 < length octets.now }
        ensures within { IfOk result (λ count. count ≤ length octets.now) }
        ensures progress { IfOk result (λ count. 0 < count) }
        ensures ok { (log : List Moment) (old : List ℕ) → Follows self.old log old out.old.octets
            → IfOk result (λ count.
            Follows self.new (many side (take count octets.now) log) old out.new.octets) }
        ensures err { OnErr result (out.new.octets ≡ out.old.octets) }
    {
        if !self.counts(side) {
            return Ok(octets.len());
        }
        let judge = &mut self.judge;
        match side {
            Side::Received => {
                let (count, verdict) = take(
                    &mut self.received,
                    judge,
                    Side::Received,
                    octets,
                    out,
                )?;
                self.verdict = verdict;
                Ok(count)
            }
            Side::Sent => {
                let (count, verdict) = take(&mut self.sent, judge, Side::Sent, octets, out)?;
                self.verdict = verdict;
                Ok(count)
            }
        }
    }

    /// Whether octets of a side count: no rule was broken, and no octets are read after a release.
    fn counts(&self, side: Side) -> bool
        ensures { (log : List Moment) (old octets : List ℕ)
            (follows : Follows self.now log old octets)
            → result ≡ counts side follows.past }
    {
        match self.verdict {
            Verdict::Fine => match side {
                Side::Received => !self.judge.is_released(),
                Side::Sent => true,
            },
            Verdict::Broken(..) | Verdict::Written(..) => false,
        }
    }

    /// Ends the report.
    pub(crate) fn end(&self, out: &mut Octets) -> Result<Verdict, NoMemory>
        ensures value { (log : List Moment) (old : List ℕ)
            (follows : Follows self.now log old out.old.octets)
            → length log < numbers_128
            → IfOk result (λ verdict. verdict ≡ verdict_of follows.past.fault) }
        ensures text { (log : List Moment) (old : List ℕ)
            (follows : Follows self.now log old out.old.octets)
            → length log < numbers_128
            → OnOk result (out.new.octets ≡ old ++ report follows.past) }
        ensures err { OnErr result (out.new.octets ≡ out.old.octets) }
    {
        match self.verdict {
            Verdict::Fine => {
                let left = self.received.decoder.left();
                put_summary(self.received.frames, self.sent.frames, left, out)?;
                Ok(Verdict::Fine)
            }
            Verdict::Broken(..) | Verdict::Written(..) => Ok(self.verdict),
        }
    }
}
