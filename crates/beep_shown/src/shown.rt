//! The session that a log shows, by plain look-back: each octet makes one step (RFC 3080, section
//! 2.2.1).
//!
//! No session runs this: it is the definitions in code, slow, so that they can be tried on
//! examples.
ghost use Rattle.std.specs.Prelude.{◌≡◌, ◌++◌, ◌∷◌, ◌||◌, [], ℕ, List, None, true, not, is_some, IfOk, OnOk};
ghost use Rattle.beep_frame.specs.declared.head.Head.{Head as header_type};
ghost use Rattle.beep_frame.specs.declared.step.Step.{Step as step_type};
ghost use Rattle.beep_frame.specs.Frame.{Frame, framed};
ghost use Rattle.beep_frame.specs.Decoding.{WasFed};
ghost use Rattle.beep_frame.specs.Decodes.{Decodes};
ghost use Rattle.beep_frame.specs.Fed.{Fed, fed_of};
ghost use Rattle.beep_history.specs.Journal.{began, passed, told, other, history_of, item_of};
ghost use Rattle.beep_journal.specs.Broken.{none_tunes, broken_head, broken_seq, broken_content};
ghost use Rattle.beep_journal.specs.Journal.{Past, goes_on};
ghost use Rattle.beep_journal.specs.Life.{is_released};
ghost use Rattle.beep_journal.specs.Log.{Entry as entry_type, Moment, flat};
ghost use Rattle.beep_record.specs.Following.{counts};
ghost use Rattle.beep_record.specs.Logged.{entry_of};
ghost use Rattle.beep_record.specs.Replaying.{many};
ghost use Rattle.beep_shown.specs.Shown.{decoder_of, log_in, moment_of, IsShown, Joins, SameSides, ShowsBy};

use beep_frame::{Decoder, Head, MAX_PAYLOAD, Seq, Step};
use beep_history::{JournalItem, Side};
use beep_journal::{broken_content, broken_head, broken_seq, is_released};
use beep_octets::{NoMemory, Octets};
use beep_record::Entry;
use std::alloc::Global;

/// The session that the log of a link shows.
#[derive(Drop)]
pub struct Shown {
    received: Decoder,
    sent: Decoder,
    /// What happened, the latest first.
    journal: Vec<JournalItem>,
    /// Whether a rule was broken.
    broken: bool,
}

impl Shown {
    /// The session that an empty log shows.
    fn new(alloc: Global) -> Result<Shown, NoMemory>
        ensures { IfOk result (λ shown. ShowsBy shown []) }
    {
        Ok(Shown {
            received: Decoder::new(alloc, MAX_PAYLOAD)?,
            sent: Decoder::new(alloc, MAX_PAYLOAD)?,
            journal: Vec::new(alloc),
            broken: false,
        })
    }

    /// The session that a log shows, whose entries are these, the latest first.
    pub fn of(alloc: Global, log: &[Entry]) -> Result<Shown, NoMemory>
        ensures { IfOk result (λ shown. ShowsBy shown (flat (log_in log.now))) }
    {
        match log {
            [] => Shown::new(alloc),
            [entry, before @ ..] => {
                let mut session = Shown::of(alloc, before)?;
                session.take_entry(alloc, entry)?;
                Ok(session)
            }
        }
    }

    /// What happened, the latest first.
    pub fn journal(&self) -> &[JournalItem]
        ensures { result.now ≡ self.now.journal.items }
    {
        &self.journal
    }

    /// Whether it is over, by a broken rule or by its release.
    pub fn is_over(&self, alloc: Global) -> Result<bool, NoMemory>
        ensures { (past : Past) → IsShown self.now past → IfOk result (λ over.
            over ≡ (not (goes_on past) || is_released past.journal)) }
    {
        Ok(self.broken || is_released(alloc, &self.journal)?)
    }

    /// Takes an entry of the log, the next one.
    fn take_entry(&mut self, alloc: Global, entry: &Entry) -> Result<(), NoMemory>
        ensures { (log : List entry_type) → ShowsBy self.old (flat log)
            → OnOk result (ShowsBy self.new (flat (entry_of entry.now ∷ log))) }
    {
        match entry {
            Entry::Read(octets) => self.take_octets(alloc, Side::Received, octets.as_slice()),
            Entry::Wrote(octets) => self.take_octets(alloc, Side::Sent, octets.as_slice()),
            Entry::Quiet | Entry::Ended => Ok(()),
        }
    }

    fn take_octets(&mut self, alloc: Global, side: Side, octets: &[u8]) -> Result<(), NoMemory>
        ensures { (log : List Moment) → ShowsBy self.old log
            → OnOk result (ShowsBy self.new (many side octets.now log)) }
    {
        match octets {
            [] => Ok(()),
            [octet, others @ ..] => {
                self.take(alloc, side, *octet)?;
                self.take_octets(alloc, side, others)
            }
        }
    }

    /// Takes one octet of a side. After a broken rule none counts, and after a release none that is
    /// read.
    fn take(&mut self, alloc: Global, side: Side, octet: u8) -> Result<(), NoMemory>
        ensures { (log : List Moment) → ShowsBy self.old log
            → OnOk result (ShowsBy self.new (moment_of side octet ∷ log)) }
    {
        if !self.counts(alloc, side)? {
            return Ok(());
        }
        match self.feed(side, octet) {
            Step::More => Ok(()),
            Step::Head(head) => self.begin(alloc, side, head),
            Step::Frame => self.pass(alloc, side),
            Step::Seq(seq) => self.tell(alloc, side, seq),
            Step::Broken(_, _) => {
                self.broken = true;
                Ok(())
            }
        }
    }

    /// Whether octets of a side count.
    fn counts(&self, alloc: Global, side: Side) -> Result<bool, NoMemory>
        ensures { (past : Past) → IsShown self.now past
            → IfOk result (λ they. they ≡ counts side past) }
    {
        match side {
            Side::Received => Ok(!self.is_over(alloc)?),
            Side::Sent => Ok(!self.broken),
        }
    }

    /// Feeds the decoder of a side.
    fn feed(&mut self, side: Side, octet: u8) -> Step
        ensures decodes { (fed : Fed) → WasFed (decoder_of side self.old) fed
            → Decodes result (decoder_of side self.new) fed (octet ∷ []) 1 }
        ensures frame { result ≡ step_type.Frame → (decoder_of side self.new).whole ≡ true }
        ensures max { (decoder_of side self.new).tracker.max
            ≡ (decoder_of side self.old).tracker.max }
        ensures others { decoder_of (other side) self.new ≡ decoder_of (other side) self.old }
        ensures journal { self.new.journal ≡ self.old.journal }
        ensures broken { self.new.broken ≡ self.old.broken }
    {
        match side {
            Side::Received => feed_one(&mut self.received, octet),
            Side::Sent => feed_one(&mut self.sent, octet),
        }
    }

    /// A header ends.
    fn begin(&mut self, alloc: Global, side: Side, head: Head) -> Result<(), NoMemory>
        ensures joins { OnOk result (Joins
            (broken_head none_tunes side (history_of self.old.journal.items) head)
            (began side head) self.old self.new) }
        ensures sides { SameSides self.old self.new }
    {
        match broken_head(alloc, &[], side, &self.journal, &head)? {
            Some(_) => {
                self.broken = true;
                Ok(())
            }
            None => put_first(&mut self.journal, JournalItem::Began(side, head)),
        }
    }

    /// The frame ends whose header came last.
    fn pass(&mut self, alloc: Global, side: Side) -> Result<(), NoMemory>
        requires whole { (decoder_of side self.old).whole ≡ true }
        ensures passes { (octets : List ℕ) (frames : List Frame) (head : header_type)
            (payload : List ℕ) → WasFed (decoder_of side self.old)
            (fed_of octets (frames ++ framed head payload ∷ []) [] None)
            → OnOk result ((history_of self.new.journal.items
            ≡ passed side head payload ∷ history_of self.old.journal.items)
            × (self.new.broken ≡ is_some
            (broken_content side (history_of self.old.journal.items) head payload))) }
        ensures sides { SameSides self.old self.new }
    {
        let (head, payload) = match side {
            Side::Received => last_frame(alloc, &self.received)?,
            Side::Sent => last_frame(alloc, &self.sent)?,
        };
        let rule = broken_content(alloc, side, &self.journal, &head, &payload)?;
        put_first(&mut self.journal, JournalItem::Passed(side, head, payload))?;
        self.broken = rule.is_some();
        Ok(())
    }

    /// A SEQ ends.
    fn tell(&mut self, alloc: Global, side: Side, seq: Seq) -> Result<(), NoMemory>
        ensures joins { OnOk result (Joins
            (broken_seq side (history_of self.old.journal.items) seq)
            (told side seq) self.old self.new) }
        ensures sides { SameSides self.old self.new }
    {
        match broken_seq(alloc, side, &self.journal, &seq)? {
            Some(_) => {
                self.broken = true;
                Ok(())
            }
            None => put_first(&mut self.journal, JournalItem::Told(side, seq)),
        }
    }
}

/// Feeds one octet.
fn feed_one(decoder: &mut Decoder, octet: u8) -> Step
    ensures decodes { (fed : Fed) → WasFed decoder.old fed
        → Decodes result decoder.new fed (octet ∷ []) 1 }
    ensures frame { result ≡ step_type.Frame → decoder.new.whole ≡ true }
    ensures max { decoder.new.tracker.max ≡ decoder.old.tracker.max }
{
    let (_, step) = decoder.feed(&[octet]);
    step
}

/// The header and the payload of the frame that a decoder answered last.
fn last_frame(alloc: Global, decoder: &Decoder) -> Result<(Head, Octets), NoMemory>
    requires whole { decoder.now.whole ≡ true }
    ensures { (octets : List ℕ) (frames : List Frame) (head : header_type) (payload : List ℕ)
        → WasFed decoder.now (fed_of octets (frames ++ framed head payload ∷ []) [] None)
        → IfOk result (λ frame. (frame.0 ≡ head) × (frame.1.octets ≡ payload)) }
{
    let frame = decoder.frame();
    let mut payload = Octets::new(alloc);
    payload.extend(frame.payload)?;
    Ok((frame.head, payload))
}

/// Puts an item before the others.
fn put_first(journal: &mut Vec<JournalItem>, item: JournalItem) -> Result<(), NoMemory>
    ensures { OnOk result (history_of journal.new.items
        ≡ item_of item ∷ history_of journal.old.items) }
{
    match journal.insert(0, item) {
        Ok(()) => Ok(()),
        Err(_) => Err(NoMemory),
    }
}
