//! The judge of both directions of a session.
ghost use Rattle.std.specs.Prelude.{◌≡◌, ◌∷◌, [], List, None, Some, IfOk, OnOk, OnErr, IfSome};
ghost use Rattle.beep_frame.specs.declared.head.Head.{Head as HeadValue};
ghost use Rattle.beep_history.specs.Journal.{Item, began, passed, told, other};
ghost use Rattle.beep_history.specs.Broken.{under_way};
ghost use Rattle.beep_journal.specs.Life.{is_released};
ghost use Rattle.beep_journal.specs.Broken.{none_tunes, broken_head, broken_seq, broken_content};
ghost use Rattle.beep_judge.specs.Kept.{under_way_of, IsWhole};
ghost use Rattle.beep_judge.specs.Judges.{Judges};

use crate::session::{Session, begin_in, pass_in, seq_in, under_way_in};
use beep_frame::{Head, Rule, Seq};
use beep_history::Side;
use beep_octets::NoMemory;
use std::alloc::Global;
use std::marker::Model;

/// What one end saw of a session, judged header by header, SEQ by SEQ and frame by frame. It keeps
/// the live lives and the
/// requests of channel zero that wait; no call but `new` and `pass` takes memory.
#[derive(Drop)]
pub struct Judge {
    session: Session,
}

impl Model for Judge {
    ghost use Rattle.std.specs.Prelude.{List};
    ghost use Rattle.beep_history.specs.Journal.{Item};
    ghost use Rattle.beep_judge.specs.declared.session.Session.{Session};
    ghost use Rattle.beep_judge.specs.Judges.{Judges};
    ghost use Rattle.beep_judge.specs.contracts.session.Session as held;

    ghost Value = { Session };

    ghost coded = { held.the_row.coded };

    ghost view = { λ judge. judge.session };

    ghost invariant = { λ judge. ∥ ((journal : List Item) × Judges judge.session journal) ∥₁ };
}

impl Judge {
    /// The judge of a session in which nothing has happened.
    pub fn new(alloc: Global) -> Result<Judge, NoMemory>
        ensures stands { IfOk result (λ judge. Judges judge []) }
        ensures idle { IfOk result (λ judge. (side : Side) → under_way_of side judge ≡ None) }
    {
        let session = Session::new(alloc)?;
        Ok(Judge { session })
    }

    /// The header of a side that has ended, while its frame hasn't passed.
    pub fn under_way(&self, side: Side) -> Option<Head>
        ensures value { result ≡ under_way_of side self.now }
        ensures stands { (journal : List Item) → Judges self.now journal
            → result ≡ under_way side journal }
    {
        under_way_in(&self.session, side)
    }

    /// A header of a side has ended: the first rule that it breaks. With a rule the judge is as it
    /// was.
    pub fn begin(&mut self, side: Side, head: &Head) -> Option<Rule>
        requires whole { under_way_of side self.old ≡ None }
        ensures value { (journal : List Item) → Judges self.old journal
            → result ≡ broken_head none_tunes side journal head.now }
        ensures none { result ≡ None → (journal : List Item) → Judges self.old journal
            → Judges self.new (began side head.now ∷ journal) }
        ensures some { IfSome result (λ _. self.new ≡ self.old) }

        // What is under way.
        ensures begun { result ≡ None → under_way_of side self.new ≡ Some head.now }
        ensures others { under_way_of (other side) self.new ≡ under_way_of (other side) self.old }
    {
        begin_in(&mut self.session, side, head)
    }

    /// The frame of a side that is under way has passed, with this payload: the rule that its
    /// content breaks. It has
    /// passed also where there is one. After an error it has not, and a later call may succeed.
    pub fn pass(&mut self, side: Side, payload: &[u8]) -> Result<Option<Rule>, NoMemory>
        requires whole { IsWhole side self.old payload.now }
        ensures value { (journal : List Item) (head : HeadValue) → Judges self.old journal
            → under_way_of side self.old ≡ Some head
            → IfOk result (λ rule. rule ≡ broken_content side journal head payload.now) }
        ensures ok { (journal : List Item) (head : HeadValue) → Judges self.old journal
            → under_way_of side self.old ≡ Some head
            → OnOk result (Judges self.new (passed side head payload.now ∷ journal)) }
        ensures err { (journal : List Item) → Judges self.old journal
            → OnErr result (Judges self.new journal) }

        // What is under way.
        ensures whole { OnOk result (under_way_of side self.new ≡ None) }
        ensures begun { OnErr result (under_way_of side self.new ≡ under_way_of side self.old) }
        ensures others { under_way_of (other side) self.new ≡ under_way_of (other side) self.old }
    {
        pass_in(&mut self.session, side, payload)
    }

    /// A SEQ of a side has ended: the rule that it breaks. With a rule the judge is as it was.
    pub fn seq(&mut self, side: Side, seq: &Seq) -> Option<Rule>
        ensures value { (journal : List Item) → Judges self.old journal
            → result ≡ broken_seq side journal seq.now }
        ensures none { result ≡ None → (journal : List Item) → Judges self.old journal
            → Judges self.new (told side seq.now ∷ journal) }
        ensures some { IfSome result (λ _. self.new ≡ self.old) }
        ensures under_way { (by : Side) → under_way_of by self.new ≡ under_way_of by self.old }
    {
        seq_in(&mut self.session, side, seq)
    }

    /// Whether a close of 0 was granted, by either side.
    pub fn is_released(&self) -> bool
        ensures { (journal : List Item) → Judges self.now journal → result ≡ is_released journal }
    {
        self.session.channels.released
    }
}
