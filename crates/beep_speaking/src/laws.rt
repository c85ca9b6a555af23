//! What goes out joins the journal for which the channels stand: each function does nothing, and
//! its contract is the fact.
ghost use Rattle.std.specs.Prelude.{◌≡◌, ℕ, ◌==◌, ◌∷◌, ◌++◌, List, Bool, true, false};
ghost use Rattle.beep_standing.specs.beep_frame.specs.declared.head.Head.{Head};
ghost use Rattle.beep_standing.specs.beep_frame.specs.declared.seq.Seq.{Seq};
ghost use Rattle.beep_standing.specs.beep_frame.specs.Frame.{framed, seq_frame};
ghost use Rattle.beep_standing.specs.beep_frame.specs.Spelling.{spelling};
ghost use Rattle.beep_standing.specs.beep_history.specs.declared.journal.Side.{Side};
ghost use Rattle.beep_standing.specs.beep_history.specs.Journal.{Item, began, passed, told};
ghost use Rattle.beep_standing.specs.beep_journal.specs.Life.{history, is_there};
ghost use Rattle.beep_standing.specs.beep_channel.specs.Held.{Live};
ghost use Rattle.beep_standing.specs.Standing.{Marks, AreLive, AreLiveBy};
ghost use Rattle.beep_standing.specs.Due.{has_due, has_ready};
ghost use Rattle.beep_speaking.specs.declared.emit.Emit.{Emit};
ghost use Rattle.beep_speaking.specs.Emits.{Emits};

/// A SEQ that goes out joins the journal, and its spelling went out (RFC 3081, section 3.1.3).
pub fn a_seq_that_goes_out_joins()
    ensures { (size most : ℕ) (greeted : Bool) (journal : List Item) (given taken : Marks)
        (old new : List Live) (before after : List ℕ) (seq : Seq)
        → AreLiveBy size journal given taken old
        → Emits most greeted (Emit.Seq seq) old new before after
        → (after ≡ before ++ spelling (seq_frame seq))
        × AreLiveBy size (told Side.Sent seq ∷ journal) given taken new }
{}

/// A frame that goes out joins the journal, header and frame at once, and its spelling went out.
/// Where it is one of channel zero, what it says is still to be done.
pub fn a_frame_that_goes_out_joins()
    ensures above { (size most : ℕ) (greeted : Bool) (journal : List Item) (given taken : Marks)
        (old new : List Live) (before after : List ℕ) (head : Head)
        → AreLiveBy size journal given taken old → (head.channel == 0) ≡ false
        → Emits most greeted (Emit.Data head) old new before after
        → (payload : List ℕ) × (after ≡ before ++ spelling (framed head payload))
        × AreLiveBy size (passed Side.Sent head payload ∷ began Side.Sent head ∷ journal)
        given taken new }
    ensures zero { (size most : ℕ) (greeted : Bool) (journal : List Item) (given taken : Marks)
        (old new : List Live) (before after : List ℕ) (head : Head)
        → AreLiveBy size journal given taken old → (head.channel == 0) ≡ true
        → Emits most greeted (Emit.Data head) old new before after
        → (payload : List ℕ) × (after ≡ before ++ spelling (framed head payload))
        × AreLive size (began Side.Sent head ∷ journal)
        (passed Side.Sent head payload ∷ began Side.Sent head ∷ journal) given taken new }
{}

/// Where nothing goes out, nothing is due by the journal: no SEQ, where the own greeting has gone,
/// and no frame of any channel that is there.
pub fn nothing_goes_out_where_nothing_is_due()
    ensures seq { (size most : ℕ) (greeted : Bool) (journal : List Item) (given taken : Marks)
        (old new : List Live) (before after : List ℕ)
        → AreLiveBy size journal given taken old
        → Emits most greeted Emit.Nothing old new before after → greeted ≡ true
        → (n : ℕ) → is_there n journal ≡ true
        → has_due size (taken n) (history n journal) ≡ false }
    ensures frame { (size most : ℕ) (greeted : Bool) (journal : List Item) (given taken : Marks)
        (old new : List Live) (before after : List ℕ)
        → AreLiveBy size journal given taken old
        → Emits most greeted Emit.Nothing old new before after
        → (n : ℕ) → is_there n journal ≡ true
        → has_ready (given n) (history n journal) ≡ false }
{}
