//! Laws of the history that an exchange stands for.
ghost use Rattle.beep_history.specs.declared.journal.Side.{Side};
ghost use Rattle.beep_frame.specs.declared.seq.Seq.{Seq};
ghost use Rattle.beep_history.specs.Journal.{Item, told};
ghost use Rattle.std.specs.Prelude.{List, ◌∷◌};
ghost use Rattle.beep_frame.specs.declared.tag.Tag.{Tag};
ghost use Rattle.beep_history.specs.Marks.{modulo_2_64};
ghost use Rattle.beep_exchange.specs.declared.given.Given.{Given};
ghost use Rattle.beep_exchange.specs.Given.{Call, Counts, MayTake, MayTakeEnd};
ghost use Rattle.beep_exchange.specs.Exchange.{Life, IsExchange};

/// A SEQ changes nothing that an exchange keeps.
pub fn a_seq_changes_nothing()
    ensures { (life : Life) (past : List Item) (by : Side) (seq : Seq) → IsExchange life past
        → IsExchange life (told by seq ∷ past) }
{}

/// What may be taken by the calls made may be taken by what is kept.
pub fn what_the_calls_let_be_taken_may_be_taken()
    ensures { (given : Given) (calls : List Call) (whole : Tag) → Counts given calls
        → MayTakeEnd calls whole.kind whole.request → MayTake given (modulo_2_64 whole) }
{}
