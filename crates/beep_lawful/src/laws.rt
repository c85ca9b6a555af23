//! What the definitions mean, as facts that hold of every journal: each function does nothing, and
//! its contract is the fact.
ghost use Rattle.std.specs.Prelude.{◌≡◌, ◌≤◌, ℕ, List, ◌∷◌, ◌++◌, Some, None, false};
ghost use Rattle.beep_frame.specs.declared.head.Head.{Head};
ghost use Rattle.beep_frame.specs.declared.seq.Seq.{Seq};
ghost use Rattle.beep_seq.specs.Wire.{wire_number};
ghost use Rattle.beep_seq.specs.Receiving.{Receiver, IsReceiver};
ghost use Rattle.beep_history.specs.declared.journal.Side.{Side};
ghost use Rattle.beep_history.specs.Journal.{Item, began, passed, told};
ghost use Rattle.beep_history.specs.Marks.{passed_octets};
ghost use Rattle.beep_history.specs.Windows.{arrivals, greatest_edge};
ghost use Rattle.beep_journal.specs.Life.{history};
ghost use Rattle.beep_journal.specs.Broken.{Tuning, broken_head, broken_seq, broken_content};
ghost use Rattle.beep_lawful.specs.declared.terms.Terms.{Terms};
ghost use Rattle.beep_lawful.specs.Tuned.{is_tuning};
ghost use Rattle.beep_lawful.specs.Lawful.{is_apart, breaks_after_end, seq_edge, unlawful_seq, IsLawful};
ghost use Rattle.beep_lawful.specs.Due.{due};

/// What a lawful end sends breaks no rule as its peer judges it: no header, no content and no SEQ.
pub fn a_lawful_end_breaks_no_rule_of_its_peer()
    ensures header { (terms : Terms) (tunes : Tuning) (later earlier : List Item) (head : Head)
        → IsLawful terms tunes (later ++ began Side.Sent head ∷ earlier)
        → broken_head tunes Side.Sent earlier head ≡ None }
    ensures content { (terms : Terms) (tunes : Tuning) (later earlier : List Item) (head : Head)
        (payload : List ℕ) → IsLawful terms tunes (later ++ passed Side.Sent head payload ∷ earlier)
        → broken_content Side.Sent earlier head payload ≡ None }
    ensures seq { (terms : Terms) (tunes : Tuning) (later earlier : List Item) (seq : Seq)
        → IsLawful terms tunes (later ++ told Side.Sent seq ∷ earlier)
        → broken_seq Side.Sent earlier seq ≡ None }
{}

/// A SEQ of a lawful end says what arrived, opens no more than its window, and moves no edge to the
/// left.
pub fn a_lawful_seq_moves_no_edge_left()
    ensures ackno { (terms : Terms) (tunes : Tuning) (later earlier : List Item) (seq : Seq)
        → IsLawful terms tunes (later ++ told Side.Sent seq ∷ earlier)
        → seq.ackno ≡ wire_number (passed_octets Side.Received (history seq.channel earlier)) }
    ensures window { (terms : Terms) (tunes : Tuning) (later earlier : List Item) (seq : Seq)
        → IsLawful terms tunes (later ++ told Side.Sent seq ∷ earlier)
        → seq.window ≤ terms.window }
    ensures edge { (terms : Terms) (tunes : Tuning) (later earlier : List Item) (seq : Seq)
        → IsLawful terms tunes (later ++ told Side.Sent seq ∷ earlier)
        → greatest_edge Side.Received (history seq.channel earlier)
        ≤ seq_edge (history seq.channel earlier) seq }
{}

/// The SEQ that is due may go out, where the window stands for what was taken, nothing else is
/// under way and the session goes on.
pub fn what_is_due_is_lawful()
    ensures { (terms : Terms) (tunes : Tuning) (journal : List Item) (number taken : ℕ)
        (window : Receiver) (seq : Seq) → IsLawful terms tunes journal
        → IsReceiver window terms.window (arrivals Side.Received taken (history number journal))
        → due terms.window taken number journal ≡ Some seq
        → is_apart journal ≡ false → is_tuning tunes journal ≡ false
        → breaks_after_end tunes journal ≡ false
        → unlawful_seq terms tunes journal seq ≡ None }
{}
