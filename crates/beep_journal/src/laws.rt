//! What the definitions mean, as facts that hold of every journal: each function does nothing, and
//! its contract is the fact.
ghost use Rattle.std.specs.Prelude.{◌≡◌, ◌<◌, ℕ, List, [], ◌∷◌, ◌++◌, Some, None, true, false};
ghost use Rattle.beep_frame.specs.declared.head.Head.{Head};
ghost use Rattle.beep_frame.specs.declared.seq.Seq.{Seq};
ghost use Rattle.beep_history.specs.declared.journal.Side.{Side};
ghost use Rattle.beep_history.specs.Journal.{Item, began, passed, told};
ghost use Rattle.beep_history.specs.Marks.{marks};
ghost use Rattle.beep_history.specs.Broken.{KeepsExchangeRules};
ghost use Rattle.beep_journal.specs.Lives.{Event, lives, has_ended};
ghost use Rattle.beep_journal.specs.Zero.{zero_history, gathered, events};
ghost use Rattle.beep_journal.specs.Life.{life_now, is_of_life, life};
ghost use Rattle.beep_journal.specs.Laws.{IsLiveLife, IsUnbroken, IsUnbrokenBefore, no_header, contents, pieces_from, rest_from};
ghost use Rattle.beep_journal.specs.Broken.{Tuning};
ghost use Rattle.beep_journal.specs.Log.{Moment};
ghost use Rattle.beep_journal.specs.Journal.{Past, Fault, Shows};

/// A number has at most one live life (RFC 3080, section 2.3.1.2).
pub fn a_number_has_one_live_life()
    ensures { (number one other : ℕ) (events : List Event)
        → IsLiveLife number one events → IsLiveLife number other events → one ≡ other }
{}

/// A life has no item before it begins.
pub fn a_life_has_no_item_before_it_begins()
    ensures { (number count : ℕ) (journal : List Item)
        → lives number (events journal) < count → life number count journal ≡ [] }
{}

/// A header and a SEQ of a number belong to the life of it that is live as they come.
pub fn a_header_belongs_to_the_life_that_is_live()
    ensures header { (side : Side) (head : Head) (journal : List Item)
        → is_of_life head.channel (life_now head.channel journal) (began side head) journal ≡ true }
    ensures seq { (side : Side) (seq : Seq) (journal : List Item)
        → is_of_life seq.channel (life_now seq.channel journal) (told side seq) journal ≡ true }
{}

/// A frame belongs to the life to which its header belonged, whatever has come since: its header is
/// the latest of its side.
pub fn a_frame_belongs_to_the_life_of_its_header()
    ensures { (number count : ℕ) (side : Side) (head : Head) (payload : List ℕ)
        (later earlier : List Item) → no_header side later ≡ true
        → is_of_life number count (passed side head payload)
        (later ++ began side head ∷ earlier)
        ≡ is_of_life number count (began side head) earlier }
{}

/// An item belongs to one life.
pub fn an_item_belongs_to_one_life()
    ensures { (number one other : ℕ) (item : Item) (journal : List Item)
        → is_of_life number one item journal ≡ true → is_of_life number other item journal ≡ true
        → one ≡ other }
{}

/// No frame begins in a life that has ended. One whose header came before may pass after it.
pub fn no_frame_begins_in_a_life_that_has_ended()
    ensures { (number count : ℕ) (side : Side) (head : Head) (journal : List Item) → 0 < count
        → has_ended number count (events journal) ≡ true
        → is_of_life number count (began side head) journal ≡ false }
{}

/// A flat log shows one session: one journal, and one first fault with its rule and its octet.
pub fn a_log_shows_one_session()
    ensures { (tunes : Tuning) (log : List Moment) (one other : Past)
        → Shows tunes log one → Shows tunes log other → one ≡ other }
{}

/// The first fault stays: what comes after it changes nothing.
pub fn the_first_fault_stays()
    ensures { (tunes : Tuning) (moment : Moment) (log : List Moment) (before past : Past)
        (fault : Fault) → Shows tunes log before → before.fault ≡ Some fault
        → Shows tunes (moment ∷ log) past → past ≡ before }
{}

/// No rule is broken before the first fault: each header, SEQ and reply of the journal broke none
/// as it came, but for the frame whose content is the fault.
pub fn no_rule_is_broken_before_the_first_fault()
    ensures whole { (tunes : Tuning) (log : List Moment) (past : Past) → Shows tunes log past
        → past.fault ≡ None → IsUnbroken tunes past.journal }
    ensures before { (tunes : Tuning) (log : List Moment) (past : Past) → Shows tunes log past
        → IsUnbrokenBefore tunes past.journal }
{}

/// Where channel zero keeps the rules of the exchange, the marks of a side of it, cut at their
/// ends, are its messages, and what is left after the last end is what its message under way has so
/// far.
pub fn the_messages_of_channel_zero_are_its_marks_cut_at_their_ends()
    ensures contents { (side : Side) (journal : List Item)
        → KeepsExchangeRules (zero_history journal)
        → pieces_from [] (marks side (zero_history journal)) ≡ contents side journal }
    ensures left { (side : Side) (journal : List Item)
        → KeepsExchangeRules (zero_history journal)
        → rest_from [] (marks side (zero_history journal)) ≡ gathered side (zero_history journal) }
{}
