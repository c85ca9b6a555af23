//! What the text of a record means, as facts that hold of every text: each function does nothing,
//! and its contract
//! is the fact.
ghost use Rattle.std.specs.Prelude.{◌≡◌, ℕ, List, []};
ghost use Rattle.beep_journal.specs.declared.role.Role.{Role};
ghost use Rattle.beep_journal.specs.Log.{Entry, flat};
ghost use Rattle.beep_record.specs.Record.{Says, Stops};
ghost use Rattle.beep_record.specs.Written.{Writes};

/// A text says one log, of one end.
pub fn a_text_says_one_log()
    ensures role { (text : List ℕ) (one other : Role) (log said : List Entry)
        → Says text one log → Says text other said → one ≡ other }
    ensures log { (text : List ℕ) (one other : Role) (log said : List Entry)
        → Says text one log → Says text other said → log ≡ said }
{}

/// A text stops at one place.
pub fn a_text_stops_at_one_place()
    ensures { (text : List ℕ) (one other : ℕ) → Stops text one → Stops text other → one ≡ other }
{}

/// A text that says a log stops nowhere.
pub fn a_record_stops_nowhere()
    ensures { (text : List ℕ) (role : Role) (log : List Entry) (q : ℕ)
        → Says text role log → ¬ (Stops text q) }
{}

/// What is written of a log says the same flat log when it is read.
pub fn what_is_written_says_the_flat_log()
    ensures role { (text : List ℕ) (one other : Role) (log said : List Entry)
        → Writes one log [] text → Says text other said → other ≡ one }
    ensures log { (text : List ℕ) (one other : Role) (log said : List Entry)
        → Writes one log [] text → Says text other said → flat said ≡ flat log }
{}
