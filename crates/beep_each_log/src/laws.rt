//! What holds of every log, as a fact: the function does nothing, and its contract is the fact.
ghost use Rattle.std.specs.Prelude.{List};
ghost use Rattle.beep_journal.specs.Broken.{Tuning};
ghost use Rattle.beep_journal.specs.Log.{Moment};
ghost use Rattle.beep_journal.specs.Journal.{Past, Shows};

/// Each flat log shows a session: by the definitions none is left without one.
pub fn each_log_shows_a_session()
    ensures { (tunes : Tuning) (log : List Moment) → (past : Past) × Shows tunes log past }
{}
