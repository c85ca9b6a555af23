//! What the log of a link says, as facts that hold of every log: each function does nothing, and
//! its contract is the fact.
ghost use Rattle.std.specs.Prelude.{◌≡◌, ◌++◌, List};
ghost use Rattle.beep_wires.specs.Log.{Entry};
ghost use Rattle.beep_recorder.specs.Said.{log_said};

/// Logs of links that say the same are the same.
pub fn a_log_is_said_once()
    ensures { (one other : List Entry) → log_said one ≡ log_said other → one ≡ other }
{}

/// What a log that grew says is what it said, grown by what the new entries say.
pub fn what_a_log_says_grows_with_it()
    ensures { (newer older : List Entry)
        → log_said (newer ++ older) ≡ log_said newer ++ log_said older }
{}
