//! What the log of a run is replayed to, as facts: each function does nothing, and its contract is
//! the fact.
ghost use Rattle.std.specs.Prelude.{ℕ, List};
ghost use Rattle.beep_listener.specs.beep_lawful.specs.declared.terms.Terms.{Terms};
ghost use Rattle.beep_listener.specs.beep_wires.specs.Log.{Entry};
ghost use Rattle.beep_recorder.specs.beep_record.specs.declared.verdict.Verdict.{Verdict};
ghost use Rattle.beep_recorder.specs.beep_record.specs.Verdicts.{Replays};
ghost use Rattle.beep_recorder.specs.Said.{log_said};
ghost use Rattle.beep_listener.specs.beep_link.specs.declared.ended.Ended.{Ended};
ghost use Rattle.beep_listener.specs.beep_steps.specs.Logs.{IsLawfulOn, Shows};
ghost use Rattle.beep_runs.specs.Replayed.{IsUnwritten, IsReplayedTo};

/// Where what was written on a link is lawful, the log of the link is never replayed to a rule that
/// it breaks (RFC 3080, section 2.2.1).
pub fn what_is_lawful_is_replayed_as_lawful()
    ensures { (terms : Terms) (log : List Entry) (verdict : Verdict) (old new : List ℕ)
        → IsLawfulOn terms log → Replays (log_said log) verdict old new → IsUnwritten verdict }
{}

/// The log of a link is replayed to what ended its session: to the rule that the peer broke and its
/// octet where that did, and otherwise to none, but perhaps at an octet of the latest read, where
/// the session stopped in that.
pub fn a_run_is_replayed_to_what_ended_it()
    ensures { (terms : Terms) (cause : Ended) (log : List Entry) (verdict : Verdict)
        (old new : List ℕ) → IsLawfulOn terms log → Shows terms cause log
        → Replays (log_said log) verdict old new → IsReplayedTo cause log verdict }
{}
