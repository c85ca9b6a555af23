//! What the text of a schedule means, as facts that hold of every text: each function does nothing,
//! and its contract is the fact.
ghost use Rattle.std.specs.Prelude.{◌≡◌, ℕ, List, length};
ghost use Rattle.beep_schedule.specs.declared.limits.TheConstants.{EVENTS};
ghost use Rattle.beep_schedule.specs.declared.event.PairEvent.{PairEvent as EventValue};
ghost use Rattle.beep_schedule.specs.Schedule.{Says};
ghost use Rattle.beep_schedule.specs.Refused.{IsBadAt};
ghost use Rattle.beep_schedule.specs.Generated.{generated_events};

/// A text says one list of events.
pub fn a_text_says_one_schedule()
    ensures { (text : List ℕ) (one other : List EventValue) → Says text one → Says text other
        → one ≡ other }
{}

/// A text that says events has no bad line.
pub fn a_schedule_has_no_bad_line()
    ensures { (text : List ℕ) (events : List EventValue) (number : ℕ) → Says text events
        → IsBadAt text number → ⊥ }
{}

/// A text has one first bad line.
pub fn a_text_has_one_first_bad_line()
    ensures { (text : List ℕ) (one other : ℕ) → IsBadAt text one → IsBadAt text other
        → one ≡ other }
{}

/// The schedule of a number has 9,027 events.
pub fn a_generated_schedule_has_9027_events()
    ensures { (seed : ℕ) → length (generated_events seed) ≡ EVENTS }
{}
