//! Laws of runs as marks: each function does nothing, and its contract is the fact.
ghost use Rattle.std.specs.Prelude.{◌≡◌, ◌+◌, ℕ, List, ◌++◌, length};
ghost use Rattle.beep_inbox.specs.declared.part.Part.{Part};
ghost use Rattle.beep_inbox.specs.Runs.{Run, run_marks, marks_of, octets_of, put_run, left_runs, AllMarked};
ghost use Rattle.beep_inbox.specs.Untaken.{IsTaken};
ghost use Rattle.beep_inbox.specs.Laws.{part_marks};

/// What is put stands after all marks, whether it joins the last run or not.
pub fn a_put_appends_its_marks()
    ensures { (runs : List Run) (run : Run)
        → marks_of (put_run runs run) ≡ marks_of runs ++ run_marks run }
{}

/// As many octets are untaken more as were put.
pub fn a_put_adds_its_octets()
    ensures { (runs : List Run) (run : Run)
        → octets_of (put_run runs run) ≡ octets_of runs + length run.octets }
{}

/// A take gives the first marks, and leaves the others.
pub fn a_take_gives_the_first_marks()
    ensures { (part : Part) (old new : List Run) (before after : List ℕ)
        → IsTaken part old new before after
        → part_marks part after ++ marks_of new ≡ marks_of old }
{}

/// As many octets are untaken less as were taken.
pub fn a_take_leaves_the_other_octets()
    ensures { (part : Part) (old new : List Run) (before after : List ℕ)
        → IsTaken part old new before after
        → part.len + octets_of new ≡ octets_of old }
{}

/// No run without a mark is put.
pub fn a_put_leaves_marked_runs()
    ensures { (runs : List Run) (run : Run) → AllMarked runs → AllMarked (put_run runs run) }
{}

/// No run without a mark is left.
pub fn a_take_leaves_marked_runs()
    ensures { (count : ℕ) (runs : List Run) → AllMarked runs → AllMarked (left_runs count runs) }
{}
