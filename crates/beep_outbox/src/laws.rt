//! Laws of messages as marks: each function does nothing, and its contract is the fact.
ghost use Rattle.std.specs.Prelude.{◌≡◌, ◌+◌, ℕ, Bool, List, [], ◌∷◌, ◌++◌, length, take};
ghost use Rattle.beep_frame.specs.declared.tag.Tag.{Tag};
ghost use Rattle.beep_outbox.specs.Queue.{Message, message_marks, marks_of, octets_of, first_octets};
ghost use Rattle.beep_outbox.specs.Unsent.{IsCut, cut_marks};

/// A message that is given stands after all marks.
pub fn a_message_appends_its_marks()
    ensures { (messages : List Message) (message : Message)
        → marks_of (messages ++ message ∷ []) ≡ marks_of messages ++ message_marks message }
{}

/// As many octets are unsent more as were given.
pub fn a_message_adds_its_octets()
    ensures { (messages : List Message) (message : Message)
        → octets_of (messages ++ message ∷ []) ≡ octets_of messages + length message.octets }
{}

/// A cut gives the first marks, and leaves the others.
pub fn a_cut_gives_the_first_marks()
    ensures { (most count : ℕ) (tag : Tag) (more : Bool) (old new : List Message)
        → IsCut most tag count more old new
        → cut_marks tag (take count (first_octets old)) more ++ marks_of new ≡ marks_of old }
{}

/// As many octets are unsent less as were cut.
pub fn a_cut_leaves_the_other_octets()
    ensures { (most count : ℕ) (tag : Tag) (more : Bool) (old new : List Message)
        → IsCut most tag count more old new → count + octets_of new ≡ octets_of old }
{}
