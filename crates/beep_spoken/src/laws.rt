//! What is given to channel zero is what its frames say as they pass.
ghost use Rattle.std.specs.Prelude.{◌≡◌, ℕ, ◌++◌, ◌∷◌, [], ◌==◌, List, Some, true, false, length, map, take};
ghost use Rattle.beep_frame.specs.declared.head.Head.{Head};
ghost use Rattle.beep_history.specs.declared.journal.Side.{Side};
ghost use Rattle.beep_history.specs.Journal.{Item, passed};
ghost use Rattle.beep_history.specs.Marks.{Mark, marks, mark_modulo_2_64};
ghost use Rattle.beep_history.specs.Broken.{KeepsExchangeRules};
ghost use Rattle.beep_outbox.specs.Queue.{Message, message_marks};
ghost use Rattle.beep_mgmt.specs.Message.{message_said};
ghost use Rattle.beep_journal.specs.Zero.{zero_history, gathered};
ghost use Rattle.beep_journal.specs.Laws.{contents};
ghost use Rattle.beep_spoken.specs.Spoken.{Spoken, text_of, AreSpoken, IsSaid};

/// Before anything is given, nothing was spoken.
pub fn nothing_was_spoken_at_first()
    ensures { AreSpoken [] [] }
{}

/// A message that is given is spoken after those before it.
pub fn what_is_given_is_spoken()
    ensures { (spoken : List Spoken) (given : List Mark) (message : Message) (one : Spoken)
        → AreSpoken spoken given → message.octets ≡ text_of one
        → message_said (text_of one) ≡ Some one.form → message.tag.kind ≡ one.kind
        → AreSpoken (spoken ++ one ∷ []) (given ++ message_marks message) }
{}

/// The whole messages that were sent are the first of those that were given.
pub fn what_is_sent_was_spoken()
    ensures { (spoken : List Spoken) (given unsent : List Mark) (journal : List Item)
        → KeepsExchangeRules (zero_history journal) → AreSpoken spoken given
        → given ≡ map mark_modulo_2_64 (marks Side.Sent (zero_history journal)) ++ unsent
        → contents Side.Sent journal
        ≡ map text_of (take (length (contents Side.Sent journal)) spoken) }
{}

/// The message whose last frame passes is the next of those that were given, and says what it was
/// given to say, however it was cut into frames.
pub fn a_message_that_passes_says_what_was_spoken()
    ensures { (spoken : List Spoken) (given unsent : List Mark) (journal : List Item)
        (head : Head) (payload : List ℕ)
        → KeepsExchangeRules (zero_history (passed Side.Sent head payload ∷ journal))
        → AreSpoken spoken given
        → given ≡ map mark_modulo_2_64
        (marks Side.Sent (zero_history (passed Side.Sent head payload ∷ journal))) ++ unsent
        → (head.channel == 0) ≡ true → head.more ≡ false
        → IsSaid spoken (length (contents Side.Sent journal)) head.kind
        (gathered Side.Sent (zero_history journal) ++ payload) }
{}
