//! What a release tells of a sender, as facts: each function does nothing, and its contract is the
//! fact.
ghost use Rattle.std.specs.Prelude.{◌≡◌, ◌≤◌, ℕ, List, [], ◌++◌, true, None, take};
ghost use Rattle.beep_script.specs.beep_history.specs.declared.journal.Side.{Side};
ghost use Rattle.beep_script.specs.beep_history.specs.Journal.{Item};
ghost use Rattle.beep_script.specs.beep_history.specs.Marks.{marks};
ghost use Rattle.beep_script.specs.beep_history.specs.Broken.{KeepsExchangeRules};
ghost use Rattle.beep_script.specs.beep_journal.specs.Broken.{none_tunes};
ghost use Rattle.beep_script.specs.beep_journal.specs.Laws.{IsUnbroken};
ghost use Rattle.beep_script.specs.beep_journal.specs.Life.{is_released};
ghost use Rattle.beep_script.specs.beep_journal.specs.Zero.{zero_history};
ghost use Rattle.beep_script.specs.beep_lawful.specs.declared.terms.Terms.{Terms};
ghost use Rattle.beep_script.specs.beep_lawful.specs.Lawful.{is_lawful};
ghost use Rattle.beep_script.specs.beep_talk.specs.declared.plan.Command.{Command};
ghost use Rattle.beep_script.specs.EachEnd.{WasGranted};
ghost use Rattle.beep_script.specs.Refused.{refusal};
ghost use Rattle.beep_script.specs.Requested.{requests_from, sender_texts, SenderTexts};

/// The own close of channel 1 was granted where the session of a lawful end that asks no more than
/// a sender does was released, no rule was broken, and the peer refused nothing: the own close of 0
/// goes only where that close is answered, and so does the `ok` to the peer's (RFC 3080, section
/// 2.3.1.3).
pub fn the_close_of_a_released_sender_was_granted()
    ensures { (uri : List ℕ) (terms : Terms) (journal : List Item) (rest : List (List ℕ))
        (count : ℕ) → SenderTexts uri → KeepsExchangeRules (zero_history journal)
        → requests_from [] (marks Side.Sent (zero_history journal)) ++ rest
        ≡ take count (sender_texts uri)
        → IsUnbroken none_tunes journal → is_lawful terms none_tunes journal ≡ true
        → refusal Command.Send journal ≡ None → is_released journal ≡ true
        → WasGranted 2 journal }
{}

/// What was granted was asked: a sender whose close of channel 1 was granted asked two requests.
pub fn a_granted_close_was_asked()
    ensures { (uri : List ℕ) (journal : List Item) (rest : List (List ℕ)) (count : ℕ)
        → KeepsExchangeRules (zero_history journal)
        → requests_from [] (marks Side.Sent (zero_history journal)) ++ rest
        ≡ take count (sender_texts uri)
        → WasGranted 2 journal → 2 ≤ count }
{}
