//! Laws above the definitions of specs/. The functions do nothing: what they ensure is the law.
ghost use Rattle.std.specs.Prelude.{◌≡◌, length, None, [], ◌∷◌, ◌++◌, ℕ, List, true};
ghost use Rattle.beep_history.specs.declared.journal.Side.{Side};
ghost use Rattle.beep_history.specs.Journal.{Item};
ghost use Rattle.beep_history.specs.Broken.{KeepsExchangeRules};
ghost use Rattle.beep_journal.specs.Broken.{none_tunes};
ghost use Rattle.beep_journal.specs.Laws.{IsUnbroken};
ghost use Rattle.beep_journal.specs.Life.{life, is_released};
ghost use Rattle.beep_journal.specs.Zero.{zero_history, asked};
ghost use Rattle.beep_lawful.specs.Lawful.{is_lawful};
ghost use Rattle.beep_talk.specs.declared.plan.Command.{Command};
ghost use Rattle.beep_talk.specs.Plan.{PlainPlan};
ghost use Rattle.beep_script.specs.Desk.{desk};
ghost use Rattle.beep_script.specs.EachEnd.{WasGranted, HasSentLines, HasSentAll};
ghost use Rattle.beep_script.specs.Laws.{IsLastAnswer, AreRead, RiseBelow, answered_positions};
ghost use Rattle.beep_script.specs.Lines.{Heard, heard_at, lines};
ghost use Rattle.beep_script.specs.Refused.{refusal};
ghost use Rattle.beep_script.specs.Script.{script, BeginsWith, KeepsScript};
ghost use Rattle.beep_script.specs.Prompt.{IsSettled, is_settled};

/// A script only grows with the journal: each life's messages begin with those that it had before.
pub fn a_script_only_grows()
    ensures { (plan : PlainPlan) (number count : ℕ) (later journal : List Item)
        → BeginsWith (script plan number count (later ++ journal))
        (script plan number count journal) }
{}

/// The answers on channel zero, listed or owed, stand in the order of their requests, and none has
/// two.
pub fn the_answers_stand_in_the_order_of_their_requests()
    ensures { (plan : PlainPlan) (journal : List Item)
        → RiseBelow 0 (answered_positions (desk plan journal))
        (length (asked Side.Received (zero_history journal))) }
{}

/// The test of what is due asks channel zero and the live channels, and that is all of them.
pub fn nothing_is_due_exactly_where_the_test_says()
    ensures settled { (plan : PlainPlan) (journal : List Item) → is_settled plan journal ≡ true
        → IsSettled plan journal }
    ensures test { (plan : PlainPlan) (journal : List Item) → IsSettled plan journal
        → is_settled plan journal ≡ true }
{}

/// Where what a sender sent is the beginning of its script, and its close of channel 1 was granted,
/// what it sent to the listener's first request is its lines, each once and in order, and then
/// their end.
pub fn what_a_sender_sent_whole_is_its_lines()
    ensures { (plan : PlainPlan) (journal : List Item) → plan.command ≡ Command.Send
        → KeepsScript plan journal → KeepsExchangeRules (zero_history journal)
        → KeepsExchangeRules (life 1 1 journal) → WasGranted 2 journal
        → HasSentLines plan journal }
{}

/// What a listener has to write begins with what it had to write before.
pub fn what_was_written_stays()
    ensures { (plan : PlainPlan) (later journal : List Item)
        → BeginsWith (lines plan (later ++ journal)) (lines plan journal) }
{}

/// What a listener writes as an item happens is the entries of one whole answer to what it asked:
/// of the message that the item completes in a live life.
pub fn what_is_written_is_of_one_whole_answer()
    ensures { (plan : PlainPlan) (item : Item) (journal : List Item) (answer : Heard)
        → heard_at plan item journal ≡ answer ∷ [] → IsLastAnswer answer item journal }
{}

/// A lawful sender whose session was released, and that was refused nowhere, sent all of its lines:
/// where what it sent is the beginning of its script, no rule was broken, and its messages of
/// channel zero are read as what they say.
pub fn a_released_sender_sent_all()
    ensures { (plan : PlainPlan) (journal : List Item) → plan.command ≡ Command.Send
        → KeepsScript plan journal → KeepsExchangeRules (zero_history journal)
        → AreRead (desk plan journal).listed → IsUnbroken none_tunes journal
        → is_lawful plan.terms none_tunes journal ≡ true → refusal Command.Send journal ≡ None
        → KeepsExchangeRules (life 1 1 journal) → is_released journal ≡ true
        → HasSentAll plan journal }
{}
