//! What an end says in a life above channel zero, as facts: each function does nothing, and its
//! contract is the fact.
ghost use Rattle.std.specs.Prelude.{◌≡◌, ◌+◌, ◌<◌, ◌==◌, ℕ, List, [], ◌∷◌, ◌++◌, true, false, map, flat_map, take};
ghost use Rattle.beep_script.specs.beep_history.specs.declared.journal.Side.{Side};
ghost use Rattle.beep_script.specs.beep_history.specs.Journal.{Item};
ghost use Rattle.beep_script.specs.beep_history.specs.Marks.{Mark, marks, mark_modulo_2_64};
ghost use Rattle.beep_script.specs.beep_history.specs.Broken.{KeepsExchangeRules};
ghost use Rattle.beep_script.specs.beep_journal.specs.declared.role.Role.{Role};
ghost use Rattle.beep_script.specs.beep_journal.specs.Broken.{none_tunes};
ghost use Rattle.beep_script.specs.beep_journal.specs.Journal.{Past, Shows};
ghost use Rattle.beep_script.specs.beep_journal.specs.Laws.{IsLiveLife};
ghost use Rattle.beep_script.specs.beep_journal.specs.Life.{life};
ghost use Rattle.beep_script.specs.beep_journal.specs.Lives.{lives};
ghost use Rattle.beep_script.specs.beep_journal.specs.Log.{Moment, got_all, put_all};
ghost use Rattle.beep_script.specs.beep_journal.specs.Zero.{events, zero_history};
ghost use Rattle.beep_script.specs.beep_lawful.specs.declared.terms.Terms.{Terms};
ghost use Rattle.beep_script.specs.beep_lawful.specs.Lawful.{is_lawful};
ghost use Rattle.beep_script.specs.beep_talk.specs.declared.plan.Command.{Command};
ghost use Rattle.beep_script.specs.beep_talk.specs.Plan.{PlainPlan};
ghost use Rattle.beep_script.specs.beep_talk.specs.Talk.{has_profile, reply_of, talk};
ghost use Rattle.beep_script.specs.Requested.{requests_from, sender_texts, SenderTexts};
ghost use Rattle.beep_script.specs.Script.{message_marks, script_marks, BeginsWith, KeepsScript};
ghost use Rattle.beep_replies.specs.Replies.{KeepsAbove, KeepsAt, first_said, replies, requests_passed, sends_in};

/// What is said in a live life that began with the profile is what is asked as it begins, and then
/// the reply to each request of the peer that has wholly passed there, in order: where the life
/// keeps the rules of the exchange.
pub fn what_is_said_is_replies()
    ensures { (plan : PlainPlan) (number count : ℕ) (journal : List Item)
        → (number == 0) ≡ false → KeepsExchangeRules (life number count journal)
        → IsLiveLife number count (events journal)
        → has_profile plan.raw_uri number count journal ≡ true
        → talk plan number count journal
        ≡ first_said plan number count journal
        ++ replies plan 0 (requests_passed number count journal) }
{}

/// Nothing is said in a life that hasn't begun, nor in one that didn't begin with the profile.
pub fn without_the_profile_nothing_is_said()
    ensures before { (plan : PlainPlan) (number count : ℕ) (journal : List Item)
        → lives number (events journal) < count → talk plan number count journal ≡ [] }
    ensures other { (plan : PlainPlan) (number count : ℕ) (journal : List Item)
        → has_profile plan.raw_uri number count journal ≡ false
        → talk plan number count journal ≡ [] }
{}

/// The replies to more requests begin with those to fewer, and go on at the next position.
pub fn replies_go_on_at_the_next_position()
    ensures { (plan : PlainPlan) (position count : ℕ)
        → replies plan position (count + 1)
        ≡ replies plan position count ++ reply_of plan.command plan.lines (position + count) }
{}

/// What is to be said above channel zero only grows: the marks of a script begin with those that it
/// had before.
pub fn what_is_said_only_grows()
    ensures said { (plan : PlainPlan) (number count : ℕ) (later journal : List Item)
        → BeginsWith (talk plan number count (later ++ journal))
        (talk plan number count journal) }
    ensures marks { (plan : PlainPlan) (number count : ℕ) (later journal : List Item)
        → (number == 0) ≡ false
        → BeginsWith (script_marks plan number count (later ++ journal))
        (script_marks plan number count journal) }
{}

/// What was sent in a life stays a beginning of its script, whatever happens that is no sent frame
/// of that life.
pub fn what_was_sent_stays_of_the_script()
    ensures { (plan : PlainPlan) (number count : ℕ) (item : Item) (journal : List Item)
        → (number == 0) ≡ false → sends_in number count item journal ≡ false
        → KeepsAt plan number count journal
        → KeepsAt plan number count (item ∷ journal) }
{}

/// Where the script is kept it is kept above channel zero.
pub fn a_script_that_is_kept_is_kept_above()
    ensures { (plan : PlainPlan) (journal : List Item) → KeepsScript plan journal
        → KeepsAbove plan journal }
{}

/// What was sent in a live life that began with the profile and where nothing is asked first is of
/// the script, where it is a beginning of replies, positions modulo 2^64: each reply stands at its
/// place, and answers a request that has wholly passed.
pub fn replies_that_were_sent_are_of_the_script()
    ensures { (plan : PlainPlan) (number count : ℕ) (journal : List Item) (many : ℕ)
        (rest : List Mark)
        → (number == 0) ≡ false → KeepsExchangeRules (life number count journal)
        → IsLiveLife number count (events journal)
        → has_profile plan.raw_uri number count journal ≡ true
        → first_said plan number count journal ≡ []
        → map mark_modulo_2_64 (marks Side.Sent (life number count journal)) ++ rest
        ≡ map mark_modulo_2_64 (flat_map message_marks (replies plan 0 many))
        → KeepsAt plan number count journal }
{}

/// What comes takes nothing from a script that is kept above channel zero, and neither does what
/// wasn't written yet from that of a sender.
pub fn a_kept_script_stays_whatever_comes()
    ensures comes { (plan : PlainPlan) (octets : List ℕ) (log : List Moment) (before after : Past)
        → Shows none_tunes log before → Shows none_tunes (got_all octets log) after
        → KeepsAbove plan before.journal → KeepsAbove plan after.journal }
    ensures goes { (plan : PlainPlan) (octets : List ℕ) (log : List Moment) (before after : Past)
        → plan.command ≡ Command.Send
        → Shows none_tunes log before → Shows none_tunes (put_all octets log) after
        → KeepsAbove plan after.journal → KeepsAbove plan before.journal }
{}

/// The life of channel 1 of a lawful initiator that asks no more than a sender does began with the
/// profile that it asks for: the peer's reply chooses one that was listed (RFC 3080, section
/// 2.3.1.2).
pub fn a_sender_s_life_began_with_its_profile()
    ensures { (uri : List ℕ) (terms : Terms) (journal : List Item) (rest : List (List ℕ))
        (count : ℕ) → SenderTexts uri → terms.role ≡ Role.Initiator
        → KeepsExchangeRules (zero_history journal)
        → requests_from [] (marks Side.Sent (zero_history journal)) ++ rest
        ≡ take count (sender_texts uri)
        → is_lawful terms none_tunes journal ≡ true → 0 < lives 1 (events journal)
        → has_profile uri 1 1 journal ≡ true }
{}
