//! What a session's calls make of the log of its link, as facts: each function does nothing, and
//! its contract is the fact.
ghost use Rattle.std.specs.Prelude.{◌≡◌, ℕ, ◌++◌, ◌∷◌, [], List, true, false, None, Some, length};
ghost use Rattle.std.specs.List.{list_any};
ghost use Rattle.beep_peer.specs.beep_frame.specs.declared.head.Head.{Head};
ghost use Rattle.beep_peer.specs.beep_frame.specs.declared.rule.Rule.{Rule};
ghost use Rattle.beep_peer.specs.beep_frame.specs.declared.seq.Seq.{Seq};
ghost use Rattle.beep_peer.specs.beep_frame.specs.Decoding.{DecoderState};
ghost use Rattle.beep_peer.specs.beep_frame.specs.Frame.{framed, seq_frame, IsFrame, IsSeq};
ghost use Rattle.beep_peer.specs.beep_frame.specs.Spelling.{spelling};
ghost use Rattle.beep_peer.specs.beep_history.specs.declared.journal.Side.{Side};
ghost use Rattle.beep_peer.specs.beep_history.specs.Journal.{Item, began, passed, told};
ghost use Rattle.beep_peer.specs.beep_journal.specs.Log.{Moment, got_all, put_all, none, over};
ghost use Rattle.beep_peer.specs.beep_journal.specs.Life.{is_released};
ghost use Rattle.beep_peer.specs.beep_journal.specs.Broken.{none_tunes, broken_content};
ghost use Rattle.beep_peer.specs.beep_journal.specs.Journal.{Past, Shows, spelled};
ghost use Rattle.beep_peer.specs.beep_channel.specs.Held.{Live};
ghost use Rattle.beep_peer.specs.beep_lawful.specs.declared.terms.Terms.{Terms};
ghost use Rattle.beep_peer.specs.beep_lawful.specs.Lawful.{IsLawful, IsLawfulLog};
ghost use Rattle.beep_peer.specs.beep_standing.specs.Standing.{Marks};
ghost use Rattle.beep_peer.specs.beep_hearing.specs.declared.ear.Ear.{Ear};
ghost use Rattle.beep_peer.specs.beep_hearing.specs.Hears.{IsFed, Waits, Join, ends_zero, Breaks};
ghost use Rattle.beep_logged.specs.Logged.{IsLogged, IsLoggedWaiting, IsLoggedBroken, IsSound};

/// Before the first octet a log shows a session in which nothing has happened.
pub fn an_empty_log_shows_the_empty_journal()
    ensures { (terms : Terms) → IsLogged terms [] [] [] }
{}

/// The octets that are read bring to the log's session the items that they bring to the journal, of
/// which none ends a message of channel zero (RFC 3080, section 2.2.1).
pub fn what_is_read_joins_the_journal()
    ensures { (terms : Terms) (fed rest octets after : List ℕ) (journal gained : List Item)
        (log : List Moment) (old new : DecoderState) (used count : ℕ)
        → IsLogged terms rest journal log → IsFed fed rest journal old used
        → IsFed (fed ++ octets) after (gained ++ journal) new count
        → Join gained journal → list_any ends_zero gained ≡ false → is_released journal ≡ false
        → IsLogged terms after (gained ++ journal) (got_all octets log) }
{}

/// Where the last octet that is read ends a message of channel zero, the log shows the journal
/// before it, and that its frame is whole with it (RFC 3080, section 2.3.1).
pub fn what_is_read_may_end_a_message_of_channel_zero()
    ensures { (terms : Terms) (fed rest octets : List ℕ) (journal gained : List Item)
        (log : List Moment) (old : DecoderState) (used size : ℕ) (given taken : Marks)
        (head : Head) (payload : List ℕ) (ear : Ear) (channels : List Live)
        → IsLogged terms rest journal log → IsFed fed rest journal old used
        → Join gained journal → list_any ends_zero gained ≡ false → is_released journal ≡ false
        → Waits size (fed ++ octets) (gained ++ journal) given taken head payload ear channels
        → IsLoggedWaiting terms head payload (gained ++ journal) (got_all octets log) }
{}

/// Such a message passes, where its content breaks no rule; else its last octet broke that rule
/// first.
pub fn a_message_of_channel_zero_passes_or_breaks_a_rule()
    ensures passes { (terms : Terms) (head : Head) (payload : List ℕ) (journal : List Item)
        (log : List Moment) → IsLoggedWaiting terms head payload journal log
        → IsFrame (framed head payload) → is_released journal ≡ false
        → broken_content Side.Received journal head payload ≡ None
        → IsLogged terms [] (passed Side.Received head payload ∷ journal) log }
    ensures breaks { (terms : Terms) (head : Head) (payload : List ℕ) (journal : List Item)
        (log : List Moment) (rule : Rule)
        → (waits : IsLoggedWaiting terms head payload journal log)
        → IsFrame (framed head payload) → is_released journal ≡ false
        → broken_content Side.Received journal head payload ≡ Some rule
        → IsLoggedBroken terms rule (length (spelled Side.Received journal ++ waits.rest)) log }
{}

/// Where octets that are read break a rule, it is the first that was broken, at that octet (RFC
/// 3080, section 2.2.1).
pub fn what_is_read_may_break_a_rule()
    ensures { (terms : Terms) (fed rest octets : List ℕ) (journal : List Item)
        (log : List Moment) (old : DecoderState) (used : ℕ) (rule : Rule) (place size : ℕ)
        (given taken : Marks) (ear : Ear) (channels : List Live)
        → IsLogged terms rest journal log → IsFed fed rest journal old used
        → is_released journal ≡ false
        → (breaks : Breaks rule place size octets fed journal given taken ear channels)
        → IsLoggedBroken terms rule (length (fed ++ breaks.before)) (got_all octets log) }
{}

/// A broken rule is the one fault that the log shows.
pub fn a_log_shows_the_broken_rule()
    ensures { (terms : Terms) (rule : Rule) (place : ℕ) (log : List Moment) (past : Past)
        → IsLoggedBroken terms rule place log → Shows none_tunes log past
        → past.fault ≡ Some (record { side = Side.Received; rule = rule; place = place }) }
{}

/// A lawful frame that is written, header and payload, joins the log's session.
pub fn a_frame_that_is_written_joins_the_journal()
    ensures { (terms : Terms) (rest : List ℕ) (journal : List Item) (log : List Moment)
        (head : Head) (payload : List ℕ) → IsLogged terms rest journal log
        → IsFrame (framed head payload)
        → IsLawful terms none_tunes (passed Side.Sent head payload ∷ began Side.Sent head ∷ journal)
        → IsLogged terms rest (passed Side.Sent head payload ∷ began Side.Sent head ∷ journal)
        (put_all (spelling (framed head payload)) log) }
{}

/// A lawful SEQ that is written joins the log's session (RFC 3081, section 3.1).
pub fn a_seq_that_is_written_joins_the_journal()
    ensures { (terms : Terms) (rest : List ℕ) (journal : List Item) (log : List Moment)
        (seq : Seq) → IsLogged terms rest journal log → IsSeq seq
        → IsLawful terms none_tunes (told Side.Sent seq ∷ journal)
        → IsLogged terms rest (told Side.Sent seq ∷ journal)
        (put_all (spelling (seq_frame seq)) log) }
{}

/// A read that is quiet, and the end of the link, leave the log's session as it was.
pub fn a_quiet_read_and_an_end_leave_the_journal()
    ensures quiet { (terms : Terms) (rest : List ℕ) (journal : List Item) (log : List Moment)
        → IsLogged terms rest journal log → IsLogged terms rest journal (none ∷ log) }
    ensures end { (terms : Terms) (rest : List ℕ) (journal : List Item) (log : List Moment)
        → IsLogged terms rest journal log → IsLogged terms rest journal (over ∷ log) }
{}

/// What is read after the release is no part of the log's session (RFC 3080, section 2.3.1.3).
pub fn what_is_read_after_the_release_changes_nothing()
    ensures { (terms : Terms) (rest octets : List ℕ) (journal : List Item) (log : List Moment)
        → IsLogged terms rest journal log → is_released journal ≡ true
        → IsLogged terms rest journal (got_all octets log) }
{}

/// What is read after a broken rule is none either: that rule stays the first.
pub fn what_is_read_after_a_broken_rule_changes_nothing()
    ensures { (terms : Terms) (rule : Rule) (place : ℕ) (octets : List ℕ) (log : List Moment)
        → IsLoggedBroken terms rule place log
        → IsLoggedBroken terms rule place (got_all octets log) }
{}

/// Whatever is read where each written frame is whole, what was written stays lawful.
pub fn whatever_is_read_leaves_a_log_lawful()
    ensures { (terms : Terms) (rest octets : List ℕ) (journal : List Item) (log : List Moment)
        → IsLogged terms rest journal log → IsLawfulLog terms none_tunes (got_all octets log) }
{}

/// Where the last octets that are to be written aren't, the log shows no broken rule, and each
/// moment of it was lawful (RFC 3080, section 2.2.1).
pub fn a_beginning_of_what_is_written_is_lawful()
    ensures { (terms : Terms) (rest octets : List ℕ) (journal : List Item) (log : List Moment)
        → IsLogged terms rest journal (put_all octets log) → IsSound terms log }
{}
