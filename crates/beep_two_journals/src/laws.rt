//! What holds of two lawful ends of a session, as facts: each function does nothing, and its
//! contract is the fact.
ghost use Rattle.std.specs.Prelude.{◌≡◌, true, false, ℕ, ◌<◌, List, [], ◌∷◌, ◌++◌, None, Some};
ghost use Rattle.beep_frame.specs.declared.head.Head.{Head};
ghost use Rattle.beep_frame.specs.Frame.{is_reply};
ghost use Rattle.beep_history.specs.declared.journal.Side.{Side};
ghost use Rattle.beep_history.specs.Journal.{Item};
ghost use Rattle.beep_history.specs.Marks.{Mark, marks};
ghost use Rattle.beep_history.specs.Moments.{IsRising, reply_positions};
ghost use Rattle.beep_history.specs.Broken.{under_way};
ghost use Rattle.beep_journal.specs.Lives.{lives, is_live};
ghost use Rattle.beep_journal.specs.Zero.{zero_history, completes_form, events};
ghost use Rattle.beep_journal.specs.Life.{life, is_released};
ghost use Rattle.beep_journal.specs.Broken.{none_tunes, broken_content};
ghost use Rattle.beep_journal.specs.Log.{Moment};
ghost use Rattle.beep_journal.specs.Journal.{Past, Shows};
ghost use Rattle.beep_two_ends.specs.Seen.{Sees};
ghost use Rattle.beep_two_ends.specs.OneLife.{IsLawful, NeverBroke};
ghost use Rattle.beep_two_ends.specs.Run.{Step};
ghost use Rattle.beep_lawful.specs.declared.terms.Terms.{Terms};
ghost use Rattle.beep_lawful.specs.Lawful.{IsLawfulLog};
ghost use Rattle.beep_two_journals.specs.Session.{BreaksNothing, NeverBroke as NeverBrokeSession, AreEnds, IsRun};
ghost use Rattle.beep_two_journals.specs.Link.{Move, IsLinked};

/// Who sees all that was sent in a session sees all that was sent on channel zero, with the implied
/// requests (RFC 3080, section 2.3.1).
pub fn channel_zero_is_seen_as_the_session_is()
    ensures { (mine theirs : List Item) → Sees mine theirs
        → Sees (zero_history mine) (zero_history theirs) }
{}

/// A whole reply of channel zero that has the form that its request asks for has it where it
/// arrives (RFC 3080, section 2.3.1).
pub fn a_reply_has_its_form_where_it_arrives()
    ensures { (mine theirs : List Item) (head : Head) (payload : List ℕ)
        → IsLawful mine → NeverBroke mine → IsLawful theirs → NeverBroke theirs → Sees mine theirs
        → under_way Side.Sent mine ≡ Some head → is_reply head.kind ≡ true
        → completes_form Side.Sent head payload mine ≡ true
        → completes_form Side.Received head payload theirs ≡ true }
{}

/// Content that breaks no rule of a session as it is sent breaks none where it arrives: ZeroReply
/// comes of no lawful end.
pub fn content_breaks_no_rule_where_it_arrives()
    ensures { (mine theirs : List Item) (head : Head) (payload : List ℕ)
        → IsLawful (zero_history mine) → NeverBroke (zero_history mine)
        → IsLawful (zero_history theirs) → NeverBroke (zero_history theirs) → Sees mine theirs
        → under_way Side.Sent (zero_history mine) ≡ Some head
        → broken_content Side.Sent mine head payload ≡ None
        → broken_content Side.Received theirs head payload ≡ None }
{}

/// Whatever two lawful ends of a session do, with crossing starts and closes and numbers that are
/// used again, nothing that arrives breaks a rule: no header, no content and no SEQ.
pub fn nothing_breaks_a_rule_in_a_session()
    ensures at_a { (of_a of_b : Terms) (steps : List Step) (a b to_a to_b : List Item)
        → AreEnds of_a of_b → IsRun of_a of_b steps a b to_a to_b → NeverBrokeSession a }
    ensures at_b { (of_a of_b : Terms) (steps : List Step) (a b to_a to_b : List Item)
        → AreEnds of_a of_b → IsRun of_a of_b steps a b to_a to_b → NeverBrokeSession b }
{}

/// The oldest item on a wire between them breaks no rule where it arrives.
pub fn the_next_item_of_a_session_breaks_no_rule()
    ensures to_a { (of_a of_b : Terms) (steps : List Step) (a b to_a to_b : List Item)
        (item : Item) → AreEnds of_a of_b → IsRun of_a of_b steps a b (to_a ++ item ∷ []) to_b
        → BreaksNothing a item }
    ensures to_b { (of_a of_b : Terms) (steps : List Step) (a b to_a to_b : List Item)
        (item : Item) → AreEnds of_a of_b → IsRun of_a of_b steps a b to_a (to_b ++ item ∷ [])
        → BreaksNothing b item }
{}

/// Where a number is live at an end, and all that this end sent has arrived, the other end has
/// begun as many lives of it (RFC 3080, section 2.3.1.2).
pub fn both_ends_count_lives_alike()
    ensures from_a { (of_a of_b : Terms) (steps : List Step) (a b to_a : List Item) (number : ℕ)
        → AreEnds of_a of_b → IsRun of_a of_b steps a b to_a []
        → is_live number (events a) ≡ true → lives number (events b) ≡ lives number (events a) }
    ensures from_b { (of_a of_b : Terms) (steps : List Step) (a b to_b : List Item) (number : ℕ)
        → AreEnds of_a of_b → IsRun of_a of_b steps a b [] to_b
        → is_live number (events b) ≡ true → lives number (events a) ≡ lives number (events b) }
{}

/// The history of each life of a session is lawful as beep_two_ends says it of one life, at both
/// ends, and nothing that arrived in it broke a rule.
pub fn each_life_of_a_session_is_lawful()
    ensures lawful_at_a { (of_a of_b : Terms) (steps : List Step) (a b to_a to_b : List Item)
        (number count : ℕ) → AreEnds of_a of_b → IsRun of_a of_b steps a b to_a to_b
        → 0 < number → 0 < count → IsLawful (life number count a) }
    ensures lawful_at_b { (of_a of_b : Terms) (steps : List Step) (a b to_a to_b : List Item)
        (number count : ℕ) → AreEnds of_a of_b → IsRun of_a of_b steps a b to_a to_b
        → 0 < number → 0 < count → IsLawful (life number count b) }
    ensures unbroken_at_a { (of_a of_b : Terms) (steps : List Step) (a b to_a to_b : List Item)
        (number count : ℕ) → AreEnds of_a of_b → IsRun of_a of_b steps a b to_a to_b
        → 0 < number → 0 < count → NeverBroke (life number count a) }
    ensures unbroken_at_b { (of_a of_b : Terms) (steps : List Step) (a b to_a to_b : List Item)
        (number count : ℕ) → AreEnds of_a of_b → IsRun of_a of_b steps a b to_a to_b
        → 0 < number → 0 < count → NeverBroke (life number count b) }
{}

/// Of each life of a session the marks that arrived at an end are the first of those that the other
/// end sent: octets, ends of messages and the requests that replies name.
pub fn what_arrives_of_a_life_is_a_prefix_of_what_was_sent()
    ensures at_a { (of_a of_b : Terms) (steps : List Step) (a b to_a to_b : List Item)
        (number count : ℕ) → AreEnds of_a of_b → IsRun of_a of_b steps a b to_a to_b
        → 0 < number → 0 < count
        → (later : List Mark) × (marks Side.Sent (life number count b)
        ≡ marks Side.Received (life number count a) ++ later) }
    ensures at_b { (of_a of_b : Terms) (steps : List Step) (a b to_a to_b : List Item)
        (number count : ℕ) → AreEnds of_a of_b → IsRun of_a of_b steps a b to_a to_b
        → 0 < number → 0 < count
        → (later : List Mark) × (marks Side.Sent (life number count a)
        ≡ marks Side.Received (life number count b) ++ later) }
{}

/// The marks of replies that arrived of a life name the requests in their order.
pub fn replies_of_a_life_arrive_in_the_order_of_their_requests()
    ensures at_a { (of_a of_b : Terms) (steps : List Step) (a b to_a to_b : List Item)
        (number count : ℕ) → AreEnds of_a of_b → IsRun of_a of_b steps a b to_a to_b
        → 0 < number → 0 < count
        → IsRising (reply_positions (marks Side.Received (life number count a))) }
    ensures at_b { (of_a of_b : Terms) (steps : List Step) (a b to_a to_b : List Item)
        (number count : ℕ) → AreEnds of_a of_b → IsRun of_a of_b steps a b to_a to_b
        → 0 < number → 0 < count
        → IsRising (reply_positions (marks Side.Received (life number count b))) }
{}

/// Where nothing lies on the wire to an end, each mark that was sent of a life has arrived in it:
/// SEQs alone may come after its end.
pub fn nothing_that_was_sent_of_a_life_is_lost()
    ensures at_a { (of_a of_b : Terms) (steps : List Step) (a b to_b : List Item)
        (number count : ℕ) → AreEnds of_a of_b → IsRun of_a of_b steps a b [] to_b
        → 0 < number → 0 < count
        → marks Side.Sent (life number count b) ≡ marks Side.Received (life number count a) }
    ensures at_b { (of_a of_b : Terms) (steps : List Step) (a b to_a : List Item)
        (number count : ℕ) → AreEnds of_a of_b → IsRun of_a of_b steps a b to_a []
        → 0 < number → 0 < count
        → marks Side.Sent (life number count a) ≡ marks Side.Received (life number count b) }
{}

/// Whatever two lawful ends of a link write, and however it is read, no octet that is read breaks a
/// rule or leaves a dead stream: the session that a log shows has no fault.
pub fn no_octet_that_is_read_breaks_a_rule()
    ensures at_a { (of_a of_b : Terms) (moves : List Move) (a b : List Moment) (to_a to_b : List ℕ)
        (at_a at_b : Past) → AreEnds of_a of_b → IsLinked moves a b to_a to_b
        → IsLawfulLog of_a none_tunes a → IsLawfulLog of_b none_tunes b
        → Shows none_tunes a at_a → Shows none_tunes b at_b → at_a.fault ≡ None }
    ensures at_b { (of_a of_b : Terms) (moves : List Move) (a b : List Moment) (to_a to_b : List ℕ)
        (at_a at_b : Past) → AreEnds of_a of_b → IsLinked moves a b to_a to_b
        → IsLawfulLog of_a none_tunes a → IsLawfulLog of_b none_tunes b
        → Shows none_tunes a at_a → Shows none_tunes b at_b → at_b.fault ≡ None }
{}

/// Of each life the marks that were read are the first of those that were written, however the
/// octets were cut.
pub fn what_is_read_of_a_life_is_a_prefix_of_what_was_written()
    ensures at_a { (of_a of_b : Terms) (moves : List Move) (a b : List Moment) (to_a to_b : List ℕ)
        (at_a at_b : Past) (number count : ℕ) → AreEnds of_a of_b → IsLinked moves a b to_a to_b
        → IsLawfulLog of_a none_tunes a → IsLawfulLog of_b none_tunes b
        → Shows none_tunes a at_a → Shows none_tunes b at_b → 0 < number → 0 < count
        → (later : List Mark) × (marks Side.Sent (life number count at_b.journal)
        ≡ marks Side.Received (life number count at_a.journal) ++ later) }
    ensures at_b { (of_a of_b : Terms) (moves : List Move) (a b : List Moment) (to_a to_b : List ℕ)
        (at_a at_b : Past) (number count : ℕ) → AreEnds of_a of_b → IsLinked moves a b to_a to_b
        → IsLawfulLog of_a none_tunes a → IsLawfulLog of_b none_tunes b
        → Shows none_tunes a at_a → Shows none_tunes b at_b → 0 < number → 0 < count
        → (later : List Mark) × (marks Side.Sent (life number count at_a.journal)
        ≡ marks Side.Received (life number count at_b.journal) ++ later) }
{}

/// Where no octet lies on the wire to an end, and the session isn't released there, each mark that
/// was written of a life was read in it.
pub fn nothing_that_was_written_of_a_life_is_lost()
    ensures at_a { (of_a of_b : Terms) (moves : List Move) (a b : List Moment) (to_b : List ℕ)
        (at_a at_b : Past) (number count : ℕ) → AreEnds of_a of_b → IsLinked moves a b [] to_b
        → IsLawfulLog of_a none_tunes a → IsLawfulLog of_b none_tunes b
        → Shows none_tunes a at_a → Shows none_tunes b at_b
        → is_released at_a.journal ≡ false → 0 < number → 0 < count
        → marks Side.Sent (life number count at_b.journal)
        ≡ marks Side.Received (life number count at_a.journal) }
    ensures at_b { (of_a of_b : Terms) (moves : List Move) (a b : List Moment) (to_a : List ℕ)
        (at_a at_b : Past) (number count : ℕ) → AreEnds of_a of_b → IsLinked moves a b to_a []
        → IsLawfulLog of_a none_tunes a → IsLawfulLog of_b none_tunes b
        → Shows none_tunes a at_a → Shows none_tunes b at_b
        → is_released at_b.journal ≡ false → 0 < number → 0 < count
        → marks Side.Sent (life number count at_a.journal)
        ≡ marks Side.Received (life number count at_b.journal) }
{}
