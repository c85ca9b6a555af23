//! What each item, and each message that is given, makes of what is kept: each function does
//! nothing, and its contract is the fact.
ghost use Rattle.std.specs.Prelude.{◌≡◌, ℕ, ◌<◌, ◌≤◌, ◌==◌, ◌++◌, ◌∷◌, [], List, length, map, Bool, true, false, Some, None};
ghost use Rattle.beep_asked.specs.beep_frame.specs.declared.kind.Kind.{Kind};
ghost use Rattle.beep_asked.specs.beep_frame.specs.declared.head.Head.{Head};
ghost use Rattle.beep_asked.specs.beep_frame.specs.declared.seq.Seq.{Seq};
ghost use Rattle.beep_asked.specs.beep_frame.specs.Frame.{is_msg, is_reply, is_ans, same_kind};
ghost use Rattle.beep_asked.specs.beep_history.specs.declared.journal.Side.{Side};
ghost use Rattle.beep_asked.specs.beep_history.specs.Journal.{Item, began, passed, told};
ghost use Rattle.beep_asked.specs.beep_history.specs.Marks.{marks, mark_modulo_2_64};
ghost use Rattle.beep_asked.specs.beep_mgmt.specs.Message.{message_said};
ghost use Rattle.beep_asked.specs.beep_outbox.specs.Queue.{Message, message_marks};
ghost use Rattle.beep_asked.specs.beep_journal.specs.Zero.{zero_history, events, gathered, channel_of};
ghost use Rattle.beep_asked.specs.beep_channel.specs.Held.{Live};
ghost use Rattle.beep_asked.specs.beep_channel.specs.Stands.{Stands};
ghost use Rattle.beep_asked.specs.beep_standing.specs.Standing.{Marks, no_marks, with_marks, AreLive, AreLiveBy};
ghost use Rattle.beep_asked.specs.beep_standing.specs.Moving.{MovesNone};
ghost use Rattle.beep_spoken.specs.Spoken.{Spoken, text_of};
ghost use Rattle.beep_asked.specs.Kept.{Kept, Queue, implied_request, new_kept, fits, grants, after_grant};
ghost use Rattle.beep_asked.specs.Asked.{SaysLive, EndsRequest, EndsReply};
ghost use Rattle.beep_asked.specs.Granting.{IsGranted};
ghost use Rattle.beep_management.specs.Managed.{Prepared, Managed, number_started, numbers_granted};
ghost use Rattle.beep_management.specs.Manages.{Manages, IsPrepared, AreFresh};
ghost use Rattle.beep_management.specs.Moved.{Does, is_live_in, marks_after};
ghost use Rattle.beep_management.specs.Steps.{answers_after};

/// In a new session the implied requests wait, and the greeting is prepared (RFC 3080, section
/// 2.3.1.1).
pub fn a_new_session_keeps_the_implied_requests()
    ensures { (size : ℕ) (m : Managed) (answer : Prepared) (one : Spoken)
        → IsPrepared answer one → fits one.kind (Some one.form) implied_request ≡ true
        → m.mine.requests ≡ implied_request ∷ [] → m.acts.requests ≡ []
        → m.theirs.requests ≡ implied_request ∷ [] → m.answers ≡ answer ∷ []
        → m.starting ≡ [] → m.granted ≡ [] → Manages size [] no_marks m }
{}

// ---- what leaves it

/// A header, a SEQ, and a frame that ends no message of channel zero leave what is kept.
pub fn what_ends_no_message_leaves_it()
    ensures header { (size : ℕ) (journal : List Item) (given : Marks) (m : Managed) (by : Side)
        (head : Head) → Manages size journal given m
        → Manages size (began by head ∷ journal) given m }
    ensures seq { (size : ℕ) (journal : List Item) (given : Marks) (m : Managed) (by : Side)
        (seq : Seq) → Manages size journal given m
        → Manages size (told by seq ∷ journal) given m }
    ensures above { (size : ℕ) (journal : List Item) (given : Marks) (m : Managed) (by : Side)
        (head : Head) (payload : List ℕ) → (head.channel == 0) ≡ false
        → Manages size journal given m → Manages size (passed by head payload ∷ journal) given m }
    ensures part { (size : ℕ) (journal : List Item) (given : Marks) (m : Managed) (by : Side)
        (head : Head) (payload : List ℕ) → head.more ≡ true
        → Manages size journal given m → Manages size (passed by head payload ∷ journal) given m }
{}

/// What is given above zero leaves what is kept of channel zero.
pub fn what_is_given_above_leaves_it()
    ensures { (size : ℕ) (journal : List Item) (old new : Marks) (m : Managed)
        → new 0 ≡ old 0 → Manages size journal old m → Manages size journal new m }
{}

/// Room that is made, and what an answer waits for, change nothing of what is kept: a grant clears
/// what waits for the life that it ends.
pub fn room_and_waits_change_nothing()
    ensures room { (size : ℕ) (journal : List Item) (given : Marks) (old new : Managed)
        → Manages size journal given old
        → new.mine.requests ≡ old.mine.requests → new.acts.requests ≡ old.acts.requests
        → new.theirs.requests ≡ old.theirs.requests → new.answers ≡ old.answers
        → new.starting ≡ old.starting → new.granted ≡ old.granted
        → length new.acts.requests ≤ new.mine.room → Manages size journal given new }
    ensures waits { (size : ℕ) (journal : List Item) (given : Marks) (m : Managed) (one : Kept)
        → Manages size journal given m
        → Manages size journal given (record m { answers = answers_after one m.answers }) }
{}

// ---- received

/// The last frame of a request of the peer puts it before those that wait, its answer after those
/// that are prepared, and the channel that it is to be granted, if it is, after the others.
pub fn a_request_that_came_is_kept()
    ensures { (size : ℕ) (journal : List Item) (given : Marks) (m : Managed) (head : Head)
        (payload : List ℕ) (live : ℕ → Bool) (kept : Kept) (answer : Prepared) (one : Spoken)
        (fresh : List Live) (theirs : Queue)
        → Manages size journal given m → (head.channel == 0) ≡ true
        → EndsRequest Side.Received head (zero_history journal) → SaysLive live (events journal)
        → kept ≡ new_kept live
        (message_said (gathered Side.Received (zero_history journal) ++ payload))
        → IsPrepared answer one → fits one.kind (Some one.form) kept ≡ true
        → AreFresh size (numbers_granted (one ∷ []) (kept ∷ [])) fresh
        → theirs.requests ≡ kept ∷ m.theirs.requests
        → Manages size (passed Side.Received head payload ∷ journal) given (record m {
          theirs = theirs;
          answers = m.answers ++ answer ∷ [];
          granted = m.granted ++ fresh;
        }) }
{}

/// A whole reply of the peer takes the oldest own request that waits, and its channel, where it is
/// a start; one that grants a close of a live life clears all requests that name it.
pub fn a_reply_that_came_takes_the_oldest()
    ensures waits { (size : ℕ) (journal : List Item) (given : Marks) (m : Managed) (head : Head)
        → Manages size journal given m → EndsReply Side.Received head (zero_history journal)
        → 0 < length m.mine.requests }
    ensures fresh { (size : ℕ) (journal : List Item) (given : Marks) (m : Managed)
        (later : List Kept) (one : Kept) (first starting : List Live)
        → Manages size journal given m → m.mine.requests ≡ later ++ one ∷ []
        → m.starting ≡ first ++ starting → length first ≡ length (number_started one.said)
        → AreFresh size (number_started one.said) first }
    ensures channel { (size : ℕ) (journal : List Item) (given : Marks) (m : Managed)
        (later : List Kept) (one : Kept) → Manages size journal given m
        → m.mine.requests ≡ later ++ one ∷ []
        → length (number_started one.said) ≤ length m.starting }

    ensures refused { (size : ℕ) (journal : List Item) (given : Marks) (m : Managed)
        (head : Head) (payload : List ℕ) (later : List Kept) (one : Kept)
        (first starting : List Live) (mine : Queue)
        → Manages size journal given m → (head.channel == 0) ≡ true
        → EndsReply Side.Received head (zero_history journal)
        → m.mine.requests ≡ later ++ one ∷ []
        → grants head.kind
        (message_said (gathered Side.Received (zero_history journal) ++ payload)) one ≡ false
        → m.starting ≡ first ++ starting → length first ≡ length (number_started one.said)
        → mine.requests ≡ later → length m.acts.requests ≤ mine.room
        → Manages size (passed Side.Received head payload ∷ journal) given
        (record m { mine = mine; starting = starting }) }
    ensures granted { (size : ℕ) (journal : List Item) (given : Marks) (m : Managed)
        (head : Head) (payload : List ℕ) (later : List Kept) (one : Kept)
        (first starting : List Live) (mine acts theirs : Queue)
        → Manages size journal given m → (head.channel == 0) ≡ true
        → EndsReply Side.Received head (zero_history journal)
        → m.mine.requests ≡ later ++ one ∷ []
        → grants head.kind
        (message_said (gathered Side.Received (zero_history journal) ++ payload)) one ≡ true
        → m.starting ≡ first ++ starting → length first ≡ length (number_started one.said)
        → mine.requests ≡ after_grant one later → length m.acts.requests ≤ mine.room
        → acts.requests ≡ after_grant one m.acts.requests
        → theirs.requests ≡ after_grant one m.theirs.requests
        → Manages size (passed Side.Received head payload ∷ journal) given
        (record m { mine = mine; acts = acts; theirs = theirs; starting = starting }) }
{}

// ---- sent

/// The last frame of an own request that goes out is that of the oldest act, which then waits.
pub fn a_request_that_goes_out_waits()
    ensures acts { (size : ℕ) (lives journal : List Item) (given taken : Marks)
        (channels : List Live) (m : Managed) (head : Head) (payload : List ℕ)
        → Manages size (began Side.Sent head ∷ journal) given m
        → AreLive size lives (passed Side.Sent head payload ∷ began Side.Sent head ∷ journal)
        given taken channels
        → (head.channel == 0) ≡ true → head.more ≡ false → is_msg head.kind ≡ true
        → 0 < length m.acts.requests }
    ensures waits { (size : ℕ) (lives journal : List Item) (given taken : Marks)
        (channels : List Live) (m : Managed) (head : Head) (payload : List ℕ)
        (live : ℕ → Bool) (later : List Kept) (one : Kept) (mine acts : Queue)
        → Manages size (began Side.Sent head ∷ journal) given m
        → AreLive size lives (passed Side.Sent head payload ∷ began Side.Sent head ∷ journal)
        given taken channels
        → (head.channel == 0) ≡ true → head.more ≡ false → is_msg head.kind ≡ true
        → SaysLive live (events (began Side.Sent head ∷ journal))
        → m.acts.requests ≡ later ++ one ∷ [] → acts.requests ≡ later
        → mine.requests ≡ new_kept live one.said ∷ m.mine.requests
        → length later ≤ mine.room
        → Manages size (passed Side.Sent head payload ∷ began Side.Sent head ∷ journal) given
        (record m { mine = mine; acts = acts }) }
    ensures moves { (size : ℕ) (lives journal : List Item) (given taken : Marks)
        (channels : List Live) (head : Head) (payload : List ℕ)
        → AreLive size lives (passed Side.Sent head payload ∷ began Side.Sent head ∷ journal)
        given taken channels
        → (head.channel == 0) ≡ true → head.more ≡ false → is_msg head.kind ≡ true
        → MovesNone (events (began Side.Sent head ∷ journal))
        (events (passed Side.Sent head payload ∷ began Side.Sent head ∷ journal)) }
{}

/// The last frame of an own reply that goes out answers the oldest request of the peer that waits:
/// RPY grants it, and ERR refuses it. A grant of a start takes the oldest channel that is to be
/// granted.
pub fn a_reply_that_goes_out_answers()
    ensures waits { (size : ℕ) (lives journal : List Item) (given taken : Marks)
        (channels : List Live) (m : Managed) (head : Head) (payload : List ℕ)
        → Manages size (began Side.Sent head ∷ journal) given m
        → AreLive size lives (passed Side.Sent head payload ∷ began Side.Sent head ∷ journal)
        given taken channels
        → (head.channel == 0) ≡ true → head.more ≡ false → is_msg head.kind ≡ false
        → 0 < length m.theirs.requests }
    ensures channel { (size : ℕ) (lives journal : List Item) (given taken : Marks)
        (channels : List Live) (m : Managed) (head : Head) (payload : List ℕ)
        (later : List Kept) (one : Kept)
        → Manages size (began Side.Sent head ∷ journal) given m
        → AreLive size lives (passed Side.Sent head payload ∷ began Side.Sent head ∷ journal)
        given taken channels
        → (head.channel == 0) ≡ true → head.more ≡ false → same_kind Kind.Rpy head.kind ≡ true
        → m.theirs.requests ≡ later ++ one ∷ []
        → length (number_started one.said) ≤ length m.granted }

    ensures refused { (size : ℕ) (lives journal : List Item) (given taken : Marks)
        (channels : List Live) (m : Managed) (head : Head) (payload : List ℕ)
        (later : List Kept) (one : Kept) (theirs : Queue)
        → Manages size (began Side.Sent head ∷ journal) given m
        → AreLive size lives (passed Side.Sent head payload ∷ began Side.Sent head ∷ journal)
        given taken channels
        → (head.channel == 0) ≡ true → head.more ≡ false → is_msg head.kind ≡ false
        → same_kind Kind.Rpy head.kind ≡ false
        → m.theirs.requests ≡ later ++ one ∷ [] → theirs.requests ≡ later
        → Manages size (passed Side.Sent head payload ∷ began Side.Sent head ∷ journal) given
        (record m { theirs = theirs })
        × MovesNone (events (began Side.Sent head ∷ journal))
        (events (passed Side.Sent head payload ∷ began Side.Sent head ∷ journal)) }
    ensures granted { (size : ℕ) (lives journal : List Item) (given taken : Marks)
        (channels : List Live) (m : Managed) (head : Head) (payload : List ℕ)
        (live : ℕ → Bool) (later : List Kept) (one : Kept) (first granted : List Live)
        (mine acts theirs : Queue)
        → Manages size (began Side.Sent head ∷ journal) given m
        → AreLive size lives (passed Side.Sent head payload ∷ began Side.Sent head ∷ journal)
        given taken channels
        → (head.channel == 0) ≡ true → head.more ≡ false → same_kind Kind.Rpy head.kind ≡ true
        → SaysLive live (events (began Side.Sent head ∷ journal))
        → m.theirs.requests ≡ later ++ one ∷ []
        → m.granted ≡ first ++ granted → length first ≡ length (number_started one.said)
        → mine.requests ≡ after_grant one m.mine.requests
        → length m.acts.requests ≤ mine.room
        → acts.requests ≡ after_grant one m.acts.requests
        → theirs.requests ≡ after_grant one later
        → Manages size (passed Side.Sent head payload ∷ began Side.Sent head ∷ journal) given
        (record m { mine = mine; acts = acts; theirs = theirs; granted = granted })
        × AreFresh size (number_started one.said) first
        × IsGranted live one (events (began Side.Sent head ∷ journal))
        (events (passed Side.Sent head payload ∷ began Side.Sent head ∷ journal)) }
{}

// ---- given

/// A request that is given is the latest act, and its channel, where it is a start, comes after the
/// others.
pub fn a_request_that_is_given_is_kept()
    ensures { (size : ℕ) (journal : List Item) (given : Marks) (m : Managed) (kept : Kept)
        (one : Spoken) (message : Message) (fresh : List Live) (mine acts : Queue)
        → Manages size journal given m → one.kind ≡ Kind.Msg → message.tag.kind ≡ one.kind
        → message.octets ≡ text_of one → message_said (text_of one) ≡ Some one.form
        → kept.said ≡ Some one.form → kept.implied ≡ false
        → AreFresh size (number_started kept.said) fresh
        → acts.requests ≡ kept ∷ m.acts.requests → mine.requests ≡ m.mine.requests
        → length acts.requests ≤ mine.room
        → Manages size journal (with_marks 0 (given 0 ++ message_marks message) given) (record m {
          mine = mine;
          acts = acts;
          starting = m.starting ++ fresh;
        }) }
{}

/// The first answer that is prepared is given: channel zero owes it.
pub fn an_answer_that_is_given_is_spoken()
    ensures given { (size : ℕ) (journal : List Item) (given : Marks) (m : Managed)
        (first : Prepared) (answers : List Prepared) (message : Message)
        → Manages size journal given m → m.answers ≡ first ∷ answers
        → message.tag.kind ≡ first.kind → message.octets ≡ first.octets
        → Manages size journal (with_marks 0 (given 0 ++ message_marks message) given)
        (record m { answers = answers }) }
    ensures kind { (size : ℕ) (journal : List Item) (given : Marks) (m : Managed)
        (first : Prepared) (answers : List Prepared) → Manages size journal given m
        → m.answers ≡ first ∷ answers
        → (is_reply first.kind ≡ true) × (is_ans first.kind ≡ false) }
    ensures owed { (size : ℕ) (journal : List Item) (given taken : Marks) (m : Managed)
        (channel : Live) → Manages size journal given m
        → Stands size channel.held (zero_history journal) (given 0) (taken 0)
        → channel.held.number ≡ 0
        → taken 0 ≡ map mark_modulo_2_64 (marks Side.Received (zero_history journal))
        → (channel.held.life.given.owed ≡ length m.answers)
        × (channel.held.life.given.answers ≡ None) }
{}

// ---- lives

/// What a grant makes of lives, done to the channels: they stand for the whole journal again.
pub fn a_grant_is_done()
    ensures live { (size : ℕ) (lives journal : List Item) (given taken : Marks)
        (channels : List Live) → AreLive size lives journal given taken channels
        → SaysLive (is_live_in channels) (events lives) }
    ensures done { (size : ℕ) (lives : List Item) (given taken : Marks) (old new : List Live)
        (item : Item) (one : Kept) (channel : Live)
        → AreLive size lives (item ∷ lives) given taken old → (channel_of item == 0) ≡ true
        → IsGranted (is_live_in old) one (events lives) (events (item ∷ lives))
        → Does size one.said one.names channel old new
        → AreLiveBy size (item ∷ lives) (marks_after one.said old given)
        (marks_after one.said old taken) new }
{}
