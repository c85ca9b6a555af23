//! What each step of a channel makes of the journal for which a session's channels stand, and what
//! the channels tell of it: each function does nothing, and its contract is the fact.
ghost use Rattle.std.specs.Prelude.{◌≡◌, ◌↔◌, ℕ, ◌==◌, ◌&&◌, ◌∷◌, ◌++◌, [], List, Bool, true, false, map, Option, None, Some, is_some, if◌then◌else◌};
ghost use Rattle.std.specs.List.{list_any};
ghost use Rattle.beep_frame.specs.declared.head.Head.{Head};
ghost use Rattle.beep_frame.specs.declared.seq.Seq.{Seq};
ghost use Rattle.beep_frame.specs.declared.rule.Rule.{Rule};
ghost use Rattle.beep_history.specs.declared.journal.Side.{Side};
ghost use Rattle.beep_history.specs.Journal.{Item, began, passed, told, opening};
ghost use Rattle.beep_history.specs.Marks.{Mark, marks, mark_modulo_2_64};
ghost use Rattle.beep_history.specs.Broken.{broken_rule, under_way};
ghost use Rattle.beep_history.specs.Windows.{is_bad_ack};
ghost use Rattle.beep_inbox.specs.declared.part.Part.{Part};
ghost use Rattle.beep_inbox.specs.Laws.{part_marks};
ghost use Rattle.beep_journal.specs.Zero.{channel_of, events};
ghost use Rattle.beep_journal.specs.Life.{history, is_there};
ghost use Rattle.beep_journal.specs.Broken.{broken_seq};
ghost use Rattle.beep_channel.specs.Held.{Live, is_held_drained, is_held_ready, is_seq_due_of};
ghost use Rattle.beep_channel.specs.Stands.{Stands, IsNext, IsTold};
ghost use Rattle.beep_channel.specs.Drained.{IsDrained};
ghost use Rattle.beep_lives.specs.Lives.{live_at, lives_judged, has_begun, can_send, owes_seq};
ghost use Rattle.beep_lives.specs.Edits.{Begins, Arrives, Obeys, Sends, Tells, Gives, Takes, KeepsHeld, Edits, EditsWhere, Joins, Leaves};
ghost use Rattle.beep_standing.specs.Standing.{Marks, no_marks, with_marks, AreLive, AreLiveBy};
ghost use Rattle.beep_standing.specs.Moving.{MovesNone, BeginsLife, EndsLife, Moves};
ghost use Rattle.beep_standing.specs.Due.{has_due, has_ready};

/// The channels of a new session stand for the empty journal: channel zero alone, whose implied
/// requests have passed (RFC 3080, section 2.3.1.1).
pub fn a_new_session_stands()
    ensures { (size : ℕ) (channel : Live) → channel.held.number ≡ 0
        → Stands size channel.held opening [] []
        → AreLiveBy size [] no_marks no_marks (channel ∷ []) }
{}

// ---- received

/// A received header is judged by the history of its channel, and breaks a rule where its channel
/// isn't there (RFC 3080, section 2.2.1.1).
pub fn a_header_is_judged_by_its_life()
    ensures { (size : ℕ) (journal : List Item) (given taken : Marks) (channels : List Live)
        (head : Head) → AreLiveBy size journal given taken channels
        → lives_judged channels head ≡ (if is_there head.channel journal
        then broken_rule Side.Received (history head.channel journal) head
        else Some Rule.NoSuchChannel) }
{}

/// A received SEQ breaks a rule exactly where its channel is there and it is a bad one by the
/// history of that (RFC 3081, section 3.1).
pub fn a_seq_is_judged_by_its_life()
    ensures { (size : ℕ) (journal : List Item) (given taken : Marks) (channels : List Live)
        (seq : Seq) (bad : Bool) → AreLiveBy size journal given taken channels
        → (live_at seq.channel channels ≡ None → bad ≡ false)
        → ((c : Live) → live_at seq.channel channels ≡ Some c → (size : ℕ) (past : List Item)
        (given taken : List Mark) → Stands size c.held past given taken
        → bad ≡ is_bad_ack Side.Received past seq)
        → (if bad then Some Rule.BadAck else None) ≡ broken_seq Side.Received journal seq }
{}

/// The frame under way in a channel is that of the session: there is none where the session has
/// none, and one of channel zero is under way in channel zero.
pub fn a_frame_under_way_is_in_its_channel()
    ensures none { (size : ℕ) (lives journal : List Item) (given taken : Marks)
        (channels : List Live) (n : ℕ) (c : Live)
        → AreLive size lives journal given taken channels
        → under_way Side.Received journal ≡ None → live_at n channels ≡ Some c
        → c.held.life.received.under_way ≡ None }
    ensures same { (size : ℕ) (lives journal : List Item) (given taken : Marks)
        (channels : List Live) (n : ℕ) (c : Live) (head : Head)
        → AreLive size lives journal given taken channels
        → live_at n channels ≡ Some c → c.held.life.received.under_way ≡ Some head
        → under_way Side.Received journal ≡ Some head }
    ensures zero { (size : ℕ) (journal : List Item) (given taken : Marks) (channels : List Live)
        (head : Head) → AreLiveBy size journal given taken channels
        → under_way Side.Received journal ≡ Some head → (head.channel == 0) ≡ true
        → has_begun (live_at head.channel channels) ≡ true }
{}

/// A received header joins the journal.
pub fn a_received_header_joins()
    ensures { (size : ℕ) (journal : List Item) (given taken : Marks) (old new : List Live)
        (head : Head) → AreLiveBy size journal given taken old
        → under_way Side.Received journal ≡ None
        → Edits head.channel (Begins head) old new
        → AreLiveBy size (began Side.Received head ∷ journal) given taken new }
{}

/// A received frame of a channel above zero joins the journal, whether its life goes on or has
/// ended since its header.
pub fn a_received_frame_joins()
    ensures { (size : ℕ) (journal : List Item) (given taken : Marks) (old new : List Live)
        (head : Head) (payload : List ℕ) (goes_on : Bool)
        → AreLiveBy size journal given taken old
        → under_way Side.Received journal ≡ Some head → (head.channel == 0) ≡ false
        → EditsWhere goes_on head.channel (Arrives head payload) old new
        → goes_on ≡ has_begun (live_at head.channel old)
        → AreLiveBy size (passed Side.Received head payload ∷ journal) given taken new }
{}

/// A received frame of channel zero joins the journal; what it says is still to be done.
pub fn a_received_frame_of_channel_zero_joins()
    ensures { (size : ℕ) (journal : List Item) (given taken : Marks) (old new : List Live)
        (head : Head) (payload : List ℕ) (goes_on : Bool)
        → AreLiveBy size journal given taken old
        → under_way Side.Received journal ≡ Some head → (head.channel == 0) ≡ true
        → EditsWhere goes_on head.channel (Arrives head payload) old new
        → goes_on ≡ has_begun (live_at head.channel old)
        → AreLive size journal (passed Side.Received head payload ∷ journal) given taken new }
{}

/// A received SEQ joins the journal: its channel obeys it, where it has one.
pub fn a_received_seq_joins()
    ensures { (size : ℕ) (journal : List Item) (given taken : Marks) (old new : List Live)
        (seq : Seq) → AreLiveBy size journal given taken old
        → EditsWhere (is_some (live_at seq.channel old)) seq.channel (Obeys seq) old new
        → AreLiveBy size (told Side.Received seq ∷ journal) given taken new }
{}

// ---- sent

/// A frame of a channel above zero that is cut joins the journal, header and frame at once.
pub fn a_sent_frame_joins()
    ensures { (size most : ℕ) (journal : List Item) (given taken : Marks) (old new : List Live)
        (head : Head) (payload : List ℕ) → AreLiveBy size journal given taken old
        → (head.channel == 0) ≡ false
        → Edits head.channel (Sends most head payload) old new
        → AreLiveBy size (passed Side.Sent head payload ∷ began Side.Sent head ∷ journal)
        given taken new }
{}

/// A frame of channel zero that is cut joins the journal; what it says is still to be done.
pub fn a_sent_frame_of_channel_zero_joins()
    ensures { (size most : ℕ) (journal : List Item) (given taken : Marks) (old new : List Live)
        (head : Head) (payload : List ℕ) → AreLiveBy size journal given taken old
        → (head.channel == 0) ≡ true
        → Edits head.channel (Sends most head payload) old new
        → AreLive size (began Side.Sent head ∷ journal)
        (passed Side.Sent head payload ∷ began Side.Sent head ∷ journal) given taken new }
{}

/// A SEQ that is sent joins the journal.
pub fn a_sent_seq_joins()
    ensures { (size : ℕ) (journal : List Item) (given taken : Marks) (old new : List Live)
        (seq : Seq) → AreLiveBy size journal given taken old
        → Edits seq.channel (Tells seq) old new
        → AreLiveBy size (told Side.Sent seq ∷ journal) given taken new }
{}

/// A frame that is sent is lawful over the history of its life, and carries the next of what was
/// given in it; a SEQ that is sent is due by that history, and lawful (RFC 3081, section 3.1).
pub fn what_is_sent_is_lawful()
    ensures there { (size most : ℕ) (journal : List Item) (given taken : Marks)
        (old new : List Live) (head : Head) (payload : List ℕ)
        → AreLiveBy size journal given taken old
        → Edits head.channel (Sends most head payload) old new
        → is_there head.channel journal ≡ true }
    ensures frame { (size most : ℕ) (journal : List Item) (given taken : Marks)
        (old new : List Live) (head : Head) (payload : List ℕ)
        → AreLiveBy size journal given taken old
        → (e : Edits head.channel (Sends most head payload) old new)
        → IsNext size most e.before.held e.after.held (history head.channel journal)
        (given head.channel) (taken head.channel) head payload }
    ensures due { (size : ℕ) (journal : List Item) (given taken : Marks) (old new : List Live)
        (seq : Seq) → AreLiveBy size journal given taken old
        → Edits seq.channel (Tells seq) old new
        → has_due size (taken seq.channel) (history seq.channel journal) ≡ true }
    ensures seq { (size : ℕ) (journal : List Item) (given taken : Marks) (old new : List Live)
        (seq : Seq) → AreLiveBy size journal given taken old
        → (e : Edits seq.channel (Tells seq) old new)
        → IsTold size e.before.held e.after.held (history seq.channel journal)
        (given seq.channel) (taken seq.channel) seq }
{}

// ---- given and taken

/// What is given in a life joins what was given in it, also while a message of channel zero waits.
pub fn what_is_given_joins()
    ensures { (size number : ℕ) (lives journal : List Item) (given taken : Marks)
        (old new : List Live) (marks : List Mark) → AreLive size lives journal given taken old
        → Edits number (Gives marks) old new
        → AreLive size lives journal (with_marks number (given number ++ marks) given) taken new }
{}

/// What is taken from a life joins what was taken in it, also while a message of channel zero
/// waits.
pub fn what_is_taken_joins()
    ensures { (size number : ℕ) (lives journal : List Item) (given taken : Marks)
        (old new : List Live) (part : Part) (before after : List ℕ)
        → AreLive size lives journal given taken old
        → Edits number (Takes part before after) old new
        → AreLive size lives journal given
        (with_marks number (taken number ++ part_marks part after) taken) new }
{}

/// Room that is made in a channel changes nothing.
pub fn room_changes_nothing()
    ensures { (size number : ℕ) (lives journal : List Item) (given taken : Marks)
        (old new : List Live) (made : Bool) → AreLive size lives journal given taken old
        → EditsWhere made number KeepsHeld old new
        → AreLive size lives journal given taken new }
{}

// ---- what is due

/// A channel owes a SEQ exactly where one is due by the history of its number and by what was taken
/// in it, can send exactly where a frame can go by that history and by what was given, holds
/// nothing exactly where all that arrived is taken, and all that was given sent, and is drained
/// exactly where that life is (RFC 3080, section 2.3.1.3; RFC 3081, section 3.1).
pub fn a_channel_tells_what_its_life_is()
    ensures due { (size n : ℕ) (journal : List Item) (given taken : Marks) (channels : List Live)
        (c : Live) → AreLiveBy size journal given taken channels → live_at n channels ≡ Some c
        → is_seq_due_of c.held ≡ has_due size (taken n) (history n journal) }
    ensures ready { (size n : ℕ) (journal : List Item) (given taken : Marks)
        (channels : List Live) (c : Live) → AreLiveBy size journal given taken channels
        → live_at n channels ≡ Some c
        → is_held_ready c.held ≡ has_ready (given n) (history n journal) }
    ensures untaken { (size n : ℕ) (journal : List Item) (given taken : Marks)
        (channels : List Live) (c : Live) → AreLiveBy size journal given taken channels
        → live_at n channels ≡ Some c → (c.held.inbox ≡ [])
        ↔ (map mark_modulo_2_64 (marks Side.Received (history n journal)) ≡ taken n) }
    ensures unsent { (size n : ℕ) (journal : List Item) (given taken : Marks)
        (channels : List Live) (c : Live) → AreLiveBy size journal given taken channels
        → live_at n channels ≡ Some c → (c.held.queue ≡ [])
        ↔ (map mark_modulo_2_64 (marks Side.Sent (history n journal)) ≡ given n) }
    ensures drained { (size n : ℕ) (journal : List Item) (given taken : Marks)
        (channels : List Live) (c : Live) → AreLiveBy size journal given taken channels
        → live_at n channels ≡ Some c
        → (is_held_drained c.held ≡ true) ↔ IsDrained (history n journal) (given n) (taken n) }
{}

/// No channel owes a SEQ exactly where no SEQ is due in any life that is live.
pub fn no_seq_is_due()
    ensures { (size : ℕ) (journal : List Item) (given taken : Marks) (channels : List Live)
        → AreLiveBy size journal given taken channels
        → (list_any owes_seq channels ≡ false)
        ↔ ((n : ℕ) → is_there n journal ≡ true
        → has_due size (taken n) (history n journal) ≡ false) }
{}

/// No channel can send exactly where no frame can go in any life that is live.
pub fn none_is_ready()
    ensures { (size : ℕ) (journal : List Item) (given taken : Marks) (channels : List Live)
        → AreLiveBy size journal given taken channels
        → (list_any can_send channels ≡ false)
        ↔ ((n : ℕ) → is_there n journal ≡ true
        → has_ready (given n) (history n journal) ≡ false) }
{}

// ---- lives

/// A frame of channel zero that isn't the last of its message begins and ends no life.
pub fn a_part_of_a_message_moves_nothing()
    ensures { (side : Side) (head : Head) (payload : List ℕ) (journal : List Item)
        → head.more ≡ true
        → MovesNone (events journal) (events (passed side head payload ∷ journal)) }
{}

/// A frame that passes moves lives exactly where it grants a request of channel zero: a start of a
/// number above 0 that has no live life begins one, and a close that names the live life of its
/// number ends it (RFC 3080, sections 2.3.1.2 and 2.3.1.3).
pub fn a_frame_moves_what_it_grants()
    ensures { (by : Side) (head : Head) (payload : List ℕ) (journal : List Item)
        → Moves by head payload journal }
{}

/// Where a message of channel zero begins and ends no life, nothing is left to be done.
pub fn the_lives_stay()
    ensures { (size : ℕ) (lives : List Item) (given taken : Marks) (channels : List Live)
        (item : Item) → AreLive size lives (item ∷ lives) given taken channels
        → MovesNone (events lives) (events (item ∷ lives))
        → (channel_of item == 0) ≡ true
        → AreLiveBy size (item ∷ lives) given taken channels }
{}

/// Where a message of channel zero begins a life, a channel joins in which nothing has happened.
pub fn a_life_begins()
    ensures { (size number : ℕ) (lives : List Item) (given taken : Marks) (old new : List Live)
        (item : Item) (channel : Live) → AreLive size lives (item ∷ lives) given taken old
        → BeginsLife number (events lives) (events (item ∷ lives))
        → (channel_of item == 0) ≡ true
        → channel.held.number ≡ number → Stands size channel.held [] [] []
        → Joins channel old new
        → AreLiveBy size (item ∷ lives) (with_marks number [] given) (with_marks number [] taken)
        new }
{}

/// Where a message of channel zero ends a life, its channel leaves.
pub fn a_life_ends()
    ensures { (size number : ℕ) (lives : List Item) (given taken : Marks) (old new : List Live)
        (item : Item) → AreLive size lives (item ∷ lives) given taken old
        → EndsLife number (events lives) (events (item ∷ lives))
        → (channel_of item == 0) ≡ true
        → Leaves number old new
        → AreLiveBy size (item ∷ lives) given taken new }
{}
