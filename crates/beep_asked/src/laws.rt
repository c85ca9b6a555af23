//! What each item of channel zero leaves of the requests that wait for their reply, and what a
//! whole message makes of lives: each function does nothing, and its contract is the fact.
ghost use Rattle.std.specs.Prelude.{◌≡◌, ℕ, ◌<◌, ◌==◌, ◌||◌, ◌∷◌, ◌++◌, [], List, length, Bool, true, false};
ghost use Rattle.beep_standing.specs.beep_frame.specs.declared.head.Head.{Head};
ghost use Rattle.beep_standing.specs.beep_frame.specs.declared.seq.Seq.{Seq};
ghost use Rattle.beep_standing.specs.beep_mgmt.specs.Message.{message_said};
ghost use Rattle.beep_standing.specs.beep_history.specs.declared.journal.Side.{Side};
ghost use Rattle.beep_standing.specs.beep_history.specs.Journal.{Item, began, passed, told, other, opening};
ghost use Rattle.beep_standing.specs.beep_history.specs.Marks.{position_of};
ghost use Rattle.beep_standing.specs.beep_journal.specs.Lives.{has_release};
ghost use Rattle.beep_standing.specs.beep_journal.specs.Zero.{zero_events, gathered, said_to, completes_form};
ghost use Rattle.beep_standing.specs.Moving.{MovesNone};
ghost use Rattle.beep_decide.specs.Asks.{is_close_of};
ghost use Rattle.beep_asked.specs.Kept.{Kept, implied_request, new_kept, fits, grants, after_grant};
ghost use Rattle.beep_asked.specs.Asked.{AreWaiting, EndsRequest, EndsReply, SaysLive};
ghost use Rattle.beep_asked.specs.Granting.{IsGranted};

/// In a new session the implied request of each side waits (RFC 3080, section 2.3.1.1).
pub fn a_new_session_keeps_the_implied_requests()
    ensures { (side : Side) → AreWaiting side opening (implied_request ∷ []) }
{}

/// A header leaves the requests of both sides.
pub fn a_header_leaves_them()
    ensures { (side by : Side) (head : Head) (zero : List Item) (requests : List Kept)
        → AreWaiting side zero requests → AreWaiting side (began by head ∷ zero) requests }
{}

/// A SEQ leaves the requests of both sides.
pub fn a_seq_leaves_them()
    ensures { (side by : Side) (seq : Seq) (zero : List Item) (requests : List Kept)
        → AreWaiting side zero requests → AreWaiting side (told by seq ∷ zero) requests }
{}

/// A frame that isn't the last of its message leaves the requests of both sides, and makes no
/// moment.
pub fn a_part_leaves_them()
    ensures waiting { (side by : Side) (head : Head) (payload : List ℕ) (zero : List Item)
        (requests : List Kept) → head.more ≡ true → AreWaiting side zero requests
        → AreWaiting side (passed by head payload ∷ zero) requests }
    ensures moments { (by : Side) (head : Head) (payload : List ℕ) (zero : List Item)
        → head.more ≡ true → zero_events (passed by head payload ∷ zero) ≡ zero_events zero }
{}

/// The last frame of a request puts it before those of its side; a close above 0 names a life
/// where its number is live (RFC 3080, section 2.3.1.3).
pub fn a_request_joins()
    ensures mine { (by : Side) (head : Head) (payload : List ℕ) (zero : List Item)
        (live : ℕ → Bool) (requests : List Kept) → EndsRequest by head zero
        → SaysLive live (zero_events zero) → AreWaiting by zero requests
        → AreWaiting by (passed by head payload ∷ zero)
        (new_kept live (message_said (gathered by zero ++ payload)) ∷ requests) }
    ensures theirs { (by : Side) (head : Head) (payload : List ℕ) (zero : List Item)
        (requests : List Kept) → EndsRequest by head zero → AreWaiting (other by) zero requests
        → AreWaiting (other by) (passed by head payload ∷ zero) requests }

    // It begins and ends no life, and releases no session.
    ensures moves { (by : Side) (head : Head) (payload : List ℕ) (zero : List Item)
        → EndsRequest by head zero
        → MovesNone (zero_events zero) (zero_events (passed by head payload ∷ zero)) }
    ensures released { (by : Side) (head : Head) (payload : List ℕ) (zero : List Item)
        → EndsRequest by head zero
        → has_release (zero_events (passed by head payload ∷ zero))
        ≡ has_release (zero_events zero) }
{}

/// A whole reply answers the oldest request of the other side, and what is kept of that says
/// whether the reply has its form (RFC 3080, sections 2.3.1 and 2.6.1).
pub fn a_reply_answers_the_oldest()
    ensures waits { (by : Side) (head : Head) (zero : List Item) (requests : List Kept)
        → EndsReply by head zero → AreWaiting (other by) zero requests → 0 < length requests }
    ensures said { (by : Side) (head : Head) (zero : List Item) (later : List Kept) (one : Kept)
        → EndsReply by head zero → AreWaiting (other by) zero (later ++ one ∷ [])
        → said_to by head zero ≡ one.said }
    ensures implied { (by : Side) (head : Head) (zero : List Item) (later : List Kept)
        (one : Kept) → EndsReply by head zero → AreWaiting (other by) zero (later ++ one ∷ [])
        → (position_of by zero head == 0) ≡ one.implied }
    ensures form { (by : Side) (head : Head) (payload : List ℕ) (zero : List Item)
        (later : List Kept) (one : Kept) → EndsReply by head zero
        → AreWaiting (other by) zero (later ++ one ∷ [])
        → completes_form by head payload zero
        ≡ fits head.kind (message_said (gathered by zero ++ payload)) one }
{}

/// A reply that grants nothing takes the oldest request of the other side, and begins and ends no
/// life: one of ERR, or one without its form.
pub fn a_refusal_takes_the_oldest()
    ensures theirs { (by : Side) (head : Head) (payload : List ℕ) (zero : List Item)
        (later : List Kept) (one : Kept) → EndsReply by head zero
        → AreWaiting (other by) zero (later ++ one ∷ [])
        → grants head.kind (message_said (gathered by zero ++ payload)) one ≡ false
        → AreWaiting (other by) (passed by head payload ∷ zero) later }
    ensures mine { (by : Side) (head : Head) (payload : List ℕ) (zero : List Item)
        (later requests : List Kept) (one : Kept) → EndsReply by head zero
        → AreWaiting (other by) zero (later ++ one ∷ [])
        → grants head.kind (message_said (gathered by zero ++ payload)) one ≡ false
        → AreWaiting by zero requests
        → AreWaiting by (passed by head payload ∷ zero) requests }

    ensures moves { (by : Side) (head : Head) (payload : List ℕ) (zero : List Item)
        (later : List Kept) (one : Kept) → EndsReply by head zero
        → AreWaiting (other by) zero (later ++ one ∷ [])
        → grants head.kind (message_said (gathered by zero ++ payload)) one ≡ false
        → MovesNone (zero_events zero) (zero_events (passed by head payload ∷ zero)) }
    ensures released { (by : Side) (head : Head) (payload : List ℕ) (zero : List Item)
        (later : List Kept) (one : Kept) → EndsReply by head zero
        → AreWaiting (other by) zero (later ++ one ∷ [])
        → grants head.kind (message_said (gathered by zero ++ payload)) one ≡ false
        → has_release (zero_events (passed by head payload ∷ zero))
        ≡ has_release (zero_events zero) }
{}

/// A positive reply with its form takes the oldest request of the other side. Where that is a
/// close that names a live life, the life ends, and no request of either side names it any more
/// (RFC 3080, sections 2.3.1.2 and 2.3.1.3).
pub fn a_grant_takes_the_oldest()
    ensures theirs { (by : Side) (head : Head) (payload : List ℕ) (zero : List Item)
        (later : List Kept) (one : Kept) → EndsReply by head zero
        → AreWaiting (other by) zero (later ++ one ∷ [])
        → grants head.kind (message_said (gathered by zero ++ payload)) one ≡ true
        → AreWaiting (other by) (passed by head payload ∷ zero) (after_grant one later) }
    ensures mine { (by : Side) (head : Head) (payload : List ℕ) (zero : List Item)
        (later requests : List Kept) (one : Kept) → EndsReply by head zero
        → AreWaiting (other by) zero (later ++ one ∷ [])
        → grants head.kind (message_said (gathered by zero ++ payload)) one ≡ true
        → AreWaiting by zero requests
        → AreWaiting by (passed by head payload ∷ zero) (after_grant one requests) }

    // What it does to lives, and whether it releases the session.
    ensures moves { (by : Side) (head : Head) (payload : List ℕ) (zero : List Item)
        (live : ℕ → Bool) (later : List Kept) (one : Kept) → EndsReply by head zero
        → AreWaiting (other by) zero (later ++ one ∷ []) → SaysLive live (zero_events zero)
        → grants head.kind (message_said (gathered by zero ++ payload)) one ≡ true
        → IsGranted live one (zero_events zero) (zero_events (passed by head payload ∷ zero)) }
    ensures released { (by : Side) (head : Head) (payload : List ℕ) (zero : List Item)
        (later : List Kept) (one : Kept) → EndsReply by head zero
        → AreWaiting (other by) zero (later ++ one ∷ [])
        → grants head.kind (message_said (gathered by zero ++ payload)) one ≡ true
        → has_release (zero_events (passed by head payload ∷ zero))
        ≡ (is_close_of 0 one.said || has_release (zero_events zero)) }
{}
