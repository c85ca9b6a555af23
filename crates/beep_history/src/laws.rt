//! What the definitions mean, as facts that hold of all octets and of every history: each function
//! does
//! nothing, and its contract is the fact. Who believes them need not read the definitions.
ghost use Rattle.std.specs.Prelude.{◌≡◌, ◌↔◌, ℕ, ◌+◌, ◌≤◌, ◌<◌, nat_lt, true, Some, List, [], ◌∷◌, length, map, Bool};
ghost use Rattle.std.specs.Option.{option_map_or};
ghost use Rattle.beep_frame.specs.declared.head.Head.{Head};
ghost use Rattle.beep_frame.specs.declared.tag.Tag.{Tag};
ghost use Rattle.beep_history.specs.declared.journal.Side.{Side};
ghost use Rattle.beep_frame.specs.declared.seq.Seq.{Seq};
ghost use Rattle.beep_frame.specs.Frame.{is_reply};
ghost use Rattle.beep_seq.specs.Sending.{after_seq};
ghost use Rattle.beep_seq.specs.Receiving.{Receiver, IsReceiver, full_edge, full_of};
ghost use Rattle.beep_history.specs.Journal.{Item, passed, told, other, mirrored};
ghost use Rattle.beep_history.specs.Windows.{departures, greatest_edge, arrivals};
ghost use Rattle.beep_history.specs.Marks.{Request, requests, waiting, is_whole, is_answered, reply, frames, passed_octets, position_of, marks};
ghost use Rattle.beep_history.specs.Broken.{KeepsExchangeRules, under_way, broken_within, exchange_rule, octet_rules, first_of, is_limit, with_octets, KeepsShape};
ghost use Rattle.beep_history.specs.Messages.{gathered, messages, contents_in, cut_from, left_from};
ghost use Rattle.beep_history.specs.Moments.{Asked, Sent, Answered, EndsOnce, replies_ended, reply_at, IsOneOf, IsRising, reply_positions, mark_octets, frame_octets, mark_ends, frame_ends};

/// The first broken rule is that of the exchange with the one on octets put in its place.
pub fn the_rules_on_octets_stand_before_those_on_limits()
    ensures { (edge : ℕ) (side : Side) (past : List Item) (head : Head)
        → broken_within edge side past head
        ≡ with_octets (exchange_rule side past head) (first_of (octet_rules edge side past head)) }
{}

/// Where the exchange finds no rule, or one on limits, the header keeps each rule that stands
/// before those on octets.
pub fn rules_on_limits_stand_after_all_others()
    ensures { (side : Side) (past : List Item) (head : Head)
        → option_map_or is_limit (exchange_rule side past head) true ≡ true
        → KeepsShape side past head }
{}

/// The requests of a side are those whose header began.
pub fn a_request_is_asked_where_it_began()
    ensures { (side : Side) (past : List Item) (request : Request)
        → (IsOneOf (requests side past) request ↔ Asked side request.position request.number past) }
{}

/// A request is wholly passed where its last frame passed.
pub fn a_request_is_whole_where_its_last_frame_passed()
    ensures { (side : Side) (past : List Item) (position : ℕ)
        → ((is_whole side position past ≡ true) ↔ Sent side position past) }
{}

/// A request is answered where a frame passed that ends its reply.
pub fn a_request_is_answered_where_a_frame_ended_its_reply()
    ensures { (side : Side) (past : List Item) (position : ℕ)
        → ((is_answered side position past ≡ true) ↔ Answered side position past) }
{}

/// A reply is owed to each request that was asked and not answered.
pub fn a_request_waits_where_it_was_asked_and_not_answered()
    ensures { (side : Side) (past : List Item) (request : Request)
        → (IsOneOf (waiting side past) request
        ↔ (Asked side request.position request.number past
        × (¬ Answered side request.position past))) }
{}

/// Where the history keeps the rules of the exchange, no request is answered before an earlier one.
pub fn requests_are_answered_in_order()
    ensures { (side : Side) (past : List Item) (earlier later : ℕ)
        → KeepsExchangeRules past → earlier ≤ later
        → is_answered side later past ≡ true → is_answered side earlier past ≡ true }
{}

/// Where the history keeps the rules of the exchange, the frames of one side alone tell which reply
/// each belongs to,
/// however they stand between those of the other: the reply at a place answers the request at that
/// position.
pub fn the_frames_of_one_side_tell_its_replies()
    ensures replies { (side : Side) (past : List Item) (position : ℕ) → KeepsExchangeRules past
        → reply side position past ≡ reply_at position (frames (other side) past) }
    ensures answered { (side : Side) (past : List Item) (position : ℕ) → KeepsExchangeRules past
        → is_answered side position past
        ≡ nat_lt position (replies_ended (frames (other side) past)) }
    ensures named { (side : Side) (past : List Item) (head : Head) → KeepsExchangeRules past
        → under_way side past ≡ Some head → is_reply head.kind ≡ true
        → position_of side past head ≡ replies_ended (frames side past) }
{}

/// What a header breaks is what it breaks with the sides exchanged, at the other end.
pub fn the_other_end_finds_the_same_rule()
    ensures exchange { (side : Side) (past : List Item) (head : Head)
        → exchange_rule (other side) (mirrored past) head ≡ exchange_rule side past head }
    ensures within { (edge : ℕ) (side : Side) (past : List Item) (head : Head)
        → broken_within edge (other side) (mirrored past) head ≡ broken_within edge side past head }
    ensures edge { (side : Side) (past : List Item)
        → greatest_edge (other side) (mirrored past) ≡ greatest_edge side past }
    ensures counts { (side : Side) (past : List Item)
        → departures (other side) (mirrored past) ≡ departures side past }
{}

/// What each item adds to the counts of the two windows.
pub fn items_give_the_counts_of_windows()
    ensures sent { (side : Side) (past : List Item) (head : Head) (payload : List ℕ)
        → departures side (passed side head payload ∷ past)
        ≡ record (departures side past) { sent = passed_octets side past + head.size } }
    ensures heard { (side : Side) (past : List Item) (seq : Seq)
        → departures side (told (other side) seq ∷ past)
        ≡ after_seq (departures side past) seq.ackno seq.window }
    ensures received { (side : Side) (taken : ℕ) (past : List Item) (head : Head) (payload : List ℕ)
        → arrivals side taken (passed side head payload ∷ past)
        ≡ record (arrivals side taken past) { received = passed_octets side past + head.size } }
    ensures advertised { (window : Receiver) (size : ℕ) (side : Side) (taken : ℕ)
        (past : List Item) (seq : Seq)
        → IsReceiver window size (arrivals side taken past) → seq.window ≡ (full_of window).1
        → arrivals side taken (told (other side) seq ∷ past)
        ≡ record (arrivals side taken past) { edge = full_edge size (arrivals side taken past) } }
{}

/// Where the history keeps the rules of the exchange, the marks of replies name the requests in
/// their order.
pub fn replies_stand_in_the_order_of_their_requests()
    ensures { (side : Side) (past : List Item) → KeepsExchangeRules past
        → IsRising (reply_positions (marks side past)) }
{}

/// Where the history keeps the rules of the exchange, exactly one frame ends each reply, its last.
pub fn one_frame_ends_each_reply()
    ensures { (side : Side) (past : List Item) (position : ℕ) → KeepsExchangeRules past
        → is_answered side position past ≡ true → EndsOnce (reply side position past) }
{}

/// The marks of each tag, cut at their ends, are the messages of this tag, and what is left after
/// the last end is
/// what the next one has so far. The ends stand in the order of the messages (RFC 3080, section
/// 2.1).
pub fn the_marks_of_a_tag_cut_at_their_ends_are_its_messages()
    ensures contents { (side : Side) (past : List Item) (tag : Tag)
        → cut_from [] tag (marks side past) ≡ contents_in tag (messages side past) }
    ensures left { (side : Side) (past : List Item) (tag : Tag)
        → left_from [] tag (marks side past) ≡ gathered side tag past }
    ensures order { (side : Side) (past : List Item)
        → mark_ends (marks side past) ≡ map (λ message. message.tag) (messages side past) }
{}

/// The marks of a message are the octets of its frames, in order.
pub fn marks_are_the_octets_of_frames()
    ensures { (side : Side) (past : List Item) (of : Tag → Bool)
        → mark_octets of (marks side past) ≡ frame_octets of side past }
{}

/// The end marks are those of the complete frames, in order.
pub fn end_marks_are_the_complete_frames()
    ensures { (side : Side) (past : List Item)
        → mark_ends (marks side past) ≡ frame_ends side past }
{}
