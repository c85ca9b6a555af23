//! What a session keeps of channel zero and what its script lists there, as facts: each function
//! does nothing, and its contract is the fact.
ghost use Rattle.std.specs.Prelude.{◌≡◌, ◌≤◌, ℕ, ◌+◌, ◌==◌, ◌∷◌, ◌++◌, [], length, map, List, None, Option, false, true};
ghost use Rattle.beep_peer.specs.beep_history.specs.Journal.{Item, passed};
ghost use Rattle.beep_peer.specs.beep_history.specs.Broken.{KeepsExchangeRules};
ghost use Rattle.beep_peer.specs.beep_mgmt.specs.Form.{Form};
ghost use Rattle.beep_peer.specs.beep_history.specs.declared.journal.Side.{Side};
ghost use Rattle.beep_peer.specs.beep_journal.specs.Zero.{asked, events, zero_history};
ghost use Rattle.beep_peer.specs.beep_answering.specs.Decided.{NoneTunes};
ghost use Rattle.beep_peer.specs.beep_management.specs.declared.wait.Wait.{Wait};
ghost use Rattle.beep_peer.specs.Waiting.{HasCome, IsStuck};
ghost use Rattle.beep_script.specs.beep_talk.specs.AtZero.{ZeroMessage};
ghost use Rattle.beep_script.specs.Laws.{answered_positions};
ghost use Rattle.beep_script.specs.Script.{script_marks, BeginsWith};
ghost use Rattle.beep_peer.specs.beep_standing.specs.Standing.{AreLiveBy, Marks};
ghost use Rattle.beep_peer.specs.beep_spoken.specs.Spoken.{AreSpoken, Spoken};
ghost use Rattle.beep_peer.specs.beep_lawful.specs.declared.terms.Terms.{Terms};
ghost use Rattle.beep_peer.specs.beep_management.specs.Manages.{IsManaged};
ghost use Rattle.beep_peer.specs.beep_upright.specs.Upright.{IsUpright};
ghost use Rattle.beep_peer.specs.Standing.{standing_of};
ghost use Rattle.beep_peer.specs.declared.peer.Peer.{Peer as PeerValue};
ghost use Rattle.beep_script.specs.beep_talk.specs.Plan.{PlainPlan};
ghost use Rattle.beep_script.specs.Desk.{asks, asks_where, desk, ends_lines, grants_own, is_clear_of, standing};
ghost use Rattle.beep_script.specs.Requested.{requests_from};
ghost use Rattle.beep_script.specs.beep_talk.specs.AtZero.{profile_of, zero_message};
ghost use Rattle.beep_peer.specs.beep_mgmt.specs.Form.{close, start};
ghost use Rattle.beep_peer.specs.beep_outbox.specs.Queue.{marks_of, Message};
ghost use Rattle.beep_peer.specs.beep_frame.specs.declared.kind.Kind.{Kind};
ghost use Rattle.beep_peer.specs.beep_decide.specs.Decide.{Decision, PlainStanding, answer_of, decide};
ghost use Rattle.beep_peer.specs.beep_history.specs.Marks.{Mark, is_answered, mark_modulo_2_64, marks};
ghost use Rattle.beep_peer.specs.beep_frame.specs.declared.head.Head.{Head};
ghost use Rattle.beep_peer.specs.beep_frame.specs.Frame.{is_msg};
ghost use Rattle.beep_peer.specs.beep_answering.specs.declared.settled.Settled.{Settled};
ghost use Rattle.beep_peer.specs.beep_management.specs.Managed.{Prepared};
ghost use Rattle.beep_peer.specs.Calls.{GivesFirst};
ghost use Rattle.beep_script.specs.beep_talk.specs.declared.plan.Command.{Command};
ghost use Rattle.beep_desk.specs.Alike.{StandsAlike};
ghost use Rattle.beep_desk.specs.Desks.{asks_none, is_part, AreDoneFor, AreGivenFor, IsCalledFor, IsDeskOf, IsDeskWithin, StandsIn};
ghost use Rattle.beep_desk.specs.Listed.{asked_positions, spoken_of, AreInTurn, ArePlacedFrom, AskInTurn, IsListed};
ghost use Rattle.beep_desk.specs.Placed.{desk_of};
ghost use Rattle.beep_desk.specs.Waiting.{AllTaken, AllWait, IsSettledFor, OnlyGrantsWait, SaysAll, WaitsFor};

/// What stands alike is decided alike, and a decision has the same answer.
pub fn what_stands_alike_is_decided_alike()
    ensures decided { (one other : PlainStanding) (said : Option Form) → StandsAlike one other
        → decide one said ≡ decide other said }
    ensures answered { (one other : PlainStanding) (decision : Decision) → StandsAlike one other
        → answer_of one decision ≡ answer_of other decision }
{}

/// Each request of the peer, and the implied one, has one answer that is listed or owed, in turn,
/// where no offer is tuning.
pub fn each_request_has_its_answer_in_turn()
    ensures { (plan : PlainPlan) (journal : List Item) → NoneTunes plan.offers
        → ArePlacedFrom 0 (answered_positions (desk plan journal))
        × (length (answered_positions (desk plan journal))
        ≡ length (asked Side.Received (zero_history journal))) }
{}

/// Where what was given and prepared on channel zero is what the script lists and owes there, what
/// a session keeps stands alike with what the script says, so that both decide alike.
pub fn what_a_session_keeps_stands_as_its_script_says()
    ensures { (plan : PlainPlan) (size : ℕ) (journal : List Item) (given taken : Marks)
        (peer : PeerValue) (spoken prepared : List Spoken)
        → KeepsExchangeRules (zero_history journal)
        → AreLiveBy size journal given taken peer.lives
        → IsManaged size journal given peer.management spoken prepared
        → IsListed plan journal spoken prepared → AreInTurn plan journal
        → StandsAlike (standing plan (desk plan journal) journal)
        (standing_of plan.terms.role plan.offers peer) }
{}

/// A request of the peer is decided by the journal and by what was given and prepared on channel
/// zero, whatever gave it: a session keeps nothing else that decides.
pub fn a_session_decides_by_its_journal()
    ensures decided { (plan : PlainPlan) (size : ℕ) (journal : List Item) (given taken : Marks)
        (peer : PeerValue) (spoken prepared : List Spoken) (said : Option Form)
        → KeepsExchangeRules (zero_history journal)
        → AreLiveBy size journal given taken peer.lives
        → IsManaged size journal given peer.management spoken prepared
        → decide (standing_of plan.terms.role plan.offers peer) said
        ≡ decide (standing plan (desk_of spoken prepared) journal) said }
    ensures answered { (plan : PlainPlan) (size : ℕ) (journal : List Item)
        (given taken : Marks) (peer : PeerValue) (spoken prepared : List Spoken)
        (decision : Decision) → KeepsExchangeRules (zero_history journal)
        → AreLiveBy size journal given taken peer.lives
        → IsManaged size journal given peer.management spoken prepared
        → answer_of (standing_of plan.terms.role plan.offers peer) decision
        ≡ answer_of (standing plan (desk_of spoken prepared) journal) decision }
{}

/// What each answer waits for that a session hasn't given is what the script says of the one that
/// it owes, where what the session has to say may lawfully go out.
pub fn what_is_owed_waits_as_its_script_says()
    ensures { (plan : PlainPlan) (terms : Terms) (size : ℕ) (journal : List Item)
        (given taken : Marks) (peer : PeerValue) (spoken prepared : List Spoken)
        → KeepsExchangeRules (zero_history journal)
        → AreLiveBy size journal given taken peer.lives
        → IsManaged size journal given peer.management spoken prepared
        → IsListed plan journal spoken prepared → AreInTurn plan journal
        → IsUpright terms journal peer.lives peer.management
        → OnlyGrantsWait peer.management.answers
        → AllWait (events journal) (desk plan journal).owed peer.management.answers }
{}

/// What an answer waits for in a session has come exactly where its script says that it waits for
/// nothing.
pub fn an_answer_waits_as_its_script_says()
    ensures clear { (plan : PlainPlan) (size : ℕ) (journal : List Item) (given taken : Marks)
        (peer : PeerValue) (spoken prepared : List Spoken) (listed : List ZeroMessage)
        (position : ℕ) (closes : Option ℕ) (waits : Wait)
        → IsSettledFor plan size journal given taken peer spoken prepared listed
        → WaitsFor (events journal) position closes waits
        → HasCome waits peer.lives peer.management
        → is_clear_of plan listed journal position closes ≡ true }
    ensures come { (plan : PlainPlan) (size : ℕ) (journal : List Item) (given taken : Marks)
        (peer : PeerValue) (spoken prepared : List Spoken) (listed : List ZeroMessage)
        (position : ℕ) (closes : Option ℕ) (waits : Wait)
        → IsSettledFor plan size journal given taken peer spoken prepared listed
        → WaitsFor (events journal) position closes waits
        → is_clear_of plan listed journal position closes ≡ true
        → HasCome waits peer.lives peer.management }
{}

/// What is asked has the places after those of the requests that are listed, where it begins there.
/// A listener asks nothing.
pub fn own_requests_are_asked_in_turn()
    ensures placed { (plan : PlainPlan) (item : Item) (journal : List Item)
        → AskInTurn plan journal
        → ArePlacedFrom (1 + length (asked_positions (desk plan journal).listed))
        (asked_positions (asks plan.command plan item journal))
        → AskInTurn plan (item ∷ journal) }
    ensures none { (plan : PlainPlan) (journal : List Item) → plan.command ≡ Command.Listen
        → AskInTurn plan journal }
    ensures nothing { (plan : PlainPlan) (item : Item) (journal : List Item)
        → plan.command ≡ Command.Listen → asks plan.command plan item journal ≡ [] }
    ensures count { (listed : List ZeroMessage) (given : List Mark)
        → AreSpoken (map spoken_of listed) given
        → length (asked_positions listed) ≡ length (requests_from [] given) }
{}

/// A sender asks its start where the peer's greeting has come, its close after the end of its
/// lines, and the release where the close was granted, each alone; and else nothing.
pub fn a_sender_asks_one_request_at_once()
    ensures sent { (plan : PlainPlan) → plan.command ≡ Command.Send → (head : Head)
        (payload : List ℕ) (journal : List Item)
        → asks plan.command plan (passed Side.Sent head payload) journal
        ≡ asks_where (ends_lines plan (passed Side.Sent head payload) journal) 2
        (close 1 200 []) }
    ensures start { (plan : PlainPlan) → plan.command ≡ Command.Send → (head : Head)
        (payload : List ℕ) (journal : List Item)
        → grants_own 0 (passed Side.Received head payload) journal ≡ true
        → asks plan.command plan (passed Side.Received head payload) journal
        ≡ zero_message Kind.Msg 1 (start 1 None (profile_of plan.raw_uri ∷ [])) ∷ [] }
    ensures release { (plan : PlainPlan) → plan.command ≡ Command.Send → (head : Head)
        (payload : List ℕ) (journal : List Item)
        → grants_own 2 (passed Side.Received head payload) journal ≡ true
        → asks plan.command plan (passed Side.Received head payload) journal
        ≡ zero_message Kind.Msg 3 (close 0 200 []) ∷ [] }
    ensures none { (plan : PlainPlan) → plan.command ≡ Command.Send → (head : Head)
        (payload : List ℕ) (journal : List Item)
        → grants_own 0 (passed Side.Received head payload) journal ≡ false
        → grants_own 2 (passed Side.Received head payload) journal ≡ false
        → asks plan.command plan (passed Side.Received head payload) journal ≡ [] }
    ensures part { (plan : PlainPlan) (item : Item) (journal : List Item) → is_part item ≡ true
        → asks plan.command plan item journal ≡ [] }
{}

/// As the peer's greeting comes a sender has asked nothing, and as its close is granted not yet the
/// release.
pub fn a_sender_asks_each_request_once()
    ensures none { (plan : PlainPlan) (item : Item) (journal : List Item)
        → plan.command ≡ Command.Send → KeepsExchangeRules (zero_history (item ∷ journal))
        → AskInTurn plan journal → grants_own 0 item journal ≡ true
        → length (asked_positions (desk plan journal).listed) ≡ 0 }
    ensures two { (plan : PlainPlan) (item : Item) (journal : List Item)
        → plan.command ≡ Command.Send → KeepsExchangeRules (zero_history (item ∷ journal))
        → AskInTurn plan journal → grants_own 2 item journal ≡ true
        → length (asked_positions (desk plan journal).listed) ≤ 2 }
{}

/// An item that ends no message of channel zero, and is no frame above it, leaves what an end gave
/// and prepared there what its script lists and owes.
pub fn a_part_of_a_message_leaves_the_desk()
    ensures { (plan : PlainPlan) (item : Item) (journal : List Item) (given : List Mark)
        (answers : List Prepared) → is_part item ≡ true → IsDeskOf plan journal given answers
        → IsDeskOf plan (item ∷ journal) given answers }
{}

/// As an item happens that ends no request of the peer, what an end prepared is what is owed
/// before the first answers are listed that are clear then.
pub fn an_item_leaves_what_is_owed()
    ensures { (plan : PlainPlan) (item : Item) (journal : List Item) (given : List Mark)
        (answers : List Prepared) → asks_none item ≡ true → IsDeskOf plan journal given answers
        → IsDeskWithin plan item journal given answers }
{}

/// As a request of the peer is settled, once its greeting has come, the answer that an end
/// prepares is the one that is owed, before the first answers are listed that are clear then.
pub fn a_request_is_answered_as_its_script_says()
    ensures { (plan : PlainPlan) (size : ℕ) (head : Head) (payload : List ℕ)
        (journal : List Item) (given taken : Marks) (peer : PeerValue) (settled : Settled)
        (answer : Prepared) → AskInTurn plan journal → NoneTunes plan.offers
        → (head.channel == 0) ≡ true → is_msg head.kind ≡ true → head.more ≡ false
        → is_answered Side.Sent 0 (zero_history journal) ≡ true
        → StandsIn size journal given taken peer
        → IsDeskOf plan journal (given 0) peer.management.answers
        → IsCalledFor (standing_of plan.terms.role plan.offers peer) journal payload settled
        answer
        → IsDeskWithin plan (passed Side.Received head payload) journal (given 0)
        (peer.management.answers ++ answer ∷ []) }
{}

/// The first answers that an end lets go are clear, in each life for which one waits all is
/// said.
pub fn answers_go_as_their_script_lists_them()
    ensures { (plan : PlainPlan) (size : ℕ) (item : Item) (journal : List Item)
        (given now taken : Marks) (answers : List Prepared) (peer : PeerValue)
        → AskInTurn plan journal
        → IsDeskWithin plan item journal (given 0) answers → GivesFirst given now answers peer
        → StandsIn size (item ∷ journal) now taken peer
        → AreDoneFor plan (item ∷ journal) now answers
        → IsDeskWithin plan item journal (now 0) peer.management.answers }
{}

/// Once all that came is taken, and the first answer waits for something that hasn't come, what an
/// end gave and prepared is what its script lists and owes, where nothing is asked.
pub fn no_answer_is_held_that_its_script_lists()
    ensures { (plan : PlainPlan) (terms : Terms) (size : ℕ) (item : Item) (journal : List Item)
        (given taken : Marks) (peer : PeerValue) → AskInTurn plan journal
        → asks plan.command plan item journal ≡ [] → NoneTunes plan.offers
        → IsDeskWithin plan item journal (given 0) peer.management.answers
        → StandsIn size (item ∷ journal) given taken peer
        → IsUpright terms (item ∷ journal) peer.lives peer.management → AllTaken peer.lives
        → SaysAll plan (item ∷ journal) given → IsStuck peer.lives peer.management
        → IsDeskOf plan (item ∷ journal) (given 0) peer.management.answers }
{}

/// Where something is asked then, and is given, it is what its script lists next.
pub fn own_requests_go_as_their_script_lists_them()
    ensures { (plan : PlainPlan) (terms : Terms) (size : ℕ) (item : Item) (journal : List Item)
        (given taken now later : Marks) (peer next : PeerValue) (messages : List Message)
        → AskInTurn plan (item ∷ journal) → NoneTunes plan.offers
        → IsDeskWithin plan item journal (given 0) peer.management.answers
        → StandsIn size (item ∷ journal) given taken peer → AllTaken peer.lives
        → SaysAll plan (item ∷ journal) given
        → IsStuck peer.lives peer.management
        → now 0 ≡ given 0 ++ marks_of messages
        → AreGivenFor messages (asks plan.command plan item journal)
        → next.management.answers ≡ peer.management.answers
        → StandsIn size (item ∷ journal) now later next
        → IsUpright terms (item ∷ journal) next.lives next.management
        → IsDeskOf plan (item ∷ journal) (now 0) next.management.answers }
{}

/// What is owed is held back: the first answer waits for something that hasn't come.
pub fn what_is_owed_is_held_back()
    ensures { (plan : PlainPlan) (size : ℕ) (journal : List Item) (given taken : Marks)
        (peer : PeerValue) → AskInTurn plan journal → StandsIn size journal given taken peer
        → IsDeskOf plan journal (given 0) peer.management.answers
        → AreDoneFor plan journal given peer.management.answers
        → IsStuck peer.lives peer.management }
{}

/// What an end sent on channel zero is the beginning of what its script lists there, positions
/// modulo 2^64: between two steps, and within one.
pub fn what_was_sent_is_the_beginning_of_what_is_listed()
    ensures between { (plan : PlainPlan) (size count : ℕ) (journal : List Item)
        (given taken : Marks) (peer : PeerValue) → AskInTurn plan journal → NoneTunes plan.offers
        → StandsIn size journal given taken peer
        → IsDeskOf plan journal (given 0) peer.management.answers
        → BeginsWith (map mark_modulo_2_64 (script_marks plan 0 count journal))
        (map mark_modulo_2_64 (marks Side.Sent (zero_history journal))) }
    ensures within { (plan : PlainPlan) (size count : ℕ) (item : Item) (journal : List Item)
        (given taken : Marks) (peer : PeerValue) → AskInTurn plan journal
        → NoneTunes plan.offers → StandsIn size (item ∷ journal) given taken peer
        → IsDeskWithin plan item journal (given 0) peer.management.answers
        → BeginsWith (map mark_modulo_2_64 (script_marks plan 0 count (item ∷ journal)))
        (map mark_modulo_2_64 (marks Side.Sent (zero_history (item ∷ journal)))) }
{}
