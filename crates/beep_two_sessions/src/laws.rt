//! What holds of two sessions and the octets between them, as facts: each function does nothing,
//! and its contract is the fact.
ghost use Rattle.std.specs.Prelude.{◌≡◌, ◌≢◌, ◌⊎◌, ◌<◌, ◌||◌, true, false, ℕ, List, [], ◌∷◌, ◌++◌};
ghost use Rattle.beep_session.specs.beep_frame.specs.declared.head.Head.{Head};
ghost use Rattle.beep_session.specs.beep_frame.specs.declared.kind.Kind.{Kind};
ghost use Rattle.beep_session.specs.beep_frame.specs.declared.rule.Rule.{Rule};
ghost use Rattle.beep_session.specs.beep_frame.specs.declared.seq.Seq.{Seq};
ghost use Rattle.beep_session.specs.beep_frame.specs.Frame.{framed, seq_frame, is_msg, IsHead, IsSeq};
ghost use Rattle.beep_session.specs.beep_frame.specs.Spelling.{spelling};
ghost use Rattle.beep_session.specs.beep_history.specs.declared.journal.Side.{Side};
ghost use Rattle.beep_session.specs.beep_history.specs.Journal.{Item, passed};
ghost use Rattle.beep_session.specs.beep_journal.specs.Lives.{has_ended};
ghost use Rattle.beep_session.specs.beep_journal.specs.Life.{is_released};
ghost use Rattle.beep_session.specs.beep_journal.specs.Zero.{zero_history, completes_form, events};
ghost use Rattle.beep_session.specs.beep_decide.specs.Numbers.{other_role};
ghost use Rattle.beep_session.specs.beep_inbox.specs.declared.part.Part.{Part};
ghost use Rattle.beep_session.specs.beep_channel.specs.Stands.{ends_of};
ghost use Rattle.beep_session.specs.beep_standing.specs.Standing.{Marks, no_marks};
ghost use Rattle.beep_session.specs.beep_hearing.specs.Hears.{Breaks};
ghost use Rattle.beep_session.specs.beep_speaking.specs.declared.emit.Emit.{Emit};
ghost use Rattle.beep_session.specs.beep_upright.specs.Upright.{IsUpright};
ghost use Rattle.beep_session.specs.beep_upright.specs.Frames.{AreFrames};
ghost use Rattle.beep_session.specs.beep_peer.specs.Acts.{IsUnchanged};
ghost use Rattle.beep_session.specs.beep_peer.specs.Calls.{Begins as BeginsPeer, Settles, Speaks};
ghost use Rattle.beep_session.specs.beep_peer.specs.Peering.{IsPeer, WaitsIn, is_over, is_greeted, zero_waits};
ghost use Rattle.beep_session.specs.beep_peer.specs.Lawfully.{SpeaksLawfully};
ghost use Rattle.beep_session.specs.declared.event.Event.{Event};
ghost use Rattle.beep_session.specs.Acts.{AsksZero};
ghost use Rattle.beep_session.specs.Channels.{IsOfPeer, Gives, Takes};
ghost use Rattle.beep_session.specs.Lawfully.{terms_of, IsLawfulSession, KeepsUpright, FeedsLawfully};
ghost use Rattle.beep_session.specs.Session.{Held, AreLimits};
ghost use Rattle.beep_two_sessions.specs.End.{End, goes, waits, end_of_new, EndStands, StandsUnbroken, NothingIsDue};
ghost use Rattle.beep_two_sessions.specs.Acts.{Act, gives, asks, takes, settles, stops, sends, pauses, gets, rests, sent_by, used_by, LeadsTo};
ghost use Rattle.beep_two_sessions.specs.World.{World, Move, a_does, b_does, IsReached, first_of};
ghost use Rattle.beep_two_sessions.specs.Still.{IsStill, GreetsShortly};
ghost use Rattle.beep_two_sessions.specs.Kept.{IsPrefix, IsTakenInOrder, AreReplies};

// ---- a world begins and goes on

/// Two new sessions of other roles, and nothing between them, are a world (RFC 3080, section
/// 2.3.1).
pub fn two_new_sessions_begin_a_world()
    ensures { (a b : Held) (greeting_a greeting_b : List ℕ) → AreLimits a.limits
        → AreLimits b.limits → b.role ≡ other_role a.role
        → (begun_a : BeginsPeer a.limits.window greeting_a a.peer)
        → (begun_b : BeginsPeer b.limits.window greeting_b b.peer)
        → IsLawfulSession a [] [] [] begun_a.given no_marks
        → IsLawfulSession b [] [] [] begun_b.given no_marks
        → IsReached [] (record {
          a = end_of_new a begun_a.given;
          b = end_of_new b begun_b.given;
          to_a = [];
          to_b = [];
        }) }
{}

/// What a call does at one end leads to a further world: what it sent comes after what lies on the
/// wire, and what it used was the oldest of it.
pub fn a_step_of_a_session_leads_on()
    ensures by_a { (moves : List Move) (world : World) (act : Act) (session : Held)
        (later : List ℕ) → IsReached moves world → LeadsTo act world.a session
        → world.to_a ≡ used_by act ++ later
        → (next : World) × (next.a.session ≡ session) × (next.b ≡ world.b) × (next.to_a ≡ later)
        × (next.to_b ≡ world.to_b ++ sent_by act) × IsReached (a_does act ∷ moves) next }
    ensures by_b { (moves : List Move) (world : World) (act : Act) (session : Held)
        (later : List ℕ) → IsReached moves world → LeadsTo act world.b session
        → world.to_b ≡ used_by act ++ later
        → (next : World) × (next.b.session ≡ session) × (next.a ≡ world.a) × (next.to_b ≡ later)
        × (next.to_a ≡ world.to_a ++ sent_by act) × IsReached (b_does act ∷ moves) next }
{}

// ---- what a call does is a step

/// A request, a reply, a refusal, an answer and the NUL that ends answers, each given to an open
/// channel, are a step.
pub fn a_message_that_is_given_is_a_step()
    ensures { (number : ℕ) (kind : Kind) (octets : List ℕ) (old : End) (session : Held)
        → old.doing ≡ goes → is_over old.session.peer ≡ false → EndStands old
        → Gives number kind octets old.session session
        → KeepsUpright old.session session → LeadsTo (gives number kind octets) old session }
{}

/// A start, a close and the release that are done are a step: a close, by what it says that it
/// gave to channel zero.
pub fn a_request_of_channel_zero_is_a_step()
    ensures { (octets : List ℕ) (old : End) (session : Held) → old.doing ≡ goes → EndStands old
        → ((fed rest : List ℕ) (journal : List Item) (given taken : Marks)
        → IsPeer old.session.limits.window fed rest journal given taken old.session.peer
        → AsksZero old.session.limits.window fed rest journal given taken octets session.peer)
        → IsOfPeer old.session session → KeepsUpright old.session session
        → LeadsTo (asks octets) old session }
{}

/// A take that gives a part is a step.
pub fn a_take_is_a_step()
    ensures { (number : ℕ) (part : Part) (octets : List ℕ) (old : End) (session : Held)
        → old.doing ≡ goes → is_over old.session.peer ≡ false → EndStands old
        → Takes number part octets old.session session
        → KeepsUpright old.session session → LeadsTo (takes number part octets) old session }
{}

/// A call that is refused, or runs out of memory, is a step: it makes room and nothing else. What
/// the session has to say is left as it was.
pub fn a_refused_call_is_a_step()
    ensures { (old : End) (session : Held) → old.doing ≡ goes → EndStands old
        → IsUnchanged old.session.peer session.peer → IsOfPeer old.session session
        → KeepsUpright old.session session → LeadsTo rests old session }
{}

/// A settle is a step, whatever it answers (RFC 3080, section 2.3.1). Out of memory what the
/// session has to say is left as it was; it is a reply that breaks a rule.
pub fn a_settle_is_a_step()
    ensures done { (head : Head) (payload : List ℕ) (old : End) (session : Held)
        → old.doing ≡ waits head payload → EndStands old
        → Settles old.session.limits.window old.fed old.journal old.given old.taken head payload
        session.peer
        → IsUpright (terms_of old.session) (passed Side.Received head payload ∷ old.journal)
        session.peer.lives session.peer.management
        → IsOfPeer old.session session → LeadsTo settles old session }
    ensures broken { (head : Head) (payload : List ℕ) (rule : Rule) (place : ℕ) (old : End)
        (session : Held) → old.doing ≡ waits head payload → is_msg head.kind ≡ false
        → completes_form Side.Received head payload (zero_history old.journal) ≡ false
        → IsOfPeer old.session session → LeadsTo (stops rule place) old session }
    ensures memory { (head : Head) (payload : List ℕ) (old : End) (session : Held)
        → old.doing ≡ waits head payload → EndStands old
        → WaitsIn old.session.limits.window old.fed old.journal old.given old.taken head payload
        session.peer
        → IsUpright (terms_of old.session) old.journal session.peer.lives
        session.peer.management
        → IsOfPeer old.session session → LeadsTo rests old session }
{}

/// An emit is a step, whatever it answers (RFC 3080, section 2.6.1; RFC 3081, section 3.1). The
/// numbers of what goes out are in their ranges.
pub fn an_emit_is_a_step()
    ensures frame { (head : Head) (most : ℕ) (before after : List ℕ) (old : End) (session : Held)
        → old.doing ≡ goes → IsHead head
        → Speaks (Emit.Data head) old.session.limits.window most old.fed old.rest old.journal
        old.given old.taken old.session.peer session.peer before after
        → SpeaksLawfully (Emit.Data head) (terms_of old.session) old.fed old.rest old.journal
        old.given old.taken old.session.peer session.peer before after
        → IsOfPeer old.session session
        → (payload : List ℕ) × (after ≡ before ++ spelling (framed head payload))
        × LeadsTo (sends (framed head payload)) old session }
    ensures seq { (seq : Seq) (before after : List ℕ) (old : End) (session : Held)
        → old.doing ≡ goes → IsSeq seq
        → SpeaksLawfully (Emit.Seq seq) (terms_of old.session) old.fed old.rest old.journal
        old.given old.taken old.session.peer session.peer before after
        → IsOfPeer old.session session
        → (after ≡ before ++ spelling (seq_frame seq))
        × LeadsTo (sends (seq_frame seq)) old session }
    ensures nothing { (most : ℕ) (before after : List ℕ) (old : End) (session : Held)
        → old.doing ≡ goes
        → Speaks Emit.Nothing old.session.limits.window most old.fed old.rest old.journal
        old.given old.taken old.session.peer session.peer before after
        → IsOfPeer old.session session → (after ≡ before) × LeadsTo pauses old session }
    ensures over { (old : End) → old.doing ≡ goes → is_over old.session.peer ≡ true
        → LeadsTo pauses old old.session }
{}

/// A feed is a step, by the octets that it used and the event that it answered (RFC 3080, section
/// 2.2.1).
pub fn a_feed_is_a_step()
    ensures fine { (event : Event) (octets : List ℕ) (old : End) (session : Held)
        → old.doing ≡ goes → ((rule : Rule) (place : ℕ) → event ≡ Event.Broken rule place → ⊥)
        → event ≢ Event.Released
        → FeedsLawfully event (terms_of old.session) octets old.fed old.journal old.given
        old.taken session.peer
        → IsOfPeer old.session session → LeadsTo (gets octets event) old session }
    ensures broken { (rule : Rule) (place : ℕ) (octets : List ℕ) (old : End) (session : Held)
        → old.doing ≡ goes
        → Breaks rule place old.session.limits.window octets old.fed old.journal old.given
        old.taken session.peer.ear session.peer.lives → IsOfPeer old.session session
        → LeadsTo (gets octets (Event.Broken rule place)) old session }
    ensures busy { (event : Event) (old : End)
        → (is_over old.session.peer || zero_waits old.session.peer) ≡ true
        → LeadsTo (gets [] event) old old.session }
{}

// ---- no rule is ever broken

/// Each item of the journal of a world came or went in a frame or a SEQ, whose numbers are in their
/// ranges: so do those that an emit sends (RFC 3080, section 2.2.1.1; RFC 3081, section 3.1).
pub fn each_journal_of_a_world_is_of_frames()
    ensures at_a { (moves : List Move) (world : World) → IsReached moves world
        → AreFrames world.a.journal }
    ensures at_b { (moves : List Move) (world : World) → IsReached moves world
        → AreFrames world.b.journal }
{}

/// Each session of a world that is reached stands for its journal, and lawfully so: neither has
/// stopped at a broken rule, whatever was done (RFC 3080, sections 2.2 and 2.3; RFC 3081, section
/// 3).
pub fn each_session_of_a_world_stands()
    ensures at_a { (moves : List Move) (world : World) → IsReached moves world
        → StandsUnbroken world.a }
    ensures at_b { (moves : List Move) (world : World) → IsReached moves world
        → StandsUnbroken world.b }
{}

/// No feed of octets that lie on its wire breaks a rule.
pub fn no_octet_of_the_wire_breaks_a_rule()
    ensures to_a { (moves : List Move) (world : World) (session : Held) (octets later : List ℕ)
        (rule : Rule) (place : ℕ) → IsReached moves world → world.a.doing ≡ goes
        → world.to_a ≡ octets ++ later → IsOfPeer world.a.session session
        → Breaks rule place world.a.session.limits.window octets world.a.fed world.a.journal
        world.a.given world.a.taken session.peer.ear session.peer.lives → ⊥ }
    ensures to_b { (moves : List Move) (world : World) (session : Held) (octets later : List ℕ)
        (rule : Rule) (place : ℕ) → IsReached moves world → world.b.doing ≡ goes
        → world.to_b ≡ octets ++ later → IsOfPeer world.b.session session
        → Breaks rule place world.b.session.limits.window octets world.b.fed world.b.journal
        world.b.given world.b.taken session.peer.ear session.peer.lives → ⊥ }
{}

/// No message of channel zero that waits is a reply without its form.
pub fn no_reply_that_waits_breaks_a_rule()
    ensures at_a { (moves : List Move) (world : World) (head : Head) (payload : List ℕ)
        → IsReached moves world → world.a.doing ≡ waits head payload → is_msg head.kind ≡ false
        → completes_form Side.Received head payload (zero_history world.a.journal) ≡ true }
    ensures at_b { (moves : List Move) (world : World) (head : Head) (payload : List ℕ)
        → IsReached moves world → world.b.doing ≡ waits head payload → is_msg head.kind ≡ false
        → completes_form Side.Received head payload (zero_history world.b.journal) ≡ true }
{}

// ---- what is given and taken

/// Of each life and giver what was taken is the first part of what was given: octets, ends of
/// messages, and the requests that replies name (RFC 3080, sections 2.1 and 2.6.1).
pub fn what_is_taken_is_a_prefix_of_what_is_given()
    ensures by_b { (moves : List Move) (world : World) (number count : ℕ)
        → IsReached moves world → 0 < number → 0 < count
        → IsPrefix (world.b.took number count) (world.a.gave number count) }
    ensures by_a { (moves : List Move) (world : World) (number count : ℕ)
        → IsReached moves world → 0 < number → 0 < count
        → IsPrefix (world.a.took number count) (world.b.gave number count) }
{}

/// The replies that were taken of a life name the requests in their order (RFC 3080, section
/// 2.6.1).
pub fn replies_are_taken_in_the_order_of_their_requests()
    ensures by_b { (moves : List Move) (world : World) (number count : ℕ)
        → IsReached moves world → 0 < number → 0 < count
        → IsTakenInOrder world.b number count }
    ensures by_a { (moves : List Move) (world : World) (number count : ℕ)
        → IsReached moves world → 0 < number → 0 < count
        → IsTakenInOrder world.a number count }
{}

/// Each reply that was taken of a life names the request after those that have a whole reply, and
/// its giver had wholly taken that request: so each request has one reply, RPY, ERR, or answers and
/// their NUL (RFC 3080, section 2.1.1).
pub fn each_reply_answers_a_request_that_was_taken()
    ensures by_b { (moves : List Move) (world : World) (number count : ℕ)
        → IsReached moves world → 0 < number → 0 < count
        → AreReplies (ends_of is_msg (world.a.took number count)) 0
        (world.b.took number count) }
    ensures by_a { (moves : List Move) (world : World) (number count : ℕ)
        → IsReached moves world → 0 < number → 0 < count
        → AreReplies (ends_of is_msg (world.b.took number count)) 0
        (world.a.took number count) }
{}

// ---- that all is taken

/// Of a life that has ended at one end all that was given at either was taken at the other,
/// whatever lies on the wires (RFC 3080, section 2.3.1.3).
pub fn a_life_that_has_ended_was_taken_whole()
    ensures { (moves : List Move) (world : World) (number count : ℕ) → IsReached moves world
        → 0 < number → 0 < count
        → (has_ended number count (events world.a.journal) ≡ true)
        ⊎ (has_ended number count (events world.b.journal) ≡ true)
        → (world.b.took number count ≡ world.a.gave number count)
        × (world.a.took number count ≡ world.b.gave number count) }
{}

/// The same of each life, where one end is released (RFC 3080, section 2.4).
pub fn a_released_session_was_taken_whole()
    ensures { (moves : List Move) (world : World) (number count : ℕ) → IsReached moves world
        → 0 < number → 0 < count
        → (is_released world.a.journal ≡ true) ⊎ (is_released world.b.journal ≡ true)
        → (world.b.took number count ≡ world.a.gave number count)
        × (world.a.took number count ≡ world.b.gave number count) }
{}

/// A greeting of no more octets than go before any SEQ has gone where nothing is due at its end and
/// no octet is on its way (RFC 3081, section 3.1.4).
pub fn a_short_greeting_has_gone()
    ensures at_a { (moves : List Move) (world : World) (reached : IsReached moves world)
        → GreetsShortly (first_of moves world reached).a → world.a.doing ≡ goes
        → NothingIsDue world.a → world.to_a ≡ [] → world.to_b ≡ []
        → is_greeted world.a.session.peer.management ≡ true }
    ensures at_b { (moves : List Move) (world : World) (reached : IsReached moves world)
        → GreetsShortly (first_of moves world reached).b → world.b.doing ≡ goes
        → NothingIsDue world.b → world.to_a ≡ [] → world.to_b ≡ []
        → is_greeted world.b.session.peer.management ≡ true }
{}

/// Where at each end nothing is due or the session is over, no octet is on its way and nothing that
/// arrived is untaken, all that was given was taken, of each life and giver (RFC 3081, section
/// 3.1.4).
pub fn nothing_stalls()
    ensures { (moves : List Move) (world : World) (number count : ℕ) → IsReached moves world
        → IsStill world → 0 < number → 0 < count
        → (world.b.took number count ≡ world.a.gave number count)
        × (world.a.took number count ≡ world.b.gave number count) }
{}
