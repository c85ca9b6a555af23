//! One peer of a session.
ghost use Rattle.std.specs.Prelude.{◌≡◌, ◌≢◌, ◌<◌, ◌≤◌, ◌+◌, ◌-◌, ◌++◌, ◌∷◌, [], ℕ, List, length, take, map, min, true, false, None, Some, Err, IfOk, IsOk, OnOk, OnErr, option_map};
ghost use Rattle.std.specs.List.{list_all};
ghost use Rattle.beep_giving.specs.beep_frame.specs.declared.rule.Rule.{Rule as RuleValue};
ghost use Rattle.beep_giving.specs.beep_frame.specs.declared.head.Head.{Head as HeadValue};
ghost use Rattle.beep_giving.specs.beep_frame.specs.declared.seq.Seq.{Seq as SeqValue};
ghost use Rattle.beep_giving.specs.beep_frame.specs.declared.spelling.TheConstants.{SPELL_ROOM};
ghost use Rattle.beep_settings.specs.declared.limits.TheConstants.{MAX_PIECE};
ghost use Rattle.beep_giving.specs.beep_frame.specs.Modulo.{modulo_2_64};
ghost use Rattle.beep_giving.specs.beep_frame.specs.Frame.{is_msg};
ghost use Rattle.beep_giving.specs.beep_history.specs.declared.journal.Side.{Side};
ghost use Rattle.beep_giving.specs.beep_history.specs.Journal.{Item, passed};
ghost use Rattle.beep_giving.specs.beep_mgmt.specs.Form.{form_of};
ghost use Rattle.beep_giving.specs.beep_mgmt.specs.Message.{message_said, message_text};
ghost use Rattle.beep_giving.specs.beep_journal.specs.Zero.{zero_history, gathered, completes_form};
ghost use Rattle.beep_giving.specs.beep_standing.specs.Standing.{Marks, no_marks};
ghost use Rattle.beep_giving.specs.beep_decide.specs.Decide.{decide as decided};
ghost use Rattle.beep_giving.specs.beep_decide.specs.Plain.{plain_offer};
ghost use Rattle.beep_giving.specs.beep_asked.specs.Kept.{Kept, oldest};
ghost use Rattle.beep_giving.specs.beep_speaking.specs.declared.emit.Emit.{Emit as EmitValue};
ghost use Rattle.beep_session.specs.declared.event.Event.{Event as EventValue};
ghost use Rattle.beep_giving.specs.beep_peer.specs.declared.settle_error.SettleError.{SettleError as SettleErrorValue};

mod acts;
mod giving;
mod looks;

use crate::event::Event;
use crate::limits::Limits;
use beep_giving::beep_answering::{Offers, Settled, greeting_text};
use beep_giving::beep_decide::Standing;
use beep_giving::beep_frame::Head;
use beep_giving::beep_journal::{Role, message_said};
use beep_giving::beep_mgmt::Mgmt;
use beep_giving::beep_octets::{NoMemory, Octets};
use beep_giving::beep_peer::{Peer, SettleError, settle_reply, settle_request, speak, stand};
use beep_giving::beep_speaking::Emit;
use std::alloc::Global;
use std::marker::Model;

/// One peer: it obeys what it is fed, decides what channel zero asks, and says what goes out.
#[derive(Drop)]
pub struct Session {
    alloc: Global,
    peer: Peer,
    standing: Standing,
    limits: Limits,
    scratch: Octets,
}

impl Model for Session {
    ghost use Rattle.std.specs.Prelude.{map, length, ◌+◌, ◌≤◌};
    ghost use Rattle.beep_giving.specs.beep_decide.specs.Plain.{plain_offer};
    ghost use Rattle.beep_session.specs.Session.{Held, IsSession};

    ghost Value = { Held };

    ghost view = { λ s. record {
      role = s.standing.role;
      offers = map plain_offer s.standing.offers.items;
      limits = s.limits;
      peer = s.peer;
    } };

    ghost invariant = { λ s. IsSession (record {
      role = s.standing.role;
      offers = map plain_offer s.standing.offers.items;
      limits = s.limits;
      peer = s.peer;
    }) × (s.limits.piece ≤ length s.scratch.octets + s.scratch.spare) };
}

impl Session {
    ghost use Rattle.beep_giving.specs.beep_peer.specs.Peering.{IsPeer, WaitsIn, is_over, zero_waits};
    ghost use Rattle.beep_giving.specs.beep_peer.specs.Calls.{Begins, Settles, SettlesReply, SettlesRequest, Speaks, TakesTurn};
    ghost use Rattle.beep_giving.specs.beep_peer.specs.Left.{left_to_say};
    ghost use Rattle.beep_giving.specs.beep_peer.specs.Waiting.{IsStuck};
    ghost use Rattle.beep_giving.specs.beep_peer.specs.Acts.{IsUnchanged};
    ghost use Rattle.beep_session.specs.Events.{is_going};
    ghost use Rattle.beep_session.specs.Feeds.{Feeds};
    ghost use Rattle.beep_giving.specs.beep_answering.specs.Decided.{NoneTunes, IsSettledBy, IsSettledAs};
    ghost use Rattle.beep_giving.specs.beep_answering.specs.Sent.{is_uri, greeting_of};
    ghost use Rattle.beep_session.specs.Session.{AreLimits};
    ghost use Rattle.beep_giving.specs.beep_peer.specs.Standing.{standing_of};
    ghost use Rattle.beep_giving.specs.beep_upright.specs.Upright.{IsUpright};
    ghost use Rattle.beep_giving.specs.beep_upright.specs.Frames.{AreFrames, IsFramed};
    ghost use Rattle.beep_giving.specs.beep_peer.specs.Lawfully.{SpeaksLawfully};
    ghost use Rattle.beep_session.specs.Lawfully.{terms_of, IsLawfulSession, FeedsLawfully};

    /// A session that has begun: its greeting is the first message to go out.
    pub fn new(
        alloc: Global,
        role: Role,
        offers: Offers,
        limits: Limits,
    ) -> Result<Session, NoMemory>
        requires limits { AreLimits limits }
        requires uris { list_all (λ offer. is_uri offer.uri) offers ≡ true }
        requires none { NoneTunes (map plain_offer offers) }
        ensures stands { IfOk result (λ session. Begins limits.window
            (message_text (greeting_of (map plain_offer offers))) session.peer) }
        ensures lawful { IfOk result (λ session. (begun : Begins limits.window
            (message_text (greeting_of (map plain_offer offers))) session.peer)
            → IsLawfulSession session [] [] [] begun.given no_marks) }
        ensures terms { IfOk result (λ session. (session.role ≡ role)
            × (session.offers ≡ map plain_offer offers) × (session.limits ≡ limits)) }
    {
        let offers = offers.into_vec();
        let greeting = greeting_text(alloc, &offers)?;
        let peer = Peer::begin(alloc, limits.window, greeting)?;
        let mut scratch = Octets::new(alloc);
        scratch.reserve(limits.piece as usize)?;
        Ok(Session {
            alloc,
            peer,
            standing: Standing {
                role,
                offers,
                live: Vec::new(alloc),
                starting: Vec::new(alloc),
                closing: Vec::new(alloc),
                leaving: false,
            },
            limits,
            scratch,
        })
    }

    // ---- what comes and goes

    /// Uses octets up to the next event, and answers how many.
    pub fn feed(&mut self, bytes: &[u8]) -> (usize, Event)
        ensures within { result.0 ≤ length bytes.now }
        ensures all { result.1 ≡ EventValue.More → result.0 ≡ length bytes.now }
        ensures progress { is_over self.old.peer ≡ false → zero_waits self.old.peer ≡ false
            → 0 < length bytes.now → is_going result.1 ≡ true → 0 < result.0 }
        ensures answers { (fed rest : List ℕ) (journal : List Item) (given taken : Marks)
            → self.old.peer.released ≡ false
            → IsPeer self.old.limits.window fed rest journal given taken self.old.peer
            → Feeds result.1 self.old.limits.window (take result.0 bytes.now) fed journal given
            taken self.new.peer }
        ensures lawful { (fed rest : List ℕ) (journal : List Item) (given taken : Marks)
            → self.old.peer.released ≡ false
            → IsLawfulSession self.old fed rest journal given taken
            → FeedsLawfully result.1 (terms_of self.old) (take result.0 bytes.now) fed journal
            given taken self.new.peer }
        ensures released { self.old.peer.released ≡ true
            → (result.0 ≡ 0) × (result.1 ≡ EventValue.Released) × (self.new ≡ self.old) }
        ensures broken { (rule : RuleValue) (place left : ℕ) → self.old.peer.released ≡ false
            → self.old.peer.ear.broken
            ≡ Some (record { rule = rule; place = place; left = left })
            → (result.0 ≡ 0) × (result.1 ≡ EventValue.Broken rule place)
            × (self.new ≡ self.old) }
        ensures waiting { (head : HeadValue) → self.old.peer.released ≡ false
            → self.old.peer.ear.broken ≡ None → self.old.peer.ear.waits ≡ Some head
            → (result.0 ≡ 0) × (result.1 ≡ EventValue.Zero) × (self.new ≡ self.old) }

        // No wait of an answer of channel zero comes true by what arrives.
        ensures stuck { IsStuck self.old.peer.lives self.old.peer.management
            → IsStuck self.new.peer.lives self.new.peer.management }

        ensures kept { (self.new.peer.released ≡ self.old.peer.released)
            × (self.new.peer.management ≡ self.old.peer.management) }
        ensures same { self.new ≡ record self.old { peer = self.new.peer } }
    {
        if self.peer.released {
            return (0, Event::Released);
        }
        let (count, heard) = self.peer.ear.feed(&mut self.peer.lives, bytes);
        (count, Event::of(heard))
    }

    /// Settles the message of channel zero that waits.
    pub fn settle(&mut self) -> Result<Settled, SettleError>
        requires waits { zero_waits self.old.peer ≡ true }
        ensures ok { (fed : List ℕ) (journal : List Item) (given taken : Marks) (head : HeadValue)
            (payload : List ℕ) → WaitsIn self.old.limits.window fed journal given taken head
            payload self.old.peer → OnOk result (Settles self.old.limits.window fed journal given
            taken head payload self.new.peer) }
        ensures decided { (fed : List ℕ) (journal : List Item) (given taken : Marks)
            (head : HeadValue) (payload : List ℕ) → WaitsIn self.old.limits.window fed journal
            given taken head payload self.old.peer → is_msg head.kind ≡ true
            → IfOk result (λ settled. IsSettledBy (decided
            (standing_of self.old.role self.old.offers self.old.peer)
            (message_said (gathered Side.Received (zero_history journal) ++ payload)))
            (message_said (gathered Side.Received (zero_history journal) ++ payload)) settled) }

        ensures asked { (fed : List ℕ) (journal : List Item) (given taken : Marks)
            (head : HeadValue) (payload : List ℕ) → WaitsIn self.old.limits.window fed journal
            given taken head payload self.old.peer → is_msg head.kind ≡ true
            → IfOk result (λ settled. SettlesRequest self.old.limits.window fed journal given
            taken head payload (standing_of self.old.role self.old.offers self.old.peer)
            (message_said (gathered Side.Received (zero_history journal) ++ payload)) settled
            self.old.peer.management.answers self.new.peer) }
        ensures answered { (fed : List ℕ) (journal : List Item) (given taken : Marks)
            (head : HeadValue) (payload : List ℕ) → WaitsIn self.old.limits.window fed journal
            given taken head payload self.old.peer → is_msg head.kind ≡ false
            → OnOk result (SettlesReply self.old.limits.window fed journal given taken head
            payload self.old.peer.management.answers self.new.peer) }

        // What an end has to say may go after it. An item that arrives is lawful.
        ensures upright { (fed : List ℕ) (journal : List Item) (given taken : Marks)
            (head : HeadValue) (payload : List ℕ) → WaitsIn self.old.limits.window fed journal
            given taken head payload self.old.peer
            → IsUpright (terms_of self.old) journal self.old.peer.lives self.old.peer.management
            → OnOk result (IsUpright (terms_of self.old)
            (passed Side.Received head payload ∷ journal) self.new.peer.lives
            self.new.peer.management) }
        ensures refused { (fed : List ℕ) (journal : List Item) (given taken : Marks)
            (head : HeadValue) (payload : List ℕ) → WaitsIn self.old.limits.window fed journal
            given taken head payload self.old.peer
            → IsUpright (terms_of self.old) journal self.old.peer.lives self.old.peer.management
            → OnErr result (IsUpright (terms_of self.old) journal self.new.peer.lives
            self.new.peer.management) }

        ensures replied { (fed : List ℕ) (journal : List Item) (given taken : Marks)
            (head : HeadValue) (payload : List ℕ) (one : Kept) → WaitsIn self.old.limits.window
            fed journal given taken head payload self.old.peer → is_msg head.kind ≡ false
            → oldest self.old.peer.management.mine.requests ≡ Some one
            → IfOk result (IsSettledAs one
            (message_said (gathered Side.Received (zero_history journal) ++ payload))) }

        // A reply without its form breaks ZeroReply, at the last octet of its last frame.
        ensures fits { (fed : List ℕ) (journal : List Item) (given taken : Marks)
            (head : HeadValue) (payload : List ℕ) → WaitsIn self.old.limits.window fed journal
            given taken head payload self.old.peer → is_msg head.kind ≡ false → IsOk result
            → completes_form Side.Received head payload (zero_history journal) ≡ true }
        ensures broken { (fed : List ℕ) (journal : List Item) (given taken : Marks)
            (head : HeadValue) (payload : List ℕ) (rule : RuleValue) (place : ℕ)
            → WaitsIn self.old.limits.window fed journal given taken head payload self.old.peer
            → result ≡ Err (SettleErrorValue.Broken rule place)
            → (rule ≡ RuleValue.ZeroReply) × (place ≡ modulo_2_64 (length fed - 1))
            × (is_msg head.kind ≡ false)
            × (completes_form Side.Received head payload (zero_history journal) ≡ false) }
        ensures stopped { (rule : RuleValue) (place : ℕ)
            → result ≡ Err (SettleErrorValue.Broken rule place) → self.new.peer.ear.broken
            ≡ Some (record { rule = rule; place = place; left = 0 }) }

        ensures rests { (rule : RuleValue) (place : ℕ)
            → result ≡ Err (SettleErrorValue.Broken rule place)
            → (self.new.peer.released ≡ self.old.peer.released)
            × (self.new.peer.management ≡ self.old.peer.management) }

        // No answer is held back whose wait is over.
        ensures stuck { OnOk result (IsStuck self.new.peer.lives self.new.peer.management) }

        ensures memory { (fed : List ℕ) (journal : List Item) (given taken : Marks)
            (head : HeadValue) (payload : List ℕ) → WaitsIn self.old.limits.window fed journal
            given taken head payload self.old.peer → result ≡ Err SettleErrorValue.NoMemory
            → WaitsIn self.old.limits.window fed journal given taken head payload
            self.new.peer }
        ensures unchanged { result ≡ Err SettleErrorValue.NoMemory
            → IsUnchanged self.old.peer self.new.peer }
        ensures same { self.new ≡ record self.old { peer = self.new.peer } }
    {
        let Some(head) = self.peer.ear.waiting() else {
            unreachable!()
        };
        let said = match message_said(self.alloc, self.peer.ear.text()) {
            Ok(said) => said,
            Err(NoMemory) => return Err(SettleError::NoMemory),
        };
        if !head.kind.is_msg() {
            return settle_reply(&mut self.peer, &head, said);
        }
        match self.settle_asked(&head, said) {
            Ok(settled) => Ok(settled),
            Err(NoMemory) => Err(SettleError::NoMemory),
        }
    }

    /// A request of the peer that waits, and says this, is answered by what stands.
    fn settle_asked(&mut self, head: &Head, said: Option<Mgmt>) -> Result<Settled, NoMemory>
        requires going { self.old.peer.ear.broken ≡ None }
        requires waits { self.old.peer.ear.waits ≡ Some head.now }
        requires said { option_map form_of said ≡ message_said self.old.peer.ear.text.octets }
        requires request { is_msg head.now.kind ≡ true }
        ensures ok { (fed : List ℕ) (journal : List Item) (given taken : Marks)
            (payload : List ℕ) → WaitsIn self.old.limits.window fed journal given taken head.now
            payload self.old.peer → OnOk result (Settles self.old.limits.window fed journal given
            taken head.now payload self.new.peer) }
        ensures decided { IfOk result (λ settled. IsSettledBy (decided
            (standing_of self.old.role self.old.offers self.old.peer) (option_map form_of said))
            (option_map form_of said) settled) }
        ensures asked { (fed : List ℕ) (journal : List Item) (given taken : Marks)
            (payload : List ℕ) → WaitsIn self.old.limits.window fed journal given taken head.now
            payload self.old.peer → IfOk result (λ settled. SettlesRequest
            self.old.limits.window fed journal given taken head.now payload
            (standing_of self.old.role self.old.offers self.old.peer) (option_map form_of said)
            settled self.old.peer.management.answers self.new.peer) }
        ensures upright { (fed : List ℕ) (journal : List Item) (given taken : Marks)
            (payload : List ℕ) → WaitsIn self.old.limits.window fed journal given taken head.now
            payload self.old.peer
            → IsUpright (terms_of self.old) journal self.old.peer.lives self.old.peer.management
            → OnOk result (IsUpright (terms_of self.old)
            (passed Side.Received head.now payload ∷ journal) self.new.peer.lives
            self.new.peer.management) }
        ensures err { OnErr result ((fed : List ℕ) (journal : List Item) (given taken : Marks)
            (payload : List ℕ) → WaitsIn self.old.limits.window fed journal given taken head.now
            payload self.old.peer → WaitsIn self.old.limits.window fed journal given taken
            head.now payload self.new.peer) }
        ensures unchanged { OnErr result (IsUnchanged self.old.peer self.new.peer) }
        ensures stuck { OnOk result (IsStuck self.new.peer.lives self.new.peer.management) }
        ensures same { self.new ≡ record self.old { peer = self.new.peer } }
    {
        stand(&mut self.standing, &self.peer)?;
        settle_request(
            self.alloc,
            &mut self.peer,
            &self.standing,
            self.limits.window,
            head,
            said,
        )
    }

    /// Appends to `out` what goes next, of at most `max` octets of payload.
    pub fn emit(&mut self, max: u32, out: &mut Octets) -> Emit
        requires least { 0 < max }
        requires most { max ≤ MAX_PIECE }
        requires room { max + SPELL_ROOM ≤ out.old.spare }
        requires settled { zero_waits self.old.peer ≡ false }
        ensures speaks { (fed rest : List ℕ) (journal : List Item) (given taken : Marks)
            → is_over self.old.peer ≡ false
            → IsPeer self.old.limits.window fed rest journal given taken self.old.peer
            → Speaks result self.old.limits.window (min max self.old.limits.piece) fed rest
            journal given taken self.old.peer self.new.peer out.old.octets out.new.octets }
        ensures lawful { (fed rest : List ℕ) (journal : List Item) (given taken : Marks)
            → is_over self.old.peer ≡ false
            → IsLawfulSession self.old fed rest journal given taken
            → SpeaksLawfully result (terms_of self.old) fed rest journal given taken
            self.old.peer self.new.peer out.old.octets out.new.octets }
        ensures framed { (fed rest : List ℕ) (journal : List Item) (given taken : Marks)
            → is_over self.old.peer ≡ false
            → IsLawfulSession self.old fed rest journal given taken → AreFrames journal
            → IsFramed result }
        ensures turn { is_over self.old.peer ≡ false → TakesTurn result self.old.peer }
        ensures told { (seq : SeqValue) → result ≡ EmitValue.Seq seq
            → (self.new.peer.management ≡ self.old.peer.management)
            × (self.new.peer.released ≡ self.old.peer.released) }
        ensures over { is_over self.old.peer ≡ true
            → (result ≡ EmitValue.Nothing) × (self.new ≡ self.old) × (out.new ≡ out.old) }
        ensures falls { result ≢ EmitValue.Nothing
            → left_to_say self.new.peer.lives self.new.peer.management
            < left_to_say self.old.peer.lives self.old.peer.management }
        ensures stuck { (head : HeadValue) → result ≡ EmitValue.Data head
            → IsStuck self.new.peer.lives self.new.peer.management }
        ensures still { IsStuck self.old.peer.lives self.old.peer.management
            → IsStuck self.new.peer.lives self.new.peer.management }
        ensures same { self.new ≡ record self.old { peer = self.new.peer } }
    {
        if self.is_over() {
            return Emit::Nothing;
        }
        let most = max.min(self.limits.piece);
        speak(&mut self.peer, &mut self.scratch, most, out)
    }
}
