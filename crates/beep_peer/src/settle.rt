//! What a whole message of channel zero makes of a session (RFC 3080, section 2.3.1).
ghost use Rattle.std.specs.Prelude.{◌≡◌, ◌≢◌, ◌↔◌, ◌∷◌, [], ℕ, ◌≤◌, ◌+◌, ◌-◌, ◌&&◌, List, length, true, false, None, Some, Err, IfSome, IfOk, IfErr, OnOk, OnErr, IsOk, option_map};
ghost use Rattle.std.specs.List.{list_all};
ghost use Rattle.std.specs.Option.{option_map_or, option_to_list};
ghost use Rattle.beep_upright.specs.beep_frame.specs.declared.rule.Rule.{Rule};
ghost use Rattle.beep_upright.specs.beep_frame.specs.Modulo.{modulo_2_64};
ghost use Rattle.beep_upright.specs.beep_frame.specs.Frame.{is_msg};
ghost use Rattle.beep_upright.specs.beep_history.specs.declared.journal.Side.{Side};
ghost use Rattle.beep_upright.specs.beep_history.specs.Journal.{Item, passed};
ghost use Rattle.beep_upright.specs.beep_mgmt.specs.Form.{close, form_of};
ghost use Rattle.beep_upright.specs.beep_lives.specs.Lives.{live_at};
ghost use Rattle.beep_upright.specs.beep_mgmt.specs.Message.{message_said};
ghost use Rattle.beep_upright.specs.beep_journal.specs.Zero.{zero_history, completes_form};
ghost use Rattle.beep_upright.specs.beep_seq.specs.declared.limits.TheConstants.{MIN_WINDOW, MAX_WINDOW};
ghost use Rattle.beep_upright.specs.beep_turns.specs.declared.turns.TheConstants.{MAX_CHANNELS};
ghost use Rattle.beep_upright.specs.beep_channel.specs.Held.{Live};
ghost use Rattle.beep_upright.specs.beep_lawful.specs.declared.terms.Terms.{Terms};
ghost use Rattle.beep_upright.specs.beep_standing.specs.Standing.{Marks};
ghost use Rattle.beep_upright.specs.Upright.{IsUpright};
ghost use Rattle.beep_hearing.specs.Hears.{Passes, KeepsOthers};
ghost use Rattle.beep_upright.specs.beep_decide.specs.Asks.{is_close_of};
ghost use Rattle.beep_upright.specs.beep_decide.specs.Decide.{PlainOffer, decide as decided};
ghost use Rattle.beep_upright.specs.beep_decide.specs.Plain.{plain_standing};
ghost use Rattle.beep_upright.specs.beep_asked.specs.Kept.{Kept, names_one, oldest, fits};
ghost use Rattle.beep_upright.specs.beep_asked.specs.Request.{kept_of};
ghost use Rattle.beep_upright.specs.beep_management.specs.Managed.{number_started};
ghost use Rattle.beep_upright.specs.beep_management.specs.Manages.{AreFresh};
ghost use Rattle.beep_upright.specs.beep_management.specs.Moved.{Does, is_live_in};
ghost use Rattle.beep_peer.specs.declared.settle_error.SettleError.{SettleError as SettleErrorValue};
ghost use Rattle.beep_answering.specs.declared.offers.TheConstants.{MAX_OFFERS};
ghost use Rattle.beep_answering.specs.Sent.{is_uri};
ghost use Rattle.beep_answering.specs.Decided.{NoneTunes, IsSettledBy, IsSettledAs};
ghost use Rattle.beep_peer.specs.Grants.{NamesAbove};
ghost use Rattle.beep_peer.specs.Peering.{WaitsIn, IsWaiting};
ghost use Rattle.beep_peer.specs.Calls.{Settles, SettlesReply, SettlesRequest};
ghost use Rattle.beep_peer.specs.Standing.{standing_of};
ghost use Rattle.beep_peer.specs.Waiting.{IsStuck};
ghost use Rattle.beep_peer.specs.Acts.{IsUnchanged};

use crate::grant::grant;
use crate::letting::let_go;
use crate::peer::Peer;
use crate::room::reserve_with;
use crate::settle_error::SettleError;
use beep_answering::{Prepared, Settled, prepare, settled_as};
use beep_upright::beep_asked::Request;
use beep_upright::beep_decide::Standing;
use beep_upright::beep_frame::{Head, Kind};
use beep_upright::beep_lives::Lives;
use beep_upright::beep_management::Answered;
use beep_upright::beep_mgmt::Mgmt;
use beep_upright::beep_octets::NoMemory;
use std::alloc::Global;

/// A request of the peer that waits, and says this, is answered. `window` is the own window of each
/// channel.
pub fn settle_request(
    alloc: Global,
    peer: &mut Peer,
    standing: &Standing,
    window: u32,
    head: &Head,
    said: Option<Mgmt>,
) -> Result<Settled, NoMemory>
    requires least { MIN_WINDOW ≤ window }
    requires greatest { window ≤ MAX_WINDOW }
    requires few { length standing.now.offers.items ≤ MAX_OFFERS }
    requires uris { list_all (λ offer. is_uri offer.uri) standing.now.offers.items ≡ true }
    requires none { NoneTunes (plain_standing standing.now).offers }
    requires room { length (plain_standing standing.now).live
        + length (plain_standing standing.now).starting
        + 1 ≡ length peer.old.lives + (length peer.old.management.starting
        + length peer.old.management.granted) }
    requires waits { IsWaiting window head.now peer.old }
    requires said { option_map form_of said ≡ message_said peer.old.ear.text.octets }
    requires request { is_msg head.now.kind ≡ true }
    ensures ok { (fed : List ℕ) (journal : List Item) (given taken : Marks) (payload : List ℕ)
        → WaitsIn window fed journal given taken head.now payload peer.old
        → OnOk result (Settles window fed journal given taken head.now payload peer.new) }
    ensures settled { IfOk result (λ settled. IsSettledBy
        (decided (plain_standing standing.now) (option_map form_of said))
        (option_map form_of said) settled) }
    ensures answers { (fed : List ℕ) (journal : List Item) (given taken : Marks)
        (payload : List ℕ)
        → WaitsIn window fed journal given taken head.now payload peer.old
        → IfOk result (λ settled. SettlesRequest window fed journal given taken head.now payload
        (plain_standing standing.now) (option_map form_of said) settled
        peer.old.management.answers peer.new) }
    ensures upright { (terms : Terms) (offers : List PlainOffer) (fed : List ℕ)
        (journal : List Item) (given taken : Marks) (payload : List ℕ) → terms.window ≡ window
        → plain_standing standing.now ≡ standing_of terms.role offers peer.old
        → WaitsIn window fed journal given taken head.now payload peer.old
        → IsUpright terms journal peer.old.lives peer.old.management
        → OnOk result (IsUpright terms (passed Side.Received head.now payload ∷ journal)
        peer.new.lives peer.new.management) }
    ensures err { OnErr result ((fed : List ℕ) (journal : List Item) (given taken : Marks)
        (payload : List ℕ) → WaitsIn window fed journal given taken head.now payload peer.old
        → WaitsIn window fed journal given taken head.now payload peer.new) }
    ensures same { OnErr result (IsUnchanged peer.old peer.new) }
    ensures stuck { OnOk result (IsStuck peer.new.lives peer.new.management) }
{
    let Prepared {
        answer,
        channel,
        settled,
    } = prepare(alloc, standing, window, said.as_ref())?;
    reserve_with(&mut peer.lives, &peer.management, answer.octets.len())?;
    let names = names_live(peer, &said);
    let request = Request {
        said,
        implied: false,
        names,
    };
    peer.management.came(request, answer, channel)?;
    peer.ear.pass_zero(&mut peer.lives);
    let_go(&mut peer.lives, &mut peer.management);
    Ok(settled)
}

/// Whether a request is a close of a number above 0 that is live.
fn names_live(peer: &Peer, said: &Option<Mgmt>) -> bool
    ensures { result ≡ names_one (is_live_in peer.now.lives) (option_map form_of said.now) }
{
    match said {
        Some(Mgmt::Close { number, .. }) => 0 < *number && peer.lives.is_live(*number),
        Some(
            Mgmt::Greeting { .. }
            | Mgmt::Start { .. }
            | Mgmt::Chosen { .. }
            | Mgmt::Okay
            | Mgmt::Fault { .. },
        )
        | None => false,
    }
}

/// A reply of the peer that waits, and says this, answers the oldest own request, or breaks
/// ZeroReply.
pub fn settle_reply(
    peer: &mut Peer,
    head: &Head,
    said: Option<Mgmt>,
) -> Result<Settled, SettleError>
    requires waits { ∥ ((size : ℕ) × IsWaiting size head.now peer.old) ∥₁ }
    requires said { option_map form_of said ≡ message_said peer.old.ear.text.octets }
    requires reply { is_msg head.now.kind ≡ false }
    ensures ok { (size : ℕ) (fed : List ℕ) (journal : List Item) (given taken : Marks)
        (payload : List ℕ) → WaitsIn size fed journal given taken head.now payload peer.old
        → OnOk result (Settles size fed journal given taken head.now payload peer.new) }
    ensures answers { (size : ℕ) (fed : List ℕ) (journal : List Item) (given taken : Marks)
        (payload : List ℕ) → WaitsIn size fed journal given taken head.now payload peer.old
        → OnOk result (SettlesReply size fed journal given taken head.now payload
        peer.old.management.answers peer.new) }
    ensures settled { (one : Kept) → oldest peer.old.management.mine.requests ≡ Some one
        → IfOk result (λ settled. IsSettledAs one (option_map form_of said) settled) }
    ensures fits { (size : ℕ) (fed : List ℕ) (journal : List Item) (given taken : Marks)
        (payload : List ℕ) → WaitsIn size fed journal given taken head.now payload peer.old
        → IsOk result
        ↔ (completes_form Side.Received head.now payload (zero_history journal) ≡ true) }
    ensures broken { (size : ℕ) (fed : List ℕ) (journal : List Item) (given taken : Marks)
        (payload : List ℕ) → WaitsIn size fed journal given taken head.now payload peer.old
        → IfErr result (λ error. error
        ≡ SettleErrorValue.Broken Rule.ZeroReply (modulo_2_64 (length fed - 1))) }
    ensures upright { (terms : Terms) (fed : List ℕ) (journal : List Item) (given taken : Marks)
        (payload : List ℕ)
        → WaitsIn terms.window fed journal given taken head.now payload peer.old
        → IsUpright terms journal peer.old.lives peer.old.management
        → OnOk result (IsUpright terms (passed Side.Received head.now payload ∷ journal)
        peer.new.lives peer.new.management) }

    // A reply without its form changes nothing that is still to be said.
    ensures refused { (terms : Terms) (fed : List ℕ) (journal : List Item) (given taken : Marks)
        (payload : List ℕ)
        → WaitsIn terms.window fed journal given taken head.now payload peer.old
        → IsUpright terms journal peer.old.lives peer.old.management
        → OnErr result (IsUpright terms journal peer.new.lives peer.new.management) }

    ensures passes { (size : ℕ) (fed : List ℕ) (journal : List Item) (given taken : Marks)
        (payload : List ℕ) → WaitsIn size fed journal given taken head.now payload peer.old
        → OnErr result (Passes size journal (passed Side.Received head.now payload ∷ journal)
        given taken peer.new.lives) }
    ensures rests { OnErr result (KeepsOthers 0 peer.old.lives peer.new.lives
        × (peer.new.management ≡ peer.old.management)
        × (peer.new.released ≡ peer.old.released)) }
    ensures memory { result ≢ Err SettleErrorValue.NoMemory }
    ensures stopped { IfErr result (λ error. (rule : Rule) (place : ℕ)
        → error ≡ SettleErrorValue.Broken rule place → peer.new.ear.broken
        ≡ Some (record { rule = rule; place = place; left = 0 })) }
    ensures stuck { OnOk result (IsStuck peer.new.lives peer.new.management) }
{
    if !peer.management.mine().fits(head.kind, &said) {
        let (rule, place) = peer.ear.refuse_zero(&mut peer.lives);
        return Err(SettleError::Broken(rule, place));
    }
    Ok(obey_reply(peer, head, said))
}

/// A reply of the peer that waits has the form that the oldest own request asks for: it passes, and
/// what it says is done.
fn obey_reply(peer: &mut Peer, head: &Head, said: Option<Mgmt>) -> Settled
    requires waits { ∥ ((size : ℕ) × IsWaiting size head.now peer.old) ∥₁ }
    requires said { option_map form_of said ≡ message_said peer.old.ear.text.octets }
    requires reply { is_msg head.now.kind ≡ false }
    requires fits { option_map_or (fits head.now.kind (option_map form_of said))
        (oldest peer.old.management.mine.requests) false ≡ true }
    ensures stands { (size : ℕ) (fed : List ℕ) (journal : List Item) (given taken : Marks)
        (payload : List ℕ) → WaitsIn size fed journal given taken head.now payload peer.old
        → SettlesReply size fed journal given taken head.now payload
        peer.old.management.answers peer.new }
    ensures settled { (one : Kept) → oldest peer.old.management.mine.requests ≡ Some one
        → IsSettledAs one (option_map form_of said) result }
    ensures upright { (terms : Terms) (fed : List ℕ) (journal : List Item) (given taken : Marks)
        (payload : List ℕ)
        → WaitsIn terms.window fed journal given taken head.now payload peer.old
        → IsUpright terms journal peer.old.lives peer.old.management
        → IsUpright terms (passed Side.Received head.now payload ∷ journal) peer.new.lives
        peer.new.management }
    ensures stuck { IsStuck peer.new.lives peer.new.management }
{
    let grants = Kind::Rpy.is_same(head.kind);
    let answered = peer.management.take_mine(grants);
    peer.ear.pass_zero(&mut peer.lives);
    let settled = settled_as(&answered.request, said);
    let released = grant_where(grants, &mut peer.lives, answered);
    peer.released = peer.released || released;
    let_go(&mut peer.lives, &mut peer.management);
    settled
}

/// Does to the channels what the answer to a request makes of lives: nothing, where it is a
/// refusal. True where the session is released.
fn grant_where(grants: bool, lives: &mut Lives, answered: Answered) -> bool
    requires room { grants ≡ true
        → IfSome answered.channel (λ channel. length lives.old ≤ MAX_CHANNELS) }
    requires number { grants ≡ true → IfSome answered.channel (λ channel.
        number_started (kept_of answered.request).said ≡ channel.held.number ∷ []) }
    requires above { grants ≡ true
        → NamesAbove (kept_of answered.request).said answered.request.names }
    ensures done { grants ≡ true → (size : ℕ) (channel : Live)
        → AreFresh size (number_started (kept_of answered.request).said)
        (option_to_list answered.channel)
        → IfSome answered.channel (λ one. one ≡ channel)
        → Does size (kept_of answered.request).said answered.request.names channel
        lives.old lives.new }
    ensures leaves { grants ≡ true → (number code : ℕ) (note : List ℕ)
        → (kept_of answered.request).said ≡ Some (close number code note)
        → answered.request.names ≡ true → live_at number lives.new ≡ None }
    ensures kept { grants ≡ false → lives.new ≡ lives.old }
    ensures released { result ≡ (grants && is_close_of 0 (kept_of answered.request).said) }
{
    grants && grant(lives, answered)
}
