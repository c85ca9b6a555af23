//! Messages that a program gives in a live life above zero (RFC 3080, section 2.1).
ghost use Rattle.std.specs.Prelude.{◌≡◌, ◌≢◌, ◌<◌, ◌==◌, ◌||◌, ℕ, List, length, None, Some, true, false, option_map, IsSome, IfSome, IfOk, IfErr, OnOk, OnErr};
ghost use Rattle.beep_peer.specs.beep_frame.specs.declared.kind.Kind.{Kind as KindValue};
ghost use Rattle.beep_peer.specs.beep_frame.specs.Frame.{is_msg, is_ans};
ghost use Rattle.beep_peer.specs.beep_frame.specs.Modulo.{modulo_2_64};
ghost use Rattle.beep_peer.specs.beep_history.specs.Journal.{Item};
ghost use Rattle.beep_peer.specs.beep_exchange.specs.Given.{after_given};
ghost use Rattle.beep_peer.specs.beep_outbox.specs.declared.give_error.GiveError.{GiveError as GiveErrorValue};
ghost use Rattle.beep_peer.specs.beep_channel.specs.declared.ask_error.AskError.{AskError as AskErrorValue};
ghost use Rattle.beep_peer.specs.beep_channel.specs.Held.{IsReply};
ghost use Rattle.beep_peer.specs.beep_channel.specs.Stands.{ends_of};
ghost use Rattle.beep_peer.specs.beep_lives.specs.Lives.{live_at};
ghost use Rattle.beep_peer.specs.beep_lawful.specs.declared.terms.Terms.{Terms};
ghost use Rattle.beep_peer.specs.beep_standing.specs.Standing.{Marks};
ghost use Rattle.beep_peer.specs.beep_asked.specs.Kept.{closes};
ghost use Rattle.beep_peer.specs.beep_upright.specs.Upright.{IsUpright};
ghost use Rattle.beep_peer.specs.Peering.{IsPeer, AreHeld};
ghost use Rattle.beep_peer.specs.Acts.{held_of, IsUnchanged};
ghost use Rattle.beep_giving.specs.Looks.{given_of, owes_of};
ghost use Rattle.beep_giving.specs.Giving.{ask_refusal_at, reply_refusal_at, GivesMessage, ChangesOnly};

use beep_peer::Peer;
use beep_peer::beep_channel::AskError;
use beep_peer::beep_frame::Kind;
use beep_peer::beep_outbox::GiveError;

/// Gives a request in a live life, and answers its position modulo 2^64. The refusals are tried in
/// the order Closing, TooManyAsked, Full, NoMemory.
pub fn ask(peer: &mut Peer, number: u32, octets: &[u8]) -> Result<u64, AskError>
    requires above { 0 < number }
    requires live { IsSome (live_at number peer.old.lives) }
    ensures ok { (size : ℕ) (fed rest : List ℕ) (journal : List Item) (given taken : Marks)
        → IsPeer size fed rest journal given taken peer.old
        → OnOk result (GivesMessage number size fed rest journal given taken KindValue.Msg
        octets.now peer.new) }
    ensures value { (size : ℕ) (fed rest : List ℕ) (journal : List Item) (given taken : Marks)
        → IsPeer size fed rest journal given taken peer.old
        → IfOk result (λ position. position ≡ modulo_2_64 (ends_of is_msg (given number))) }

    // What an end has to say may still go out, where no own close of the life waits.
    ensures upright { (terms : Terms) (fed rest : List ℕ) (journal : List Item)
        (given taken : Marks) → IsPeer terms.window fed rest journal given taken peer.old
        → (closes number peer.old.management.mine.requests
        || closes number peer.old.management.acts.requests) ≡ false
        → IsUpright terms journal peer.old.lives peer.old.management
        → IsUpright terms journal peer.new.lives peer.new.management }
    ensures counts { AreHeld peer.old.lives peer.old.management
        → OnOk result (given_of (live_at number peer.new.lives)
        ≡ option_map (λ given. after_given given KindValue.Msg)
        (given_of (live_at number peer.old.lives))) }

    ensures accepted { OnOk result
        (ask_refusal_at peer.old number (length octets.now) ≡ None) }
    ensures refused { IfErr result (λ error. error ≢ AskErrorValue.NoMemory
        → ask_refusal_at peer.old number (length octets.now) ≡ Some error) }
    ensures err { OnErr result (IsUnchanged peer.old peer.new) }
    ensures held { OnErr result (held_of (live_at number peer.new.lives)
        ≡ held_of (live_at number peer.old.lives)) }

    ensures others { ChangesOnly (λ n. number == n) peer.old.lives peer.new.lives }
    ensures same { (peer.new.ear ≡ peer.old.ear)
        × (peer.new.management ≡ peer.old.management)
        × (peer.new.released ≡ peer.old.released) }
{
    if peer.management.theirs().is_leaving() || peer.management.theirs().closes(number) {
        return Err(AskError::Closing);
    }
    peer.lives.give_ask(number, octets)
}

/// Gives a message of the reply to the oldest request that a live life owes: a RPY or an ERR, one
/// of many ANS, or the NUL that ends them. The refusals are tried in the order Full, NoMemory.
pub fn give_reply(peer: &mut Peer, number: u32, kind: Kind, octets: &[u8]) -> Result<(), GiveError>
    requires above { 0 < number }
    requires live { IsSome (live_at number peer.old.lives) }
    requires may { IfSome (live_at number peer.old.lives) (λ channel.
        IsReply channel.held kind octets.now) }
    ensures ok { (size : ℕ) (fed rest : List ℕ) (journal : List Item) (given taken : Marks)
        → IsPeer size fed rest journal given taken peer.old
        → OnOk result (GivesMessage number size fed rest journal given taken kind
        octets.now peer.new) }
    ensures upright { (terms : Terms) (fed rest : List ℕ) (journal : List Item)
        (given taken : Marks) → IsPeer terms.window fed rest journal given taken peer.old
        → IsUpright terms journal peer.old.lives peer.old.management
        → IsUpright terms journal peer.new.lives peer.new.management }
    ensures counts { AreHeld peer.old.lives peer.old.management
        → OnOk result (given_of (live_at number peer.new.lives)
        ≡ option_map (λ given. after_given given kind)
        (given_of (live_at number peer.old.lives))) }

    // An answer leaves its request owed.
    ensures owes { AreHeld peer.old.lives peer.old.management → is_ans kind ≡ true
        → OnOk result (owes_of (live_at number peer.new.lives) ≡ true) }

    ensures accepted { OnOk result
        (reply_refusal_at (live_at number peer.old.lives) (length octets.now) ≡ None) }
    ensures refused { IfErr result (λ error. error ≢ GiveErrorValue.NoMemory
        → reply_refusal_at (live_at number peer.old.lives) (length octets.now) ≡ Some error) }
    ensures err { OnErr result (IsUnchanged peer.old peer.new) }
    ensures held { OnErr result (held_of (live_at number peer.new.lives)
        ≡ held_of (live_at number peer.old.lives)) }

    ensures others { ChangesOnly (λ n. number == n) peer.old.lives peer.new.lives }
    ensures same { (peer.new.ear ≡ peer.old.ear)
        × (peer.new.management ≡ peer.old.management)
        × (peer.new.released ≡ peer.old.released) }
{
    peer.lives.give_reply(number, kind, octets)
}
