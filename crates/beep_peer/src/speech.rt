//! What goes out next of a peer (RFC 3080, sections 2.2.1 and 2.3.1; RFC 3081, section 3.1).
ghost use Rattle.std.specs.Prelude.{◌≡◌, ◌≢◌, ◌||◌, ◌+◌, ◌<◌, ◌≤◌, ◌∷◌, ℕ, List, true, false, length};
ghost use Rattle.beep_upright.specs.beep_octets.specs.Held.{KeepsRoom};
ghost use Rattle.beep_upright.specs.beep_frame.specs.declared.head.Head.{Head as HeadValue};
ghost use Rattle.beep_upright.specs.beep_frame.specs.declared.head.TheConstants.{MAX_NUMBER};
ghost use Rattle.beep_upright.specs.beep_frame.specs.declared.limits.TheConstants.{MAX_PAYLOAD};
ghost use Rattle.beep_upright.specs.beep_frame.specs.declared.seq.Seq.{Seq as SeqValue};
ghost use Rattle.beep_upright.specs.beep_frame.specs.declared.spelling.TheConstants.{SPELL_ROOM};
ghost use Rattle.beep_upright.specs.beep_history.specs.declared.journal.Side.{Side};
ghost use Rattle.beep_upright.specs.beep_history.specs.Journal.{Item, began, passed};
ghost use Rattle.beep_upright.specs.beep_journal.specs.Life.{is_released};
ghost use Rattle.beep_upright.specs.beep_lawful.specs.declared.terms.Terms.{Terms};
ghost use Rattle.beep_upright.specs.beep_standing.specs.Standing.{Marks};
ghost use Rattle.beep_upright.specs.Upright.{IsUpright};
ghost use Rattle.beep_upright.specs.Frames.{AreFrames, IsFramed};
ghost use Rattle.beep_hearing.specs.Hears.{Hears, ends_zero};
ghost use Rattle.beep_upright.specs.beep_speaking.specs.declared.emit.Emit.{Emit as EmitValue};
ghost use Rattle.beep_peer.specs.Peering.{IsPeer, IsGoing};
ghost use Rattle.beep_peer.specs.Calls.{HasSent, IsSent, Speaks, TakesTurn};
ghost use Rattle.beep_peer.specs.Waiting.{IsStuck};
ghost use Rattle.beep_peer.specs.Left.{left_to_say};
ghost use Rattle.beep_peer.specs.Lawfully.{IsLawfulPeer, GoesUprightly, SpeaksLawfully};

use crate::letting::let_go;
use crate::peer::Peer;
use crate::went::went;
use beep_upright::beep_frame::Head;
use beep_upright::beep_octets::Octets;
use beep_upright::beep_speaking::{Emit, emit_next};

/// Appends to `out` what goes next, of at most `most` octets of payload, and does what it says. It
/// takes no memory: `scratch` has room for the payload.
pub fn speak(peer: &mut Peer, scratch: &mut Octets, most: u32, out: &mut Octets) -> Emit
    requires least { 0 < most }
    requires room { most + SPELL_ROOM ≤ out.old.spare }
    requires scratch { most ≤ length scratch.old.octets + scratch.old.spare }
    requires going { ∥ ((size : ℕ) × IsGoing size peer.old) ∥₁ }
    ensures speaks { (size : ℕ) (fed rest : List ℕ) (journal : List Item) (given taken : Marks)
        → IsPeer size fed rest journal given taken peer.old
        → Speaks result size most fed rest journal given taken peer.old peer.new
        out.old.octets out.new.octets }
    ensures lawful { (terms : Terms) (fed rest : List ℕ) (journal : List Item)
        (given taken : Marks) → most ≤ terms.piece → terms.piece ≤ MAX_PAYLOAD
        → peer.old.released ≡ false → IsLawfulPeer terms fed rest journal given taken peer.old
        → SpeaksLawfully result terms fed rest journal given taken peer.old peer.new
        out.old.octets out.new.octets }
    ensures framed { (terms : Terms) (fed rest : List ℕ) (journal : List Item)
        (given taken : Marks) → most ≤ MAX_NUMBER → terms.window ≤ MAX_NUMBER
        → IsLawfulPeer terms fed rest journal given taken peer.old → AreFrames journal
        → IsFramed result }
    ensures turn { TakesTurn result peer.old }
    ensures told { (seq : SeqValue) → result ≡ EmitValue.Seq seq
        → (peer.new.management ≡ peer.old.management) × (peer.new.released ≡ peer.old.released) }
    ensures ear { peer.new.ear ≡ peer.old.ear }
    ensures stuck { (head : HeadValue) → result ≡ EmitValue.Data head
        → IsStuck peer.new.lives peer.new.management }
    ensures still { IsStuck peer.old.lives peer.old.management
        → IsStuck peer.new.lives peer.new.management }
    ensures falls { result ≢ EmitValue.Nothing
        → left_to_say peer.new.lives peer.new.management
        < left_to_say peer.old.lives peer.old.management }
    ensures kept { KeepsRoom scratch.old scratch.new }
{
    let greeted = peer.is_greeted();
    let emitted = emit_next(&mut peer.lives, scratch, greeted, most, out);
    match emitted {
        Emit::Data(head) => gone(peer, &head),
        Emit::Seq(_) => {}
        Emit::Nothing => {}
    }
    emitted
}

/// A frame with this header went out: where it ends a message of channel zero, what that says is
/// done; then what waits for nothing more is let go.
fn gone(peer: &mut Peer, head: &Head)
    requires sent { ∥ ((size : ℕ) × (journal : List Item) × (given : Marks) × (taken : Marks)
        × (payload : List ℕ)
        × HasSent size journal given taken head.now payload peer.old.lives peer.old.management) ∥₁ }
    ensures sent { (size : ℕ) (fed rest : List ℕ) (journal : List Item) (given taken : Marks)
        (payload : List ℕ)
        → HasSent size journal given taken head.now payload peer.old.lives peer.old.management
        → Hears fed rest journal peer.old.ear → peer.old.released ≡ is_released journal
        → IsSent size fed rest journal
        (passed Side.Sent head.now payload ∷ began Side.Sent head.now ∷ journal) given taken
        peer.old.management.answers peer.new }
    ensures upright { (terms : Terms) (journal : List Item) (given taken : Marks)
        (payload : List ℕ) → HasSent terms.window journal given taken head.now payload
        peer.old.lives peer.old.management
        → GoesUprightly terms journal head.now payload peer.old.lives peer.old.management
        → IsUpright terms (passed Side.Sent head.now payload ∷ began Side.Sent head.now ∷ journal)
        peer.new.lives peer.new.management }
    ensures ear { peer.new.ear ≡ peer.old.ear }
    ensures stuck { IsStuck peer.new.lives peer.new.management }
    ensures falls { left_to_say peer.new.lives peer.new.management
        ≤ left_to_say peer.old.lives peer.old.management }
{
    if ends_zero(head) {
        let releases = went(&mut peer.lives, &mut peer.management, head.kind);
        peer.released = either(releases, peer.released);
        let_go(&mut peer.lives, &mut peer.management);
        return;
    }
    let_go(&mut peer.lives, &mut peer.management);
}

/// Whether a frame with this header ends a message of channel zero.
fn ends_zero(head: &Head) -> bool
    ensures { (payload : List ℕ) → result ≡ ends_zero (passed Side.Sent head.now payload) }
{
    head.channel == 0 && !head.more
}

/// Whether one of both holds.
fn either(first: bool, second: bool) -> bool
    ensures { result ≡ (first || second) }
{
    first || second
}
