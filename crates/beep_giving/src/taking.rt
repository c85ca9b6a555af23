//! What a program takes from a live life above zero (RFC 3080, sections 2.1 and 2.3.1.3).
ghost use Rattle.std.specs.Prelude.{◌≡◌, ◌<◌, ◌==◌, ◌||◌, [], ℕ, List, length, if◌then◌else◌, option_map, IsSome, IfSome, IfNone};
ghost use Rattle.beep_peer.specs.beep_octets.specs.Numbers.{numbers_32};
ghost use Rattle.beep_peer.specs.beep_history.specs.Journal.{Item};
ghost use Rattle.beep_peer.specs.beep_exchange.specs.Given.{after_taken};
ghost use Rattle.beep_peer.specs.beep_inbox.specs.Untaken.{IsTaken};
ghost use Rattle.beep_peer.specs.beep_lives.specs.Lives.{live_at};
ghost use Rattle.beep_peer.specs.beep_lawful.specs.declared.terms.Terms.{Terms};
ghost use Rattle.beep_peer.specs.beep_standing.specs.Standing.{Marks};
ghost use Rattle.beep_peer.specs.beep_upright.specs.Upright.{IsUpright};
ghost use Rattle.beep_peer.specs.Peering.{IsPeer, AreHeld};
ghost use Rattle.beep_peer.specs.Waiting.{AreLetGo, IsStuck};
ghost use Rattle.beep_giving.specs.Looks.{given_of, inbox_of};
ghost use Rattle.beep_giving.specs.Giving.{TakesMarks, ChangesOnly};

use beep_peer::beep_inbox::Part;
use beep_peer::{Peer, let_go};

/// Takes the first octets of the first untaken run of a live life, as many as `buf` holds, and its
/// end where that follows; then the answers of channel zero are given that wait for nothing more.
/// It takes no memory.
pub fn take(peer: &mut Peer, number: u32, buf: &mut [u8]) -> Option<Part>
    requires above { 0 < number }
    requires live { IsSome (live_at number peer.old.lives) }
    requires some { 0 < length buf.old }
    requires fits { length buf.old < numbers_32 }
    requires held { AreHeld peer.old.lives peer.old.management }
    ensures some { (size : ℕ) (fed rest : List ℕ) (journal : List Item) (given taken : Marks)
        → IsPeer size fed rest journal given taken peer.old → IfSome result (λ part.
        TakesMarks number size fed rest journal given taken part buf.new
        peer.old.management.answers peer.new) }
    ensures upright { (terms : Terms) (fed rest : List ℕ) (journal : List Item)
        (given taken : Marks) → IsPeer terms.window fed rest journal given taken peer.old
        → IsUpright terms journal peer.old.lives peer.old.management
        → IsUpright terms journal peer.new.lives peer.new.management }
    ensures part { IfSome result (λ part. IsTaken part (inbox_of (live_at number peer.old.lives))
        (inbox_of (live_at number peer.new.lives)) buf.old buf.new) }
    ensures counts { IfSome result (λ part. given_of (live_at number peer.new.lives)
        ≡ option_map (λ given. if part.ended then after_taken given part.tag.kind else given)
        (given_of (live_at number peer.old.lives))) }

    ensures none { IfNone result (inbox_of (live_at number peer.old.lives) ≡ []) }
    ensures kept { IfNone result (peer.new ≡ peer.old) }
    ensures buffer { IfNone result (buf.new ≡ buf.old) }

    ensures waits { AreLetGo peer.new.lives peer.old.management peer.new.management }
    ensures stuck { IfSome result (λ part. IsStuck peer.new.lives peer.new.management) }
    ensures others { ChangesOnly (λ n. 0 == n || number == n) peer.old.lives peer.new.lives }
    ensures same { (peer.new.ear ≡ peer.old.ear) × (peer.new.released ≡ peer.old.released) }
{
    let Some(part) = peer.lives.take(number, buf) else {
        return None;
    };
    let_go(&mut peer.lives, &mut peer.management);
    Some(part)
}
