//! What the last frame of an own message of channel zero makes of a session, as it goes out (RFC
//! 3080, section 2.3.1).
ghost use Rattle.std.specs.Prelude.{◌≡◌, ◌≤◌, ℕ, ◌∷◌, List};
ghost use Rattle.beep_upright.specs.beep_frame.specs.declared.head.Head.{Head};
ghost use Rattle.beep_upright.specs.beep_history.specs.declared.journal.Side.{Side};
ghost use Rattle.beep_upright.specs.beep_history.specs.Journal.{Item, began, passed};
ghost use Rattle.beep_upright.specs.beep_lawful.specs.declared.terms.Terms.{Terms};
ghost use Rattle.beep_upright.specs.beep_standing.specs.Standing.{Marks};
ghost use Rattle.beep_upright.specs.Turns.{kinds_at};
ghost use Rattle.beep_upright.specs.Upright.{asked_at, AreReady, IsUpright};
ghost use Rattle.beep_peer.specs.Calls.{AreLeft, HasGone, IsDone};
ghost use Rattle.beep_peer.specs.Left.{left_to_say};

use crate::grant::grant;
use beep_upright::beep_frame::Kind;
use beep_upright::beep_lives::Lives;
use beep_upright::beep_management::Management;

/// The last frame of a message of this kind has passed: an own request waits, and an own reply
/// grants or refuses the oldest request of the peer. True where the session is released.
pub(crate) fn went(lives: &mut Lives, management: &mut Management, kind: Kind) -> bool
    requires gone { ∥ ((size : ℕ) × (journal : List Item) × (given : Marks) × (taken : Marks)
        × (head : Head) × (payload : List ℕ) × (head.kind ≡ kind)
        × HasGone size journal given taken head payload lives.old management.old) ∥₁ }
    ensures done { (size : ℕ) (journal : List Item) (given taken : Marks) (head : Head)
        (payload : List ℕ) → head.kind ≡ kind
        → HasGone size journal given taken head payload lives.old management.old
        → IsDone size (began Side.Sent head ∷ journal)
        (passed Side.Sent head payload ∷ began Side.Sent head ∷ journal) given taken result
        lives.new management.new }
    ensures upright { (terms : Terms) (journal : List Item) (given taken : Marks) (head : Head)
        (payload : List ℕ) → head.kind ≡ kind
        → HasGone terms.window journal given taken head payload lives.old management.old
        → AreReady terms journal (head.kind ∷ kinds_at 0 lives.old) (asked_at lives.old)
        management.old
        → IsUpright terms (passed Side.Sent head payload ∷ began Side.Sent head ∷ journal)
        lives.new management.new }
    ensures left { AreLeft lives.new management.old.answers management.new.answers }
    ensures falls { left_to_say lives.new management.new ≤ left_to_say lives.old management.old }
{
    if kind.is_msg() {
        management.pass_act(lives);
        return false;
    }
    let grants = Kind::Rpy.is_same(kind);
    let answered = management.take_theirs(grants);
    grants && grant(lives, answered)
}
