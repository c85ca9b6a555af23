//! Answers that are given once nothing holds them back (RFC 3080, section 2.3.1.3).
ghost use Rattle.std.specs.Prelude.{◌≡◌, ◌↔◌, ◌≤◌, ℕ, ◌==◌, true, false, List, Some, IfSome, IfNone};
ghost use Rattle.beep_upright.specs.beep_history.specs.Journal.{Item};
ghost use Rattle.beep_upright.specs.beep_lawful.specs.declared.terms.Terms.{Terms};
ghost use Rattle.beep_upright.specs.beep_standing.specs.Standing.{Marks};
ghost use Rattle.beep_upright.specs.Upright.{IsUpright};
ghost use Rattle.beep_upright.specs.beep_management.specs.Managed.{first_of};
ghost use Rattle.beep_upright.specs.beep_management.specs.Values.{prepared_of};
ghost use Rattle.beep_peer.specs.Peering.{Holds, AreHeld};
ghost use Rattle.beep_peer.specs.Calls.{LetsGo};
ghost use Rattle.beep_peer.specs.Left.{left_to_say};
ghost use Rattle.beep_peer.specs.Waiting.{IsDrainedAt, HasCome, AreLetGo, IsStuck, KeepsAbove};

use beep_upright::beep_lives::Lives;
use beep_upright::beep_management::{Answer, Management, Wait};

/// Gives the answers that wait for nothing more, in the order of their requests. It takes no
/// memory.
pub fn let_go(lives: &mut Lives, management: &mut Management)
    requires held { AreHeld lives.old management.old }
    ensures holds { (size : ℕ) (journal : List Item) (given taken : Marks)
        → Holds size journal given taken lives.old management.old
        → LetsGo size journal given taken management.old.answers lives.new management.new }
    ensures waits { AreLetGo lives.old management.old management.new }
    ensures stuck { IsStuck lives.new management.new }
    ensures falls { left_to_say lives.new management.new ≤ left_to_say lives.old management.old }
    ensures kept { KeepsAbove lives.old lives.new }
    ensures upright { (terms : Terms) (journal : List Item) (given taken : Marks)
        → Holds terms.window journal given taken lives.old management.old
        → IsUpright terms journal lives.old management.old
        → IsUpright terms journal lives.new management.new }
{
    while let Some(answer) = next_answer(lives, management) {
        match lives.give_reply(0, answer.kind, answer.octets.as_slice()) {
            Ok(()) => {
                let _given = management.take_answer();
            }
            Err(_) => unreachable!(),
        }
    }
}

/// The first answer, where it waits for nothing more.
fn next_answer<'m>(lives: &Lives, management: &'m Management) -> Option<&'m Answer>
    ensures first { IfSome result (λ answer.
        first_of management.now.answers ≡ Some (prepared_of answer.now)) }
    ensures come { IfSome result (λ answer.
        HasCome answer.now.waits lives.now management.now) }
    ensures waits { IfNone result (IfSome (first_of management.now.answers) (λ first.
        HasCome first.waits lives.now management.now → ⊥)) }
{
    match management.first_answer() {
        Some(answer) => if may_go(lives, management, answer.waits) {
            Some(answer)
        } else {
            None
        },
        None => None,
    }
}

/// Whether what an answer waits for has come.
fn may_go(lives: &Lives, management: &Management, waits: Wait) -> bool
    ensures { (result ≡ true) ↔ HasCome waits lives.now management.now }
{
    match waits {
        Wait::Nothing => true,
        Wait::Life(number) => is_drained(lives, number),
        Wait::All => {
            !management.mine().asks_otherwise()
                && !management.acts().asks_otherwise()
                && are_drained(lives)
        }
    }
}

/// Whether the channel of a number above zero has ended or is drained.
fn is_drained(lives: &Lives, number: u32) -> bool
    ensures { (result ≡ true) ↔ IsDrainedAt number lives.now }
{
    if number == 0 {
        return true;
    }
    match lives.channel(number) {
        Some(channel) => channel.is_drained(),
        None => true,
    }
}

/// Whether all channels above zero are drained.
fn are_drained(lives: &Lives) -> bool
    ensures { (result ≡ true) ↔ ((number : ℕ) → IsDrainedAt number lives.now) }
{
    for i in 0..lives.len() {
        if let Some(number) = lives.place(i) {
            if !is_drained(lives, number) {
                return false;
            }
        }
    }
    true
}
