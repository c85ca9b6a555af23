//! Which channels an end may start (RFC 3080, section 2.3.1.2).
ghost use Rattle.std.specs.Prelude.{◌≡◌};
ghost use Rattle.beep_decide.specs.Numbers.{other_role, has_parity, may_start};

use beep_frame::MAX_NUMBER;
use beep_journal::Role;

/// The role of the peer of an end with this role.
pub fn other_role(role: Role) -> Role
    ensures { result ≡ other_role role }
{
    match role {
        Role::Initiator => Role::Listener,
        Role::Listener => Role::Initiator,
    }
}

/// Whether a number has the parity of the channels that this role starts.
fn has_parity(role: Role, number: u32) -> bool
    ensures { result ≡ has_parity role number }
{
    match role {
        Role::Initiator => number % 2 == 1,
        Role::Listener => number % 2 == 0,
    }
}

/// Whether the end of this role may start a channel of this number.
pub fn may_start(role: Role, number: u32) -> bool
    ensures { result ≡ may_start role number }
{
    0 < number && number <= MAX_NUMBER && has_parity(role, number)
}
