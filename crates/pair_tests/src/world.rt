//! A world that begins: two new sessions meet what the laws ask of one.
ghost use Rattle.std.specs.Prelude.{◌≡◌, [], IfOk};
ghost use Rattle.beep_pair.specs.beep_two_sessions.specs.World.{World, IsReached};

use beep_pair::Limits;
use beep_pair::beep_journal::Role;
use beep_pair::beep_octets::NoMemory;
use beep_pair::beep_session::{Offers, Session};
use std::alloc::Global;
use std::test::Fail;

const LIMITS: Limits = Limits {
    window: 4096,
    piece: 4096,
};

/// Two new sessions that offer nothing. They begin a world.
fn begin(alloc: Global) -> Result<(Session, Session), NoMemory>
    ensures begun { IfOk result (λ pair. (world : World) × IsReached [] world
        × (world.a.session ≡ pair.0) × (world.b.session ≡ pair.1)) }
{
    let a = Session::new(alloc, Role::Initiator, Offers::new(alloc), LIMITS)?;
    let b = Session::new(alloc, Role::Listener, Offers::new(alloc), LIMITS)?;
    Ok((a, b))
}

#[test]
fn two_new_sessions_are_a_world(rt: HostRuntime) -> Result<(), Fail> {
    let _ = begin(rt.alloc())?;
    Ok(())
}
