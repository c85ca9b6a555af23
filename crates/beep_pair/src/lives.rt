//! Which channels of a session live.
ghost use Rattle.std.specs.Prelude.{◌≡◌, IfOk};
ghost use Rattle.beep_two_sessions.specs.beep_peer.specs.Standing.{live_above};

use beep_two_sessions::beep_octets::NoMemory;
use beep_two_sessions::beep_session::Session;
use std::alloc::Global;

/// The numbers of the live channels above zero, ascending.
pub(crate) fn live_numbers(alloc: Global, session: &Session) -> Result<Vec<u32>, NoMemory>
    ensures { IfOk result (λ numbers. numbers.items ≡ live_above session.now.peer) }
{
    let mut numbers = Vec::new(alloc);
    while let Some(number) = session.number_at(numbers.len()) {
        let Ok(()) = numbers.push(number) else {
            return Err(NoMemory);
        };
    }
    Ok(numbers)
}
