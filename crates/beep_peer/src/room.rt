//! Room in channel zero for the answers that wait, so that each is given without memory.
ghost use Rattle.std.specs.Prelude.{◌≡◌, ◌+◌, length, IsSome, OnOk};
ghost use Rattle.beep_upright.specs.beep_lives.specs.Lives.{live_at, runs_of};
ghost use Rattle.beep_upright.specs.beep_lives.specs.Edits.{Edits, KeepsHeld};
ghost use Rattle.beep_hearing.specs.Hears.{HasZeroRoom};
ghost use Rattle.beep_upright.specs.beep_management.specs.Managed.{octets_prepared};

use beep_upright::beep_lives::Lives;
use beep_upright::beep_management::Management;
use beep_upright::beep_octets::NoMemory;

/// Makes room in channel zero for the answers that wait, and for one message more of so many
/// octets.
pub(crate) fn reserve_with(
    lives: &mut Lives,
    management: &Management,
    more: usize,
) -> Result<(), NoMemory>
    requires live { IsSome (live_at 0 lives.old) }
    ensures ok { OnOk result (HasZeroRoom (octets_prepared management.now.answers + more)
        (length management.now.answers + 1) lives.new) }
    ensures kept { Edits 0 KeepsHeld lives.old lives.new }
    ensures runs { runs_of (live_at 0 lives.new) ≡ runs_of (live_at 0 lives.old) }
{
    let Some(waiting) = management.octets_of_answers() else {
        return Err(NoMemory);
    };
    let Some(octets) = waiting.checked_add(more) else {
        return Err(NoMemory);
    };
    let Some(messages) = management.count_answers().checked_add(1) else {
        return Err(NoMemory);
    };
    lives.reserve(0, octets, messages)
}
