//! The messages of a schedule.
ghost use Rattle.std.specs.Prelude.{◌≡◌, OnOk};
ghost use Rattle.beep_pair.specs.Sessions.{message_from, octet_from};

use beep_schedule::MAX_FILL;
use beep_two_sessions::beep_octets::{NoMemory, Octets};

/// Makes the message of so many octets, the first of them `fill` and each other one more than the
/// one before, and 0 after the greatest.
pub(crate) fn fill_message(out: &mut Octets, len: u32, fill: u8) -> Result<(), NoMemory>
    ensures { OnOk result (out.new.octets ≡ message_from fill len) }
{
    out.clear();
    out.reserve(len as usize)?;
    for i in 0..len {
        out.extend(&[octet_at(fill, i)])?;
    }
    Ok(())
}

/// The octet at place `i`.
fn octet_at(fill: u8, i: u32) -> u8
    ensures { result ≡ octet_from fill i }
{
    ((u64::from(fill) + u64::from(i)) % (u64::from(MAX_FILL) + 1)) as u8
}
