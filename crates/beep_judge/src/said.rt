//! What a whole message of channel zero says (RFC 3080, section 2.3.1).
ghost use Rattle.std.specs.Prelude.{◌≡◌, ◌++◌, IfOk, option_map};
ghost use Rattle.beep_mgmt.specs.Form.{form_of};
ghost use Rattle.beep_mgmt.specs.Message.{message_said};

use beep_journal::message_said;
use beep_mgmt::Mgmt;
use beep_octets::{NoMemory, Octets};
use std::alloc::Global;

/// What the octets before and those of the last frame say together.
pub(crate) fn said(alloc: Global, text: &Octets, payload: &[u8]) -> Result<Option<Mgmt>, NoMemory>
    ensures { IfOk result
        (λ said. option_map form_of said ≡ message_said (text.now.octets ++ payload.now)) }
{
    if text.is_empty() {
        return message_said(alloc, payload);
    }
    let mut whole = Octets::new(alloc);
    whole.extend(text.as_slice())?;
    whole.extend(payload)?;
    message_said(alloc, whole.as_slice())
}
