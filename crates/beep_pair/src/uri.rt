//! The profile that both ends offer.
ghost use Rattle.std.specs.Prelude.{◌≡◌, true, IfOk};
ghost use Rattle.beep_two_sessions.specs.beep_answering.specs.Sent.{is_uri};
ghost use Rattle.beep_pair.specs.Acts.{pair_uri};

use beep_two_sessions::beep_chars::Text;
use beep_two_sessions::beep_octets::NoMemory;
use std::alloc::Global;

const URI: &str = "http://beep.example/pair";

/// The URI of the profile.
pub(crate) fn pair_text(alloc: Global) -> Result<Text, NoMemory>
    ensures uri { IfOk result (λ text. text ≡ pair_uri) }
    ensures valid { IfOk result (λ text. is_uri text ≡ true) }
{
    let text = Text::of(alloc, URI)?;
    Ok(text)
}
