//! What a start lists, with a URI of any length.
ghost use Rattle.std.specs.Prelude.{◌≡◌, ℕ, map, true, None, IfOk};
ghost use Rattle.std.specs.List.{list_all};
ghost use Rattle.beep_session.specs.beep_chars.specs.Characters.{is_allowed};
ghost use Rattle.beep_session.specs.beep_mgmt.specs.Form.{plain_profile, start as start_form};
ghost use Rattle.beep_session.specs.beep_mgmt.specs.Written.{is_writable, comes_back};

use beep_session::beep_chars::Text;
use beep_session::beep_mgmt::{Encoding, Profile, Profiles};
use beep_session::beep_octets::{NoMemory, Octets};
use std::alloc::Global;

/// One profile with this URI and no content.
pub(crate) fn listed(alloc: Global, uri: &Text) -> Result<Profiles, NoMemory>
    requires uri { list_all is_allowed uri.now ≡ true }
    ensures writable { IfOk result (λ profiles. (number : ℕ) → is_writable
        (start_form number None (map plain_profile profiles)) ≡ true) }
    ensures back { IfOk result (λ profiles. (number : ℕ) → comes_back
        (start_form number None (map plain_profile profiles)) ≡ true) }
{
    let mut profiles = Profiles::new(alloc);
    profiles.push(Profile {
        uri: uri.copy()?,
        encoding: Encoding::Plain,
        content: Octets::new(alloc),
        readable: true,
    })?;
    Ok(profiles)
}
