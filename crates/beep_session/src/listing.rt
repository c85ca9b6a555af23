//! What a program lists in a start, and what an end may offer (RFC 3080, section 2.3.1.2).
ghost use Rattle.std.specs.Prelude.{◌≡◌, ◌∷◌, [], ℕ, map, true, false, None, IfOk};
ghost use Rattle.beep_giving.specs.beep_mgmt.specs.Form.{plain_profile, start as start_form};
ghost use Rattle.beep_giving.specs.beep_mgmt.specs.Written.{is_writable, comes_back};
ghost use Rattle.beep_giving.specs.beep_answering.specs.Sent.{is_uri as is_uri_text, plain_listed};

use beep_giving::beep_chars::{MAX_URI, Text};
use beep_giving::beep_mgmt::{Encoding, Profile, Profiles};
use beep_giving::beep_octets::{NoMemory, Octets};
use std::alloc::Global;

/// Whether a URI may be offered: it has 1 to `MAX_URI` characters, all of them allowed.
pub fn is_uri(uri: &Text) -> bool
    ensures { result ≡ is_uri_text uri.now }
{
    0 < uri.len() && uri.len() <= MAX_URI && uri.is_allowed()
}

/// One profile with this URI and no content, as a start lists it.
pub fn one_profile(alloc: Global, uri: &Text) -> Result<Profiles, NoMemory>
    requires uri { is_uri_text uri.now ≡ true }
    ensures listed { IfOk result (λ profiles. map plain_profile profiles
        ≡ plain_listed (record { uri = uri.now; tuning = false }) ∷ []) }
    ensures writable { IfOk result (λ profiles. (number : ℕ) → is_writable
        (start_form number None (map plain_profile profiles)) ≡ true) }
    ensures back { IfOk result (λ profiles. (number : ℕ) → comes_back
        (start_form number None (map plain_profile profiles)) ≡ true) }
{
    let mut profiles = Profiles::new(alloc);
    profiles.push(Profile {
        uri: uri.copy()?,
        encoding: Encoding::Plain,
        content: Octets::new(alloc),
        readable: true,
    })?;
    Ok(profiles)
}
