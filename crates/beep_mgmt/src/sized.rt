//! What the types say of a value, which reading it back asks.
ghost use Rattle.std.specs.Prelude.{map, IsTrue};
ghost use Rattle.std.specs.List.{list_all};
ghost use Rattle.beep_mgmt.specs.Form.{form_of, plain_profile};
ghost use Rattle.beep_mgmt.specs.Sized.{is_octet, is_u32, has_octets, is_sized};

use crate::mgmt::Mgmt;
use crate::profiles::Profiles;
use beep_octets::Octets;

/// That its number has 32 bits, and its contents are octets.
pub(crate) fn is_sized(m: &Mgmt)
    ensures { IsTrue (is_sized (form_of m.now)) }
{
    match m {
        Mgmt::Greeting { profiles, .. } => have_octets(profiles),
        Mgmt::Start {
            number,
            profiles,
            ..
        } => {
            is_u32(*number);
            have_octets(profiles);
        }
        Mgmt::Chosen { profile } => are_octets(&profile.content),
        Mgmt::Close { number, .. } => is_u32(*number),
        Mgmt::Okay => {}
        Mgmt::Fault { .. } => {}
    }
}

fn is_u32(number: u32)
    ensures { IsTrue (is_u32 number) }
{}

fn have_octets(profiles: &Profiles)
    ensures { IsTrue (list_all has_octets (map plain_profile profiles.now)) }
{
    for profile in profiles.as_slice() {
        are_octets(&profile.content);
    }
}

fn are_octets(content: &Octets)
    ensures { IsTrue (list_all is_octet content.now.octets) }
{
    each_is_octet(content.as_slice());
}

fn each_is_octet(octets: &[u8])
    ensures { IsTrue (list_all is_octet octets.now) }
{}
