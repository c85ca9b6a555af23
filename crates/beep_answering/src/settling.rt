//! What the reply to an own request of channel zero is settled as (RFC 3080, section 2.3.1).
ghost use Rattle.std.specs.Prelude.{◌≡◌, true, Some, map, option_map, bytes_eq};
ghost use Rattle.std.specs.List.{list_any};
ghost use Rattle.beep_management.specs.beep_mgmt.specs.Form.{form_of, plain_profile, chosen, okay};
ghost use Rattle.beep_management.specs.beep_asked.specs.Request.{kept_of};
ghost use Rattle.beep_answering.specs.Decided.{is_reply_to, IsFirstOf, IsBegunBy, IsClosedBy, refused_as, IsSettledAs};

use crate::settled::Settled;
use beep_management::beep_asked::Request;
use beep_management::beep_chars::Text;
use beep_management::beep_mgmt::{Mgmt, Profile, Profiles};

/// What the reply to an own request is settled as, which has the form that it asks for.
pub fn settled_as(request: &Request, said: Option<Mgmt>) -> Settled
    requires fits { is_reply_to (kept_of request.now) (option_map form_of said) ≡ true }
    ensures { IsSettledAs (kept_of request.now) (option_map form_of said) result }
{
    match said {
        Some(Mgmt::Greeting { .. }) => Settled::Greeted,
        Some(Mgmt::Chosen { profile }) => begun(request, profile),
        Some(Mgmt::Okay) => closed(request),
        Some(Mgmt::Fault { code, .. }) => refused(request, code),
        Some(Mgmt::Start { .. } | Mgmt::Close { .. }) | None => unreachable!(),
    }
}

/// A start was granted with this profile.
fn begun(request: &Request, profile: Profile) -> Settled
    requires fits { is_reply_to (kept_of request.now) (Some (chosen (plain_profile profile)))
        ≡ true }
    ensures { IsBegunBy (kept_of request.now).said (plain_profile profile) result }
{
    match &request.said {
        Some(
            Mgmt::Start {
                number,
                profiles,
                ..
            },
        ) => Settled::Begun {
            number: *number,
            chosen: place_of(profiles, &profile.uri),
            content: profile.content,
        },
        Some(
            Mgmt::Greeting { .. }
            | Mgmt::Chosen { .. }
            | Mgmt::Close { .. }
            | Mgmt::Okay
            | Mgmt::Fault { .. },
        )
        | None => unreachable!(),
    }
}

/// The place of the first of these profiles with this URI, as far as 32 bits count.
fn place_of(profiles: &Profiles, uri: &Text) -> u32
    requires listed { list_any (λ other. bytes_eq other.uri uri.now)
        (map plain_profile profiles.now) ≡ true }
    ensures { IsFirstOf (map plain_profile profiles.now) uri.now result }
{
    let mut place = 0_u32;
    for listed in profiles.as_slice() {
        if listed.uri.same(uri) {
            return place;
        }
        place = place.saturating_add(1);
    }
    unreachable!()
}

/// A close was granted.
fn closed(request: &Request) -> Settled
    requires fits { is_reply_to (kept_of request.now) (Some okay) ≡ true }
    ensures { IsClosedBy (kept_of request.now).said request.now.names result }
{
    match &request.said {
        Some(Mgmt::Close { number, .. }) => if *number == 0 {
            Settled::Released
        } else if request.names {
            Settled::Closed { number: *number }
        } else {
            Settled::Stale(None)
        },
        Some(
            Mgmt::Greeting { .. }
            | Mgmt::Start { .. }
            | Mgmt::Chosen { .. }
            | Mgmt::Okay
            | Mgmt::Fault { .. },
        )
        | None => unreachable!(),
    }
}

/// A request was refused with this code.
fn refused(request: &Request, code: u16) -> Settled
    ensures { result ≡ refused_as code (kept_of request.now).said request.now.names }
{
    match &request.said {
        Some(Mgmt::Start { number, .. }) => Settled::NotBegun {
            number: *number,
            code,
        },
        Some(Mgmt::Close { number, .. }) => if *number == 0 || request.names {
            Settled::NotClosed {
                number: *number,
                code,
            }
        } else {
            Settled::Stale(Some(code))
        },
        Some(Mgmt::Greeting { .. } | Mgmt::Chosen { .. } | Mgmt::Okay | Mgmt::Fault { .. })
        | None => Settled::Denied(code),
    }
}
