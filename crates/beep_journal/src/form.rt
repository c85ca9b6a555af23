//! Whether a reply of channel zero has the form that its request asks for
//! (RFC 3080, section 2.3.1).
ghost use Rattle.std.specs.Prelude.{◌≡◌, ◌==◌, ◌&&◌, ℕ, List, Some, None, map, bytes_eq, slice_get};
ghost use Rattle.std.specs.List.{list_any};
ghost use Rattle.std.specs.Option.{option_copied};
ghost use Rattle.beep_mgmt.specs.declared.profile.Profile.{Profile as ProfileValue};
ghost use Rattle.beep_mgmt.specs.Form.{form_of, plain_profile, close};
ghost use Rattle.beep_journal.specs.Zero.{is_choice_of, is_grant, is_refusal, has_form};
ghost use Rattle.beep_journal.specs.Plain.{form_in};

use beep_chars::Text;
use beep_frame::Kind;
use beep_mgmt::{Mgmt, Profile, Profiles};

/// Whether a whole reply of this kind has the form that its request asks for, which is the implied
/// one or another. None stands for a message that can't be read.
pub fn has_form(kind: Kind, implied: bool, request: Option<&Mgmt>, reply: Option<&Mgmt>) -> bool
    ensures { (position : ℕ) → implied ≡ (position == 0)
        → result ≡ has_form kind position (form_in (option_copied request.entry))
        (form_in (option_copied reply.entry)) }
{
    match kind {
        Kind::Rpy => is_grant(implied, request, reply),
        Kind::Err => is_refusal(reply),
        Kind::Msg | Kind::Ans | Kind::Nul => false,
    }
}

/// Whether a positive reply grants what its request asks for.
fn is_grant(implied: bool, request: Option<&Mgmt>, reply: Option<&Mgmt>) -> bool
    ensures { (position : ℕ) → implied ≡ (position == 0)
        → result ≡ is_grant position (form_in (option_copied request.entry))
        (form_in (option_copied reply.entry)) }
{
    match reply {
        None => false,
        Some(reply) => match request {
            None => implied && is_greeting(reply),
            Some(request) => is_met(request, reply),
        },
    }
}

/// Whether it is a greeting.
fn is_greeting(reply: &Mgmt) -> bool
    ensures { (position : ℕ)
        → is_grant position None (Some (form_of reply.now)) ≡ (position == 0 && result) }
{
    match reply {
        Mgmt::Greeting { .. } => true,
        Mgmt::Start { .. }
        | Mgmt::Chosen { .. }
        | Mgmt::Close { .. }
        | Mgmt::Okay
        | Mgmt::Fault { .. } => { false }
    }
}

/// Whether a positive reply grants a request that says a value.
fn is_met(request: &Mgmt, reply: &Mgmt) -> bool
    ensures { (position : ℕ)
        → result ≡ is_grant position (Some (form_of request.now)) (Some (form_of reply.now)) }
{
    match request {
        Mgmt::Start { profiles, .. } => match reply {
            Mgmt::Chosen { profile } => is_choice_of(profiles, profile),
            Mgmt::Greeting { .. }
            | Mgmt::Start { .. }
            | Mgmt::Close { .. }
            | Mgmt::Okay
            | Mgmt::Fault { .. } => false,
        },
        Mgmt::Close { .. } => is_okay(reply),
        Mgmt::Greeting { .. } | Mgmt::Chosen { .. } | Mgmt::Okay | Mgmt::Fault { .. } => false,
    }
}

/// Whether it is the `ok` to a close.
fn is_okay(reply: &Mgmt) -> bool
    ensures { (position number code : ℕ) (note : List ℕ)
        → result ≡ is_grant position (Some (close number code note)) (Some (form_of reply.now)) }
{
    match reply {
        Mgmt::Okay => true,
        Mgmt::Greeting { .. }
        | Mgmt::Start { .. }
        | Mgmt::Chosen { .. }
        | Mgmt::Close { .. }
        | Mgmt::Fault { .. } => { false }
    }
}

/// Whether a negative reply says an error.
fn is_refusal(reply: Option<&Mgmt>) -> bool
    ensures { result ≡ is_refusal (form_in (option_copied reply.entry)) }
{
    match reply {
        Some(Mgmt::Fault { .. }) => true,
        Some(
            Mgmt::Greeting { .. }
            | Mgmt::Start { .. }
            | Mgmt::Chosen { .. }
            | Mgmt::Close { .. }
            | Mgmt::Okay,
        )
        | None => false,
    }
}

/// Whether a profile is one of those listed, and its content could be read.
fn is_choice_of(listed: &Profiles, profile: &Profile) -> bool
    ensures { result ≡ is_choice_of (map plain_profile listed.now) (plain_profile profile.now) }
{
    profile.readable && is_listed(listed, &profile.uri)
}

/// Whether a profile of this URI is listed.
fn is_listed(listed: &Profiles, uri: &Text) -> bool
    ensures { result ≡ list_any
        (λ candidate. bytes_eq candidate.uri uri.now) (map plain_profile listed.now) }
{
    for i in 0..listed.len() {
        if has_uri(listed, i, uri) {
            return true;
        }
    }
    false
}

/// Whether the profile at place `i` has this URI.
fn has_uri(listed: &Profiles, i: usize, uri: &Text) -> bool
    ensures { (profile : ProfileValue) → slice_get listed.now i ≡ Some profile
        → result ≡ bytes_eq profile.uri uri.now }
{
    match listed.get(i) {
        Some(candidate) => candidate.uri.is(uri.as_str()),
        None => false,
    }
}
