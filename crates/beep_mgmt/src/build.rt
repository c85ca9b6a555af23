//! The element of a value (RFC 3080, section 2.3.1).
ghost use Rattle.std.specs.Prelude.{◌≡◌, ◌≤◌, ◌∷◌, ◌++◌, [], false, codes, map, IsTrue, IfOk, OnOk};
ghost use Rattle.std.specs.List.{list_all};
ghost use Rattle.std.specs.Fmt.{decimal};
ghost use Rattle.beep_chars.specs.Characters.{is_name, is_allowed};
ghost use Rattle.beep_text.specs.Tree.{nothing};
ghost use Rattle.beep_text.specs.Lawful.{has_name};
ghost use Rattle.beep_mgmt.specs.declared.limits.TheConstants.{MAX_CODE};
ghost use Rattle.beep_mgmt.specs.Form.{form_of, plain_profile};
ghost use Rattle.beep_mgmt.specs.Written.{setting, optional, run, with_element, code_digits, element, profile_as, profiles_as, element_as, is_allowed_option, is_uri_allowed, is_writable};

use crate::mgmt::Mgmt;
use crate::number::{code_text, decimal_text};
use crate::profile::Profile;
use crate::profiles::Profiles;
use crate::text::{base64_text, text_in};
use beep_octets::NoMemory;
use beep_text::{Element, Item, Text};
use std::alloc::Global;

/// The element of a value.
pub(crate) fn element_as(alloc: Global, m: &Mgmt) -> Result<Element, NoMemory>
    requires writable { IsTrue (is_writable (form_of m.now)) }
    ensures { IfOk result (λ e. e ≡ element_as (form_of m.now)) }
{
    match m {
        Mgmt::Greeting {
            features,
            localize,
            profiles,
        } => greeting_as(alloc, features, localize, profiles),
        Mgmt::Start {
            number,
            server,
            profiles,
        } => start_as(alloc, *number, server, profiles),
        Mgmt::Chosen { profile } => profile_as(alloc, profile),
        Mgmt::Close { number, code, note } => close_as(alloc, *number, *code, note),
        Mgmt::Okay => named(alloc, "ok"),
        Mgmt::Fault { code, note } => fault_as(alloc, *code, note),
    }
}

fn greeting_as(
    alloc: Global,
    features: &Option<Text>,
    localize: &Option<Text>,
    profiles: &Profiles,
) -> Result<Element, NoMemory>
    requires features { IsTrue (is_allowed_option features.now) }
    requires localize { IsTrue (is_allowed_option localize.now) }
    requires profiles { IsTrue (list_all is_uri_allowed (map plain_profile profiles.now)) }
    ensures { IfOk result (λ e. e ≡ element (codes "greeting")
        (optional (codes "features") features.now ++ optional (codes "localize") localize.now)
        (profiles_as (map plain_profile profiles.now))) }
{
    let mut e = named(alloc, "greeting")?;
    set_optional(&mut e, "features", features)?;
    set_optional(&mut e, "localize", localize)?;
    push_profiles(alloc, &mut e, profiles)?;
    Ok(e)
}

fn start_as(
    alloc: Global,
    number: u32,
    server: &Option<Text>,
    profiles: &Profiles,
) -> Result<Element, NoMemory>
    requires server { IsTrue (is_allowed_option server.now) }
    requires profiles { IsTrue (list_all is_uri_allowed (map plain_profile profiles.now)) }
    ensures { IfOk result (λ e. e ≡ element (codes "start")
        (setting (codes "number") (decimal number) ∷ optional (codes "serverName") server.now)
        (profiles_as (map plain_profile profiles.now))) }
{
    let mut e = named(alloc, "start")?;
    set(&mut e, "number", decimal_text(alloc, number)?)?;
    set_optional(&mut e, "serverName", server)?;
    push_profiles(alloc, &mut e, profiles)?;
    Ok(e)
}

fn close_as(alloc: Global, number: u32, code: u16, note: &Text) -> Result<Element, NoMemory>
    requires code { code ≤ MAX_CODE }
    requires note { IsTrue (list_all is_allowed note.now) }
    ensures { IfOk result (λ e. e ≡ element (codes "close")
        (setting (codes "number") (decimal number) ∷ setting (codes "code") (code_digits code) ∷ [])
        (run note.now)) }
{
    let mut e = named(alloc, "close")?;
    set(&mut e, "number", decimal_text(alloc, number)?)?;
    set(&mut e, "code", code_text(alloc, code)?)?;
    push_run(&mut e, note.copy()?)?;
    Ok(e)
}

fn fault_as(alloc: Global, code: u16, note: &Text) -> Result<Element, NoMemory>
    requires code { code ≤ MAX_CODE }
    requires note { IsTrue (list_all is_allowed note.now) }
    ensures { IfOk result (λ e. e ≡ element (codes "error")
        (setting (codes "code") (code_digits code) ∷ []) (run note.now)) }
{
    let mut e = named(alloc, "error")?;
    set(&mut e, "code", code_text(alloc, code)?)?;
    push_run(&mut e, note.copy()?)?;
    Ok(e)
}

/// Appends the elements of profiles, one after another.
fn push_profiles(alloc: Global, e: &mut Element, profiles: &Profiles) -> Result<(), NoMemory>
    requires empty { e.old.items ≡ nothing }
    requires allowed { IsTrue (list_all is_uri_allowed (map plain_profile profiles.now)) }
    ensures { OnOk result (e.new ≡ record e.old
        { items = profiles_as (map plain_profile profiles.now) }) }
{
    for profile in profiles.as_slice() {
        push_profile(alloc, e, profile)?;
    }
    Ok(())
}

fn push_profile(alloc: Global, e: &mut Element, profile: &Profile) -> Result<(), NoMemory>
    requires allowed { IsTrue (list_all is_allowed profile.now.uri) }
    ensures { OnOk result (e.new ≡ record e.old {
      items = with_element e.old.items
          (profile_as profile.now.uri profile.now.content.octets);
    }) }
{
    let child = profile_as(alloc, profile)?;
    e.push_item(Item::Child(child))
}

/// The element of a profile.
fn profile_as(alloc: Global, profile: &Profile) -> Result<Element, NoMemory>
    requires allowed { IsTrue (list_all is_allowed profile.now.uri) }
    ensures { IfOk result (λ e. e ≡ profile_as profile.now.uri profile.now.content.octets) }
{
    let mut e = named(alloc, "profile")?;
    set(&mut e, "uri", profile.uri.copy()?)?;
    let octets = profile.content.as_slice();
    match text_in(alloc, octets)? {
        Some(text) => push_run(&mut e, text)?,
        None => {
            set(&mut e, "encoding", Text::of_word(alloc, "base64")?)?;
            push_run(&mut e, base64_text(alloc, octets)?)?;
        }
    }
    Ok(e)
}

/// An element of this name that holds nothing.
fn named(alloc: Global, name: &str) -> Result<Element, NoMemory>
    requires named { IsTrue (is_name name.now) }
    ensures { IfOk result (λ e. e ≡ element name.now [] nothing) }
{
    Ok(Element::new(alloc, Text::of_word(alloc, name)?))
}

/// Appends an attribute.
fn set(e: &mut Element, name: &str, value: Text) -> Result<(), NoMemory>
    requires named { IsTrue (is_name name.now) }
    requires new { has_name name.now e.old.attrs ≡ false }
    requires allowed { IsTrue (list_all is_allowed value) }
    ensures { OnOk result (e.new ≡ record e.old
        { attrs = e.old.attrs ++ setting name.now value ∷ [] }) }
{
    e.push_attr(Text::of_word(e.alloc(), name)?, value)
}

/// Appends an attribute where there is a value.
fn set_optional(e: &mut Element, name: &str, value: &Option<Text>) -> Result<(), NoMemory>
    requires named { IsTrue (is_name name.now) }
    requires new { has_name name.now e.old.attrs ≡ false }
    requires allowed { IsTrue (is_allowed_option value.now) }
    ensures { OnOk result (e.new ≡ record e.old
        { attrs = e.old.attrs ++ optional name.now value.now }) }
{
    match value {
        Some(value) => set(e, name, value.copy()?),
        None => Ok(()),
    }
}

/// Appends characters, where there are some.
fn push_run(e: &mut Element, text: Text) -> Result<(), NoMemory>
    requires empty { e.old.items ≡ nothing }
    requires allowed { IsTrue (list_all is_allowed text) }
    ensures { OnOk result (e.new ≡ record e.old { items = run text }) }
{
    if text.len() == 0 {
        return Ok(());
    }
    e.push_item(Item::Chars(text))
}
