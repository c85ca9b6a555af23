//! The value that an element says (RFC 3080, section 2.3.1).
ghost use Rattle.std.specs.Prelude.{◌≡◌, Some, None, option_copied, option_map, map, codes, IfOk, if◌then◌else◌};
ghost use Rattle.beep_text.specs.Listed.{items_listed};
ghost use Rattle.beep_text.specs.Lawful.{value_named};
ghost use Rattle.beep_mgmt.specs.Form.{form_of, plain_profile, okay};
ghost use Rattle.beep_mgmt.specs.Said.{number_said, number_or_zero, code_said, profile_said, profiles_said, note_said, is_blank, greeting_with, start_with, chosen_with, close_with, fault_with, form_said};
ghost use Rattle.beep_mgmt.specs.Parts.{with_part, is_blank_part};

use crate::mgmt::Mgmt;
use crate::number::{code_said, number_or_zero, number_said};
use crate::profiles::Profiles;
use crate::said::profile_said;
use beep_octets::NoMemory;
use beep_text::{Element, Item, Text};
use std::alloc::Global;

/// The value that an element says by its name, where it says one.
pub(crate) fn form_said(alloc: Global, element: &Element) -> Result<Option<Mgmt>, NoMemory>
    ensures { IfOk result (λ m. option_map form_of m ≡ form_said element.now) }
{
    let name = element.name();
    if name.is_word("greeting") {
        return greeting_said(alloc, element);
    }
    if name.is_word("start") {
        return start_said(alloc, element);
    }
    if name.is_word("profile") {
        return chosen_said(alloc, element);
    }
    if name.is_word("close") {
        return close_said(alloc, element);
    }
    if name.is_word("ok") {
        return Ok(okay_said(element));
    }
    if name.is_word("error") {
        return fault_said(alloc, element);
    }
    Ok(None)
}

fn greeting_said(alloc: Global, element: &Element) -> Result<Option<Mgmt>, NoMemory>
    ensures { IfOk result (λ m. option_map form_of m ≡ greeting_with
        (value_named (codes "features") element.now.attrs)
        (value_named (codes "localize") element.now.attrs)
        (profiles_said element.now.items)) }
{
    let Some(profiles) = profiles_said(alloc, element.items())? else {
        return Ok(None);
    };
    let features = copied(element.value_named("features"))?;
    let localize = copied(element.value_named("localize"))?;
    Ok(Some(Mgmt::Greeting {
        features,
        localize,
        profiles,
    }))
}

fn start_said(alloc: Global, element: &Element) -> Result<Option<Mgmt>, NoMemory>
    ensures { IfOk result (λ m. option_map form_of m ≡ start_with
        (number_said (value_named (codes "number") element.now.attrs))
        (value_named (codes "serverName") element.now.attrs)
        (profiles_said element.now.items)) }
{
    let Some(number) = number_said(element.value_named("number")) else {
        return Ok(None);
    };
    let Some(profiles) = profiles_said(alloc, element.items())? else {
        return Ok(None);
    };
    if profiles.is_empty() {
        return Ok(None);
    }
    let server = copied(element.value_named("serverName"))?;
    Ok(Some(Mgmt::Start {
        number,
        server,
        profiles,
    }))
}

fn chosen_said(alloc: Global, element: &Element) -> Result<Option<Mgmt>, NoMemory>
    ensures { IfOk result (λ m. option_map form_of m ≡ chosen_with (profile_said element.now)) }
{
    let Some(profile) = profile_said(alloc, element)? else {
        return Ok(None);
    };
    Ok(Some(Mgmt::Chosen { profile }))
}

fn close_said(alloc: Global, element: &Element) -> Result<Option<Mgmt>, NoMemory>
    ensures { IfOk result (λ m. option_map form_of m ≡ close_with
        (number_or_zero (value_named (codes "number") element.now.attrs))
        (code_said (value_named (codes "code") element.now.attrs))
        (note_said element.now.items)) }
{
    let Some(number) = number_or_zero(element.value_named("number")) else {
        return Ok(None);
    };
    let Some(code) = code_said(element.value_named("code")) else {
        return Ok(None);
    };
    let Some(note) = note_said(alloc, element.items())? else {
        return Ok(None);
    };
    Ok(Some(Mgmt::Close { number, code, note }))
}

fn okay_said(element: &Element) -> Option<Mgmt>
    ensures { option_map form_of result
        ≡ (if is_blank element.now.items then Some okay else None) }
{
    if are_blank(element.items()) {
        Some(Mgmt::Okay)
    } else {
        None
    }
}

fn fault_said(alloc: Global, element: &Element) -> Result<Option<Mgmt>, NoMemory>
    ensures { IfOk result (λ m. option_map form_of m ≡ fault_with
        (code_said (value_named (codes "code") element.now.attrs))
        (note_said element.now.items)) }
{
    let Some(code) = code_said(element.value_named("code")) else {
        return Ok(None);
    };
    let Some(note) = note_said(alloc, element.items())? else {
        return Ok(None);
    };
    Ok(Some(Mgmt::Fault { code, note }))
}

/// The same text, where there is one.
fn copied(text: Option<&Text>) -> Result<Option<Text>, NoMemory>
    ensures { IfOk result (λ t. t ≡ option_copied text.entry) }
{
    match text {
        Some(text) => Ok(Some(text.copy()?)),
        None => Ok(None),
    }
}

/// The profiles that stand among white space, where there is nothing else.
fn profiles_said(alloc: Global, items: &[Item]) -> Result<Option<Profiles>, NoMemory>
    ensures { IfOk result (λ ps. option_map (map plain_profile) ps
        ≡ profiles_said (items_listed items.now)) }
{
    let mut profiles = Profiles::new(alloc);
    for item in items {
        if !put_profile(alloc, item, &mut profiles)? {
            return Ok(None);
        }
    }
    Ok(Some(profiles))
}

/// Appends the profile that a part says; false where it is neither a profile nor white space.
fn put_profile(alloc: Global, item: &Item, profiles: &mut Profiles) -> Result<bool, NoMemory>
    ensures { IfOk result (λ goes_on.
        (if goes_on then Some (map plain_profile profiles.new) else None)
        ≡ with_part (Some (map plain_profile profiles.old)) item.now) }
{
    match item {
        Item::Chars(text) => Ok(text.is_blank()),
        Item::Child(element) => match profile_said(alloc, element)? {
            Some(profile) => {
                profiles.push(profile)?;
                Ok(true)
            }
            None => Ok(false),
        },
    }
}

/// The characters, where there is nothing else.
fn note_said(alloc: Global, items: &[Item]) -> Result<Option<Text>, NoMemory>
    ensures { IfOk result (λ t. t ≡ note_said (items_listed items.now)) }
{
    if items.len() > 1 {
        return Ok(None);
    }
    match items.first() {
        Some(Item::Chars(text)) => Ok(Some(text.copy()?)),
        Some(Item::Child(_)) => Ok(None),
        None => Ok(Some(Text::new(alloc))),
    }
}

/// Whether there is nothing but white space.
fn are_blank(items: &[Item]) -> bool
    ensures { result ≡ is_blank (items_listed items.now) }
{
    for item in items {
        if !is_blank_part(item) {
            return false;
        }
    }
    true
}

fn is_blank_part(item: &Item) -> bool
    ensures { result ≡ is_blank_part item.now }
{
    match item {
        Item::Chars(text) => text.is_blank(),
        Item::Child(_) => false,
    }
}
