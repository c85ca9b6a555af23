//! Lists of attributes and parts, as the reader grows them.
ghost use Rattle.std.specs.Prelude.{◌≡◌, [], ◌∷◌, ◌++◌, OnOk, IfOk};
ghost use Rattle.beep_text.specs.declared.element.Item.{Item};
ghost use Rattle.beep_text.specs.Lawful.{has_name};
ghost use Rattle.beep_text.specs.Elements.{put as put_in};
ghost use Rattle.beep_text.specs.Machine.{has_room, is_new_with};
ghost use Rattle.beep_text.specs.Listed.{items_listed};

use crate::attr::Attr;
use crate::element::Item;
use crate::limits::LONG_NAME;
use beep_chars::{MAX_NAME, Text, is_name_char};
use beep_octets::NoMemory;

/// Whether an attribute has this name.
pub(crate) fn has_name(attrs: &[Attr], name: &Text) -> bool
    ensures { result ≡ has_name name.now attrs.now }
{
    for attr in attrs {
        if attr.name.same(name) {
            return true;
        }
    }
    false
}

/// Whether a name that is new can begin so.
#[tactic(auto, unfolding(crate::specs::Machine::has_room))]
pub(crate) fn has_room(attrs: &[Attr], name: &Text) -> Result<bool, NoMemory>
    ensures { IfOk result (λ room. room ≡ has_room name.now attrs.now) }
{
    if name.len() < LONG_NAME {
        return Ok(true);
    }
    if !has_name(attrs, name) {
        return Ok(true);
    }
    if name.len() >= MAX_NAME {
        return Ok(false);
    }
    for octet in 0u8..128 {
        if is_new(attrs, name, octet)? {
            return Ok(true);
        }
    }
    Ok(false)
}

/// Whether a name is new with this octet after it.
fn is_new(attrs: &[Attr], name: &Text, octet: u8) -> Result<bool, NoMemory>
    ensures { IfOk result (λ new. new ≡ is_new_with name.now attrs.now octet) }
{
    if !is_name_char(octet as char) {
        return Ok(false);
    }
    let mut longer = name.copy()?;
    longer.push(octet as char)?;
    Ok(!has_name(attrs, &longer))
}

/// Appends a character: to the last run, or as a new one.
pub(crate) fn put(items: &mut Vec<Item>, character: char, empty: Text) -> Result<(), NoMemory>
    requires { empty ≡ [] }
    ensures { OnOk result (items_listed items.new.items
        ≡ put_in (items_listed items.old.items) character) }
{
    match items.pop() {
        Some(Item::Chars(mut run)) => {
            run.push(character)?;
            push_item(items, Item::Chars(run))
        }
        Some(Item::Child(element)) => {
            push_item(items, Item::Child(element))?;
            put_first(items, character, empty)
        }
        None => put_first(items, character, empty),
    }
}

/// Appends a run of one character.
fn put_first(items: &mut Vec<Item>, character: char, mut run: Text) -> Result<(), NoMemory>
    requires { run ≡ [] }
    ensures { OnOk result (items.new.items ≡ items.old.items ++ Item.Chars (character ∷ []) ∷ []) }
{
    run.push(character)?;
    push_item(items, Item::Chars(run))
}

/// Appends a part.
pub(crate) fn push_item(items: &mut Vec<Item>, item: Item) -> Result<(), NoMemory>
    ensures { OnOk result (items.new.items ≡ items.old.items ++ item ∷ []) }
{
    match items.push(item) {
        Ok(()) => Ok(()),
        Err(_) => Err(NoMemory),
    }
}
