//! The one text that is written of an element (RFC 3080, section 6.4).
ghost use Rattle.std.specs.Prelude.{◌≡◌, ◌+◌, ◌≤◌, ◌∷◌, ◌++◌, length, flat_map, map, IsTrue, OnOk, OnErr};
ghost use Rattle.beep_chars.specs.Characters.{is_name};
ghost use Rattle.beep_text.specs.Lawful.{are_attrs};
ghost use Rattle.beep_text.specs.Elements.{IsBody, attr_text, written_text};
ghost use Rattle.beep_text.specs.Listed.{items_listed};
ghost use Rattle.beep_text.specs.Canonical.{element_text, items_text, item_text, attr_as, written_as};

use crate::attr::Attr;
use crate::element::{Element, Item};
use beep_chars::Text;
use beep_octets::{NoMemory, Octets};

/// Appends the canonical text of an element.
pub fn write_element(e: &Element, out: &mut Octets) -> Result<(), NoMemory>
    ensures appended { OnOk result (out.new.octets ≡ out.old.octets ++ element_text e.now) }
    ensures body { IsBody (element_text e.now) e.now }
    ensures err { OnErr result (out.new.octets ≡ out.old.octets) }
    ensures room { out.old.spare ≤ out.new.spare + length (element_text e.now) }
{
    is_body(e);
    let mut text = Octets::new(e.alloc());
    put_element(e, &mut text)?;
    out.extend(text.as_slice())
}

/// That the canonical text says the element.
fn is_body(e: &Element)
    ensures { IsBody (element_text e.now) e.now }
{
    e.name();
}

#[cycle(write)]
fn put_element(e: &Element, out: &mut Octets) -> Result<(), NoMemory>
    ensures { OnOk result (out.new.octets ≡ out.old.octets ++ element_text e.now) }
{
    out.extend(b"<")?;
    put_name(&e.name, out)?;
    put_attrs(&e.attrs, out)?;
    if e.items.is_empty() {
        out.extend(b" />")?;
        return Ok(());
    }
    out.extend(b">")?;
    put_items(&e.items, out)?;
    out.extend(b"</")?;
    put_name(&e.name, out)?;
    out.extend(b">")?;
    Ok(())
}

#[cycle(write)]
fn put_items(items: &[Item], out: &mut Octets) -> Result<(), NoMemory>
    ensures { OnOk result (out.new.octets ≡ out.old.octets ++ items_text (items_listed items.now)) }
{
    for item in items {
        put_item(item, out)?;
    }
    Ok(())
}

#[cycle(write)]
fn put_item(item: &Item, out: &mut Octets) -> Result<(), NoMemory>
    ensures { OnOk result (out.new.octets ≡ out.old.octets ++ item_text item.now) }
{
    match item {
        Item::Chars(text) => put_text(text, false, out),
        Item::Child(element) => put_element(element, out),
    }
}

fn put_attrs(attrs: &[Attr], out: &mut Octets) -> Result<(), NoMemory>
    requires lawful { IsTrue (are_attrs attrs.now) }
    ensures { OnOk result (out.new.octets
        ≡ out.old.octets ++ flat_map (λ a. attr_text (attr_as a)) attrs.now) }
{
    for attr in attrs {
        put_attr(attr, out)?;
    }
    Ok(())
}

fn put_attr(attr: &Attr, out: &mut Octets) -> Result<(), NoMemory>
    requires named { IsTrue (is_name attr.now.name) }
    ensures { OnOk result (out.new.octets ≡ out.old.octets ++ attr_text (attr_as attr.now)) }
{
    out.extend(b" ")?;
    put_name(&attr.name, out)?;
    out.extend(b"='")?;
    put_text(&attr.value, true, out)?;
    out.extend(b"'")?;
    Ok(())
}

fn put_name(name: &Text, out: &mut Octets) -> Result<(), NoMemory>
    requires named { IsTrue (is_name name.now) }
    ensures { OnOk result (out.new.octets ≡ out.old.octets ++ name.now) }
{
    out.extend(name.as_str().as_bytes())?;
    Ok(())
}

fn put_text(text: &Text, in_value: bool, out: &mut Octets) -> Result<(), NoMemory>
    ensures { OnOk result (out.new.octets
        ≡ out.old.octets ++ flat_map (λ c. written_text (written_as in_value c)) text.now) }
{
    for character in text.as_str().chars() {
        put_char(character, in_value, out)?;
    }
    Ok(())
}

fn put_char(character: char, in_value: bool, out: &mut Octets) -> Result<(), NoMemory>
    ensures { OnOk result (out.new.octets
        ≡ out.old.octets ++ written_text (written_as in_value character)) }
{
    match character {
        '&' => out.extend(b"&amp;"),
        '<' => out.extend(b"&lt;"),
        '>' => out.extend(b"&gt;"),
        '\r' => out.extend(b"&#13;"),
        '\'' if in_value => out.extend(b"&apos;"),
        '\t' if in_value => out.extend(b"&#9;"),
        '\n' if in_value => out.extend(b"&#10;"),
        _ => out.extend(character.encode_utf8(&mut [0; 4]).as_bytes()),
    }
}
