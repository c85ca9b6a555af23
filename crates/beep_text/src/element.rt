//! An element and what it holds (RFC 3080, section 6.4).
ghost use Rattle.std.specs.Prelude.{◌≡◌, ◌==◌, ℕ, false, [], ◌∷◌, ◌++◌, length, IsTrue, OnOk, OnErr, option_copied, option_map, slice_get, chars};
ghost use Rattle.std.specs.List.{list_all};
ghost use Rattle.beep_text.specs.Lawful.{IsItem};

use crate::attr::Attr;
use beep_chars::Text;
use beep_octets::NoMemory;
use std::alloc::Global;
use std::marker::Model;

/// A part of what an element holds.
#[cycle(element)]
#[derive(Debug, Drop)]
pub enum Item {
    /// A run of characters.
    Chars(Text),
    /// An element within.
    Child(Element),
}

/// A name, attributes, and what stands between the two tags, in the order written.
#[cycle(element)]
#[derive(Debug, Drop)]
pub struct Element {
    pub(crate) name: Text,
    pub(crate) attrs: Vec<Attr>,
    pub(crate) items: Vec<Item>,
}

impl Model for Element {
    ghost use Rattle.beep_text.specs.Tree.{Tree, nothing, tree_code, size_of};

    ghost Value = { Tree };

    ghost coded = { tree_code };

    ghost use Rattle.beep_text.specs.Listed.{tree_of};
    ghost use Rattle.beep_text.specs.Lawful.{IsElement};

    ghost view = { λ e. tree_of e.name e.attrs.items e.items.items };

    ghost invariant = { λ e. IsElement (tree_of e.name e.attrs.items e.items.items) };

    ghost size = { λ t. size_of t.items };

    ghost use Rattle.std.proofs.Common.{arith};
    ghost use Rattle.beep_text.specs.Falls.{most_le-size_of};

    ghost size_decreases = { λ a h. omega (arith, most_le-size_of a.items.items nothing) };
}

impl Element {
    ghost use Rattle.beep_chars.specs.Characters.{is_name, is_allowed};
    ghost use Rattle.beep_text.specs.Tree.{nothing};
    ghost use Rattle.beep_text.specs.Listed.{with_item, listed, items_listed};
    ghost use Rattle.beep_text.specs.Lawful.{IsElement, IsNext, has_name, value_named};

    /// An element of this name that holds nothing. It takes no memory.
    pub fn new(alloc: Global, name: Text) -> Element
        requires named { IsTrue (is_name name) }
        ensures { result ≡ record { name = name; attrs = []; items = nothing } }
    {
        Element {
            name,
            attrs: Vec::new(alloc),
            items: Vec::new(alloc),
        }
    }

    /// Where its memory comes from.
    pub fn alloc(&self) -> Global {
        *self.attrs.allocator()
    }

    /// The name, which every element has.
    pub fn name(&self) -> &Text
        ensures name { result.now ≡ self.now.name }
        ensures lawful { IsElement self.now }
    {
        &self.name
    }

    /// What the attribute of this name is set to, where there is one.
    pub fn attr(&self, name: &str) -> Option<&Text>
        ensures { option_copied result ≡ value_named (chars name.now) self.now.attrs }
    {
        for attr in &self.attrs {
            if attr.name.is(name) {
                return Some(&attr.value);
            }
        }
        None
    }

    /// The same by a word that stands in the code, which is said of its octets.
    pub fn value_named(&self, name: &str) -> Option<&Text>
        requires named { IsTrue (is_name name.now) }
        ensures { option_copied result ≡ value_named name.now self.now.attrs }
    {
        self.attr(name)
    }

    /// The name and the value of the attribute at `i`.
    pub fn attr_at(&self, i: usize) -> Option<(&Text, &Text)>
        ensures { option_map (λ a. record { name = a.0.now; value = a.1.now }) result
            ≡ slice_get self.now.attrs i }
    {
        let attr = self.attrs.get(i)?;
        Some((&attr.name, &attr.value))
    }

    /// The parts, in their order.
    pub fn items(&self) -> &[Item]
        ensures { items_listed result.now ≡ self.now.items }
    {
        &self.items
    }

    /// The part at `i`.
    pub fn item(&self, i: usize) -> Option<&Item>
        ensures { option_copied result ≡ slice_get (listed self.now.items) i }
    {
        self.items.get(i)
    }

    /// Appends an attribute.
    pub fn push_attr(&mut self, name: Text, value: Text) -> Result<(), NoMemory>
        requires named { IsTrue (is_name name) }
        requires new { has_name name self.old.attrs ≡ false }
        requires allowed { IsTrue (list_all is_allowed value) }
        ensures ok { OnOk result (self.new ≡ record self.old
            { attrs = self.old.attrs ++ record { name = name; value = value } ∷ [] }) }
        ensures err { OnErr result (self.new ≡ self.old) }
    {
        push_attr(&mut self.attrs, name, value)
    }

    /// Appends a part.
    pub fn push_item(&mut self, item: Item) -> Result<(), NoMemory>
        requires next { IsNext self.old.items item }
        ensures ok { OnOk result (self.new ≡ record self.old
            { items = with_item self.old.items item }) }
        ensures err { OnErr result (self.new ≡ self.old) }
    {
        is_lawful(&item);
        match self.items.push(item) {
            Ok(()) => Ok(()),
            Err(_) => Err(NoMemory),
        }
    }
}

/// What each part keeps.
fn is_lawful(item: &Item)
    ensures { IsItem item.now }
{
    match item {
        Item::Chars(_) => {}
        Item::Child(element) => {
            element.name();
        }
    }
}

/// Appends an attribute to a list.
pub(crate) fn push_attr(attrs: &mut Vec<Attr>, name: Text, value: Text) -> Result<(), NoMemory>
    ensures ok { OnOk result (attrs.new.items
        ≡ attrs.old.items ++ record { name = name; value = value } ∷ []) }
    ensures err { OnErr result (attrs.new.items ≡ attrs.old.items) }
{
    match attrs.push(Attr { name, value }) {
        Ok(()) => Ok(()),
        Err(_) => Err(NoMemory),
    }
}
