//! Where elements end: the end of a tag, an end tag, and the end of the body.
ghost use Rattle.std.specs.Prelude.{◌≡◌, IfOk};
ghost use Rattle.beep_text.specs.Lawful.{IsElement};
ghost use Rattle.beep_text.specs.Machine.{slash_step, closing_step, closed_step, ended, element_of, child_of};
ghost use Rattle.beep_text.specs.Reading.{tree_in, state_of, Steps};
ghost use Rattle.beep_text.specs.Listed.{items_listed};

use crate::element::{Element, Item};
use crate::level::push_item;
use crate::mode::{Mode, Part};
use crate::octet::is_space;
use crate::reader::{Level, Reader};
use beep_octets::NoMemory;
use std::mem;

impl Reader {
    /// The element, where the body may end.
    pub(crate) fn finish(self) -> Option<Element>
        ensures { result ≡ element_of self.mode (tree_in self.top).items }
    {
        let Reader {
            below: _,
            top,
            attr: _,
            value: _,
            mode,
        } = self;
        match mode {
            Mode::Trail => outermost(top.items),
            Mode::Lead | Mode::Begun | Mode::Naming | Mode::Tag(_) | Mode::Slash => None,
            Mode::Attr | Mode::Equals | Mode::Quote | Mode::Value(_, _) => None,
            Mode::Content(_) | Mode::Bang(_) | Mode::Section(_, _) => None,
            Mode::Closing(_) | Mode::Closed => None,
        }
    }

    pub(crate) fn slash(&mut self, octet: u8) -> Result<bool, NoMemory>
        requires ends { IsElement (tree_in self.old.top) }
        ensures { IfOk result (λ went.
            Steps (slash_step (state_of self.old) octet) went (state_of self.new)) }
    {
        if octet == b'>' {
            return self.end();
        }
        Ok(false)
    }

    pub(crate) fn closing(&mut self, n: usize, octet: u8) -> Result<bool, NoMemory>
        requires ends { IsElement (tree_in self.old.top) }
        ensures { IfOk result (λ went.
            Steps (closing_step (state_of self.old) n octet) went (state_of self.new)) }
    {
        if n >= self.top.name.len() {
            return self.closed(octet);
        }
        if self.top.name.has_at(n, octet) {
            self.mode = Mode::Closing(n + 1);
            return Ok(true);
        }
        Ok(false)
    }

    pub(crate) fn closed(&mut self, octet: u8) -> Result<bool, NoMemory>
        requires ends { IsElement (tree_in self.old.top) }
        ensures { IfOk result (λ went.
            Steps (closed_step (state_of self.old) octet) went (state_of self.new)) }
    {
        if is_space(octet) {
            self.mode = Mode::Closed;
            return Ok(true);
        }
        if octet == b'>' {
            return self.end();
        }
        Ok(false)
    }

    fn end(&mut self) -> Result<bool, NoMemory>
        requires ends { IsElement (tree_in self.old.top) }
        ensures { IfOk result (λ went. Steps (ended (state_of self.old)) went (state_of self.new)) }
    {
        let Some(up) = self.below.pop() else {
            return Ok(false);
        };
        let Level { name, attrs, items } = mem::replace(&mut self.top, up);
        let child = Element { name, attrs, items };
        push_item(&mut self.top.items, Item::Child(child))?;
        self.mode = if self.below.is_empty() {
            Mode::Trail
        } else {
            Mode::Content(Part::Fresh)
        };
        Ok(true)
    }
}

/// The last part, where it is an element.
fn outermost(mut items: Vec<Item>) -> Option<Element>
    ensures { result ≡ child_of (items_listed items.items) }
{
    match items.pop() {
        Some(Item::Child(element)) => Some(element),
        Some(Item::Chars(_)) | None => None,
    }
}
