//! The reader of elements, one octet at a time (RFC 3080, section 6.4).
ghost use Rattle.std.specs.Prelude.{◌≡◌, ℕ, ◌+◌, ◌<◌, ◌≤◌, false, [], ◌∷◌, ◌++◌, fold, replicate, OnOk, IfOk};
ghost use Rattle.beep_text.specs.declared.mode.Taken.{Taken};
ghost use Rattle.beep_text.specs.Machine.{lead_step, begun_step, naming_step, tag_step, attr_step, equals_step, quote_step, value_step, value_taken, content_step, content_taken, bang_step, section_step, section_taken, unended, step, start, opened, with_setting, with_items, dashed};
ghost use Rattle.beep_text.specs.Elements.{put as put_in};
ghost use Rattle.beep_text.specs.Reading.{tree_in, state_of, Steps, MayEnd};

use crate::attr::Attr;
use crate::element::{Item, push_attr};
use crate::level::{has_name, has_room, put};
use crate::limits::MAX_NESTED;
use crate::mode::{Mode, Part, Taken};
use crate::octet::{char_taken, is_fresh, is_name_char, is_name_start, is_space, taken_after};
use beep_chars::{MAX_NAME, Text};
use beep_octets::NoMemory;
use std::alloc::Global;
use std::mem;

/// An element that is open.
#[derive(Drop)]
pub(crate) struct Level {
    pub(crate) name: Text,
    pub(crate) attrs: Vec<Attr>,
    pub(crate) items: Vec<Item>,
}

/// The open elements, and what of the next part was read.
#[derive(Drop)]
pub(crate) struct Reader {
    pub(crate) below: Vec<Level>,
    pub(crate) top: Level,
    pub(crate) attr: Text,
    pub(crate) value: Text,
    pub(crate) mode: Mode,
}

impl Reader {
    /// A reader before any octet.
    pub(crate) fn new(alloc: Global) -> Reader
        ensures { state_of result ≡ start }
    {
        Reader {
            below: Vec::new(alloc),
            top: Level {
                name: Text::new(alloc),
                attrs: Vec::new(alloc),
                items: Vec::new(alloc),
            },
            attr: Text::new(alloc),
            value: Text::new(alloc),
            mode: Mode::Lead,
        }
    }

    fn alloc(&self) -> Global {
        *self.below.allocator()
    }

    fn lead(&mut self, octet: u8) -> bool
        ensures { Steps (lead_step (state_of self.old) octet) result (state_of self.new) }
    {
        if is_space(octet) {
            return true;
        }
        if octet == b'<' {
            self.mode = Mode::Begun;
            return true;
        }
        false
    }

    fn begun(&mut self, octet: u8) -> Result<bool, NoMemory>
        ensures { IfOk result (λ went.
            Steps (begun_step (state_of self.old) octet) went (state_of self.new)) }
    {
        if is_name_start(octet) {
            if self.below.len() >= MAX_NESTED {
                return Ok(false);
            }
            self.open(octet)?;
            return Ok(true);
        }
        if self.below.is_empty() {
            return Ok(false);
        }
        if octet == b'/' {
            self.mode = Mode::Closing(0);
            return Ok(true);
        }
        if octet == b'!' {
            self.mode = Mode::Bang(0);
            return Ok(true);
        }
        Ok(false)
    }

    fn open(&mut self, octet: u8) -> Result<(), NoMemory>
        ensures { OnOk result (state_of self.new ≡ opened (state_of self.old) octet) }
    {
        let alloc = self.alloc();
        let mut name = Text::new(alloc);
        name.push(octet as char)?;
        let level = Level {
            name,
            attrs: Vec::new(alloc),
            items: Vec::new(alloc),
        };
        let up = mem::replace(&mut self.top, level);
        self.mode = Mode::Naming;
        match self.below.push(up) {
            Ok(()) => Ok(()),
            Err(_) => Err(NoMemory),
        }
    }

    fn naming(&mut self, octet: u8) -> Result<bool, NoMemory>
        ensures { IfOk result (λ went.
            Steps (naming_step (state_of self.old) octet) went (state_of self.new)) }
    {
        if is_name_char(octet) {
            if self.top.name.len() >= MAX_NAME {
                return Ok(false);
            }
            self.top.name.push(octet as char)?;
            return Ok(true);
        }
        self.tag(false, octet)
    }

    fn tag(&mut self, spaced: bool, octet: u8) -> Result<bool, NoMemory>
        ensures { IfOk result (λ went.
            Steps (tag_step spaced (state_of self.old) octet) went (state_of self.new)) }
    {
        if is_space(octet) {
            self.mode = Mode::Tag(true);
            return Ok(true);
        }
        if octet == b'>' {
            self.mode = Mode::Content(Part::Fresh);
            return Ok(true);
        }
        if octet == b'/' {
            self.mode = Mode::Slash;
            return Ok(true);
        }
        if !(spaced && is_name_start(octet)) {
            return Ok(false);
        }
        let mut name = Text::new(self.alloc());
        name.push(octet as char)?;
        if !has_room(&self.top.attrs, &name)? {
            return Ok(false);
        }
        self.attr = name;
        self.mode = Mode::Attr;
        Ok(true)
    }

    fn attr(&mut self, octet: u8) -> Result<bool, NoMemory>
        ensures { IfOk result (λ went.
            Steps (attr_step (state_of self.old) octet) went (state_of self.new)) }
    {
        if is_name_char(octet) {
            if self.attr.len() >= MAX_NAME {
                return Ok(false);
            }
            self.attr.push(octet as char)?;
            self.mode = Mode::Attr;
            if !has_room(&self.top.attrs, &self.attr)? {
                return Ok(false);
            }
            return Ok(true);
        }
        if has_name(&self.top.attrs, &self.attr) {
            return Ok(false);
        }
        Ok(self.equals(octet))
    }

    fn equals(&mut self, octet: u8) -> bool
        ensures { Steps (equals_step (state_of self.old) octet) result (state_of self.new) }
    {
        if is_space(octet) {
            self.mode = Mode::Equals;
            return true;
        }
        if octet == b'=' {
            self.mode = Mode::Quote;
            return true;
        }
        false
    }

    fn quote(&mut self, octet: u8) -> bool
        ensures { Steps (quote_step (state_of self.old) octet) result (state_of self.new) }
    {
        if is_space(octet) {
            return true;
        }
        if octet == b'"' || octet == b'\'' {
            self.value = Text::new(self.alloc());
            self.mode = Mode::Value(octet, Part::Fresh);
            return true;
        }
        false
    }

    fn value(&mut self, quote: u8, part: Part, octet: u8) -> Result<bool, NoMemory>
        ensures { IfOk result (λ went.
            Steps (value_step (state_of self.old) quote part octet) went (state_of self.new)) }
    {
        if is_fresh(part) && octet == quote {
            self.set()?;
            return Ok(true);
        }
        if is_fresh(part) && octet == b'<' {
            return Ok(false);
        }
        match char_taken(part, octet) {
            Taken::Whole(character) => {
                self.value.push(character)?;
                self.mode = Mode::Value(quote, Part::Fresh);
                Ok(true)
            }
            Taken::More(next) => {
                self.mode = Mode::Value(quote, next);
                Ok(true)
            }
            Taken::Dead => Ok(false),
        }
    }

    fn set(&mut self) -> Result<(), NoMemory>
        ensures { OnOk result (state_of self.new ≡ with_setting (state_of self.old)) }
    {
        let alloc = self.alloc();
        let name = mem::replace(&mut self.attr, Text::new(alloc));
        let value = mem::replace(&mut self.value, Text::new(alloc));
        self.mode = Mode::Tag(false);
        push_attr(&mut self.top.attrs, name, value)
    }

    fn content(&mut self, part: Part, octet: u8) -> Result<bool, NoMemory>
        ensures { IfOk result (λ went.
            Steps (content_step (state_of self.old) part octet) went (state_of self.new)) }
    {
        if is_fresh(part) && octet == b'<' {
            self.mode = Mode::Begun;
            return Ok(true);
        }
        match char_taken(part, octet) {
            Taken::Whole(character) => {
                self.put(character)?;
                self.mode = Mode::Content(Part::Fresh);
                Ok(true)
            }
            Taken::More(next) => {
                self.mode = Mode::Content(next);
                Ok(true)
            }
            Taken::Dead => Ok(false),
        }
    }

    fn put(&mut self, character: char) -> Result<(), NoMemory>
        ensures { OnOk result (state_of self.new ≡ with_items (state_of self.old)
            (put_in (state_of self.old).top.items character) self.old.mode) }
    {
        let run = Text::new(self.alloc());
        put(&mut self.top.items, character, run)
    }

    fn bang(&mut self, n: u8, octet: u8) -> bool
        ensures { Steps (bang_step (state_of self.old) n octet) result (state_of self.new) }
    {
        let opens = b"[CDATA[";
        if n >= 7 || octet != opens[n as usize] {
            return false;
        }
        self.mode = if n == 6 {
            Mode::Section(0, Part::Fresh)
        } else {
            Mode::Bang(n + 1)
        };
        true
    }

    fn section(&mut self, k: u8, part: Part, octet: u8) -> Result<bool, NoMemory>
        ensures { IfOk result (λ went.
            Steps (section_step (state_of self.old) k part octet) went (state_of self.new)) }
    {
        if is_fresh(part) && octet == b']' {
            self.dash(k)?;
            return Ok(true);
        }
        if is_fresh(part) && octet == b'>' && k == 2 {
            self.mode = Mode::Content(Part::Fresh);
            return Ok(true);
        }
        self.flush(k)?;
        self.section_taken(taken_after(part, octet))
    }

    fn flush(&mut self, k: u8) -> Result<(), NoMemory>
        ensures { OnOk result (state_of self.new ≡ unended (state_of self.old) k) }
    {
        for _done in 0..k {
            self.put(']')?;
        }
        Ok(())
    }

    fn dash(&mut self, k: u8) -> Result<(), NoMemory>
        ensures { OnOk result (state_of self.new ≡ dashed (state_of self.old) k) }
    {
        if k < 2 {
            self.mode = Mode::Section(k + 1, Part::Fresh);
            return Ok(());
        }
        self.put(']')?;
        self.mode = Mode::Section(2, Part::Fresh);
        Ok(())
    }

    fn section_taken(&mut self, taken: Taken) -> Result<bool, NoMemory>
        ensures { IfOk result (λ went.
            Steps (section_taken (state_of self.old) taken) went (state_of self.new)) }
    {
        match taken {
            Taken::Whole(character) => {
                self.put(character)?;
                self.mode = Mode::Section(0, Part::Fresh);
                Ok(true)
            }
            Taken::More(next) => {
                self.mode = Mode::Section(0, next);
                Ok(true)
            }
            Taken::Dead => Ok(false),
        }
    }

    /// Takes one octet, where one can follow.
    pub(crate) fn take(&mut self, octet: u8) -> Result<bool, NoMemory>
        requires ends { MayEnd self.old.mode (tree_in self.old.top) }
        ensures { IfOk result (λ went.
            Steps (step (state_of self.old) octet) went (state_of self.new)) }
    {
        match self.mode {
            Mode::Lead => Ok(self.lead(octet)),
            Mode::Begun => self.begun(octet),
            Mode::Naming => self.naming(octet),
            Mode::Tag(spaced) => self.tag(spaced, octet),
            Mode::Slash => self.slash(octet),
            Mode::Attr => self.attr(octet),
            Mode::Equals => Ok(self.equals(octet)),
            Mode::Quote => Ok(self.quote(octet)),
            Mode::Value(quote, part) => self.value(quote, part, octet),
            Mode::Content(part) => self.content(part, octet),
            Mode::Bang(n) => Ok(self.bang(n, octet)),
            Mode::Section(k, part) => self.section(k, part, octet),
            Mode::Closing(n) => self.closing(n, octet),
            Mode::Closed => self.closed(octet),
            Mode::Trail => Ok(is_space(octet)),
        }
    }
}
