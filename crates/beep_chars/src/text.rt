//! A list of characters, kept as text.
ghost use Rattle.std.specs.Prelude.{◌≡◌, ◌==◌, ◌+◌, ◌<◌, [], ◌∷◌, ◌++◌, length, chars, slice_get, slice_index, bytes_eq, IsTrue, IfOk, OnOk, OnErr};
ghost use Rattle.std.specs.List.{list_all};
ghost use Rattle.beep_chars.specs.Characters.{is_space, is_allowed, is_name, is_name_char};

use crate::characters::{are_allowed, is_name_char, is_name_start, is_space};
use crate::limits::MAX_NAME;
use beep_octets::NoMemory;
use std::alloc::Global;
use std::marker::Model;

/// A list of characters that grows at its end.
#[derive(Debug, Drop)]
pub struct Text {
    text: String,
    // The number of characters, so that a name's length is had at each octet of it.
    len: usize,
}

impl Model for Text {
    ghost use Rattle.std.specs.Prelude.{◌≡◌, ℕ, List, length, chars, string_bytes};

    ghost Value = { List ℕ };

    ghost view = { λ t. chars (string_bytes t.text) };

    ghost invariant = { λ t. t.len ≡ length (chars (string_bytes t.text)) };
}

impl Text {
    /// A list without characters. It takes no memory.
    pub fn new(alloc: Global) -> Text
        ensures { result ≡ [] }
    {
        Text {
            text: String::new(alloc),
            len: 0,
        }
    }

    /// The characters of a string.
    pub fn of(alloc: Global, characters: &str) -> Result<Text, NoMemory>
        ensures { IfOk result (λ text. text ≡ chars characters.now) }
    {
        let mut text = Text::new(alloc);
        for character in characters.chars() {
            text.push(character)?;
        }
        Ok(text)
    }

    /// A word that stands in the code, as a text. It is said of the octets, which are its
    /// characters.
    pub fn of_word(alloc: Global, word: &str) -> Result<Text, NoMemory>
        requires named { IsTrue (is_name word.now) }
        ensures { IfOk result (λ text. text ≡ word.now) }
    {
        Text::of(alloc, word)
    }

    /// Appends a character.
    pub fn push(&mut self, character: char) -> Result<(), NoMemory>
        ensures ok { OnOk result (self.new ≡ self.old ++ character ∷ []) }
        ensures err { OnErr result (self.new ≡ self.old) }
    {
        self.text.push(character)?;
        self.len = one_more(self.len, self.text.as_str().len());
        Ok(())
    }

    /// How many characters the list has.
    pub fn len(&self) -> usize
        ensures { result ≡ length self.now }
    {
        self.len
    }

    /// The character at `i`. It takes time in `i`.
    pub fn get(&self, i: usize) -> Option<char>
        ensures { result ≡ slice_get self.now i }
    {
        self.text.chars().nth(i)
    }

    /// The characters as text.
    pub fn as_str(&self) -> &str
        ensures { chars result.now ≡ self.now }
    {
        self.text.as_str()
    }

    /// Whether the characters are those of `other`.
    pub fn is(&self, other: &str) -> bool
        ensures { result ≡ bytes_eq self.now (chars other.now) }
    {
        self.text.as_str() == other
    }

    /// Whether the text is a word that stands in the code, as `of_word` puts it.
    pub fn is_word(&self, word: &str) -> bool
        requires named { IsTrue (is_name word.now) }
        ensures { result ≡ bytes_eq self.now word.now }
    {
        self.is(word)
    }

    /// Whether the characters are those of another list.
    pub fn same(&self, other: &Text) -> bool
        ensures { result ≡ bytes_eq self.now other.now }
    {
        self.is(other.as_str())
    }

    /// The same characters again.
    pub fn copy(&self) -> Result<Text, NoMemory>
        ensures { IfOk result (λ text. text ≡ self.now) }
    {
        Ok(Text {
            text: self.text.clone()?,
            len: self.len,
        })
    }

    /// Whether the character at `i` is this octet.
    pub fn has_at(&self, i: usize, octet: u8) -> bool
        requires within { i < length self.now }
        ensures { result ≡ (octet == slice_index self.now i) }
    {
        match self.get(i) {
            Some(character) => octet as char == character,
            None => false,
        }
    }

    /// Whether there is nothing but white space.
    pub fn is_blank(&self) -> bool
        ensures { result ≡ list_all is_space self.now }
    {
        self.text.as_str().chars().all(|c| is_space(c))
    }

    /// Whether an element may hold each of the characters.
    pub fn is_allowed(&self) -> bool
        ensures { result ≡ list_all is_allowed self.now }
    {
        are_allowed(self.text.as_str())
    }

    /// Whether the text is a name.
    pub fn is_name(&self) -> bool
        ensures { result ≡ is_name self.now }
    {
        match self.get(0) {
            Some(first) => is_name_start(first) && self.goes_on() && self.len <= MAX_NAME,
            None => false,
        }
    }

    /// Whether a name may go on with each of the characters.
    fn goes_on(&self) -> bool
        ensures { result ≡ list_all is_name_char self.now }
    {
        self.text.as_str().chars().all(|c| is_name_char(c))
    }
}

/// One more than a count of characters that are fewer than these octets, so that it fits.
fn one_more(count: usize, octets: usize) -> usize
    requires { count < octets }
    ensures { result ≡ count + 1 }
{
    count + 1
}
