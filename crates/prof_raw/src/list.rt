//! Entries in one piece of memory.
ghost use Rattle.std.specs.Prelude.{◌≡◌, ◌==◌, ◌<◌, ◌≤◌, ◌+◌, ◌*◌, [], ◌∷◌, ◌++◌, Some, length, OnOk, OnErr, slice_get, slice_index};
ghost use Rattle.std.specs.Option.{option_copied};
ghost use Rattle.prof_raw.specs.Listed.{cut, Rises};

use beep_octets::{NoMemory, Octets};
use std::alloc::Global;
use std::marker::Model;

/// A list of entries, each some octets. They lie one after another in one piece of memory, so that
/// an entry more takes memory only now and then.
#[derive(Debug, Drop)]
pub struct Entries {
    octets: Octets,
    ends: Vec<usize>,
}

impl Model for Entries {
    ghost use Rattle.std.specs.Prelude.{ℕ, List, length};
    ghost use Rattle.prof_raw.specs.Listed.{cut, Rises};

    ghost Value = { List (List ℕ) };

    ghost view = { λ e. cut 0 e.octets.octets e.ends.items };

    ghost invariant = { λ e. Rises 0 e.ends.items (length e.octets.octets) };
}

impl Entries {
    ghost use Rattle.prof_raw.specs.Entries.{body_of};

    /// An empty list. It takes no memory.
    pub fn new(alloc: Global) -> Entries
        ensures { result ≡ [] }
    {
        Entries {
            octets: Octets::new(alloc),
            ends: Vec::new(alloc),
        }
    }

    /// Appends an entry. One that finds no room is dropped.
    pub fn push(&mut self, entry: &[u8]) -> Result<(), NoMemory>
        ensures appended { OnOk result (self.new ≡ self.old ++ entry.now ∷ []) }
        ensures err { OnErr result (self.new ≡ self.old) }
    {
        self.ends.reserve(1)?;
        self.octets.extend(entry)?;
        let end = self.octets.len();
        self.ends.push_reserved(end);
        Ok(())
    }

    /// How many entries there are.
    pub fn len(&self) -> usize
        ensures { result ≡ length self.now }
    {
        self.ends.as_slice().len()
    }

    /// Whether there is none.
    pub fn is_empty(&self) -> bool
        ensures { result ≡ (length self.now == 0) }
    {
        self.len() == 0
    }

    /// The entry at place `i`, from 0.
    pub fn get(&self, i: usize) -> Option<&[u8]>
        ensures { option_copied result ≡ slice_get self.now i }
    {
        if i < self.len() {
            Some(self.entry(i))
        } else {
            None
        }
    }

    pub(crate) fn entry(&self, i: usize) -> &[u8]
        requires { i < length self.now }
        ensures { slice_get self.now i ≡ Some result.now }
    {
        entry_in(self.octets.as_slice(), &self.ends, i)
    }

    /// How many octets the body of these entries has.
    pub(crate) fn body_len(&self) -> usize
        ensures { result ≡ length (body_of self.now) }
    {
        lines_len(self.octets.as_slice(), &self.ends)
    }
}

/// The entry at `i`, where these octets are cut at these ends.
fn entry_in<'o>(octets: &'o [u8], ends: &[usize], i: usize) -> &'o [u8]
    requires rises { Rises 0 ends.now (length octets.now) }
    requires within { i < length ends.now }
    ensures { slice_get (cut 0 octets.now ends.now) i ≡ Some result.now }
{
    let start = start_of(ends, i);
    let end = ends[i];
    &octets[start..end]
}

/// The place at which the entry at `i` begins: the end of the one before it.
fn start_of(ends: &[usize], i: usize) -> usize
    requires { i ≤ length ends.now }
    ensures { result ≡ slice_index (0 ∷ ends.now) i }
{
    if i == 0 { 0 } else { ends[i - 1] }
}

/// How many octets a body has whose entries have these octets and ends.
fn lines_len(octets: &[u8], ends: &[usize]) -> usize
    ensures { result ≡ 2 + length octets.now + 2 * length ends.now }
{
    2 + octets.len() + 2 * ends.len()
}
