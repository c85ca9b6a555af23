//! The log of a link: what was read and written on it, in order (RFC 3081, section 2).
ghost use Rattle.std.specs.Prelude.{◌≡◌, ◌==◌, [], ◌∷◌, length, OnOk, OnErr, option_map, slice_get};
ghost use Rattle.std.specs.Option.{option_copied};
ghost use Rattle.beep_record.specs.Logged.{entry_of, entry_at, log_of};

use beep_journal::Role;
use beep_octets::{NoMemory, Octets};
use std::alloc::Global;
use std::marker::Model;

/// What happened on a link at one time.
#[derive(Debug, Drop)]
pub enum Entry {
    /// These octets were read.
    Read(Octets),
    /// These octets were written.
    Wrote(Octets),
    /// A read gave nothing in its time.
    Quiet,
    /// The peer's octets ended.
    Ended,
}

/// The entries of a log, in the order in which they happened. A contract sees them as the log of a
/// link.
#[derive(Debug, Drop)]
pub struct LogEntries {
    list: Vec<Entry>,
}

impl Model for LogEntries {
    ghost use Rattle.std.specs.Prelude.{List};
    ghost use Rattle.beep_journal.specs.Log.{Entry};
    ghost use Rattle.beep_record.specs.Logged.{log_of};

    ghost Value = { List Entry };

    ghost view = { λ l. log_of l.list.items };
}

impl LogEntries {
    /// An empty log. It takes no memory.
    pub fn new(alloc: Global) -> LogEntries
        ensures { result ≡ [] }
    {
        LogEntries {
            list: Vec::new(alloc),
        }
    }

    /// Appends an entry, as the latest. One that finds no room is dropped.
    pub fn push(&mut self, item: Entry) -> Result<(), NoMemory>
        ensures appended { OnOk result (self.new ≡ entry_of item ∷ self.old) }
        ensures err { OnErr result (self.new ≡ self.old) }
    {
        match self.list.push(item) {
            Ok(()) => Ok(()),
            Err(_) => Err(NoMemory),
        }
    }

    /// How many entries there are.
    pub fn len(&self) -> usize
        ensures { result ≡ length self.now }
    {
        self.as_slice().len()
    }

    /// Whether there is none.
    pub fn is_empty(&self) -> bool
        ensures { result ≡ (length self.now == 0) }
    {
        self.len() == 0
    }

    /// The entry at place `i`, from 0 in the order in which they happened.
    pub fn get(&self, i: usize) -> Option<&Entry>
        ensures { option_map entry_of (option_copied result) ≡ entry_at i self.now }
    {
        entry_in(self.as_slice(), i)
    }

    /// Drops the entries, and keeps their room.
    pub(crate) fn clear(&mut self)
        ensures { self.new ≡ [] }
    {
        self.list.clear();
    }

    /// The entries, one after another.
    pub(crate) fn as_slice(&self) -> &[Entry]
        ensures { log_of result.now ≡ self.now }
    {
        &self.list
    }
}

/// The entry at place `i` of a list.
fn entry_in(list: &[Entry], i: usize) -> Option<&Entry>
    ensures { option_copied result ≡ slice_get list.now i }
{
    list.get(i)
}

/// The log of a link, and which end kept it.
#[derive(Debug, Drop)]
pub struct Log {
    /// The end that kept it.
    pub role: Role,
    /// What happened on the link.
    pub entries: LogEntries,
}
