//! What happened on links in memory, in room that was taken before.
ghost use Rattle.std.specs.Prelude.{◌≡◌, ◌+◌, ◌≤◌, max, [], ◌∷◌, length, OnOk};

use crate::gives::sum_within;
use beep_octets::{NoMemory, Octets};
use std::alloc::Global;
use std::marker::Model;

/// What a call did.
#[derive(Clone, Copy, Debug)]
pub(crate) enum Deed {
    Read,
    Wrote,
    Quiet,
    Ended,
}

/// Where the octets of an entry end, and what it is.
#[derive(Clone, Copy, Debug)]
pub(crate) struct Mark {
    pub(crate) link: u32,
    pub(crate) deed: Deed,
    pub(crate) end: usize,
}

/// The entries of all links, one after another.
#[derive(Debug, Drop)]
pub(crate) struct Events {
    octets: Octets,
    marks: Vec<Mark>,
}

impl Model for Events {
    ghost use Rattle.std.specs.Prelude.{◌-◌, length, min, reverse, vec_len, vec_capacity};
    ghost use Rattle.beep_memory.specs.Kept.{Story, events_from, Rises};

    ghost Value = { Story };

    ghost view = { λ t. record {
      events = reverse (events_from 0 t.octets.octets t.marks.items);
      room = min t.octets.spare (vec_capacity t.marks - vec_len t.marks);
    } };

    ghost invariant = { λ t. Rises 0 t.marks.items (length t.octets.octets) };
}

impl Events {
    ghost use Rattle.beep_memory.specs.Kept.{entry_as};

    /// Nothing has happened, and there is no room. It takes no memory.
    pub(crate) fn new(alloc: Global) -> Events
        ensures { result.events ≡ [] }
    {
        Events {
            octets: Octets::new(alloc),
            marks: Vec::new(alloc),
        }
    }

    /// Makes room for `n` more entries, and `n` more octets in them, than find room now.
    pub(crate) fn reserve_more(&mut self, n: usize) -> Result<(), NoMemory>
        ensures ok { OnOk result (self.old.room + n ≤ self.new.room) }
        ensures room { self.old.room ≤ self.new.room }
        ensures kept { self.new.events ≡ self.old.events }
    {
        let octets = sum_within(self.octets.spare(), n).ok_or(NoMemory)?;
        let marks = sum_within(self.marks.capacity() - self.marks.len(), n).ok_or(NoMemory)?;
        self.octets.reserve(octets)?;
        self.marks.reserve(marks)?;
        Ok(())
    }

    /// Adds an entry, as the latest.
    pub(crate) fn note(&mut self, link: u32, deed: Deed, bytes: &[u8])
        requires { max (length bytes.now) 1 ≤ self.old.room }
        ensures noted { self.new.events
            ≡ record { link = link; entry = entry_as deed bytes.now } ∷ self.old.events }
        ensures room { self.old.room ≤ self.new.room + max (length bytes.now) 1 }
    {
        self.octets.extend_spare(bytes);
        let end = self.octets.len();
        self.marks.push_reserved(Mark { link, deed, end });
    }
}
