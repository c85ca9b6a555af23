//! The octets that one end sent and the other has not used.
ghost use Rattle.std.specs.Prelude.{◌≡◌, ◌≤◌, ◌++◌, ◌==◌, [], length, take, drop, OnOk};

use beep_two_sessions::beep_octets::{NoMemory, Octets};
use std::alloc::Global;
use std::marker::Model;

/// The octets on a wire. A contract sees their list.
#[derive(Drop)]
pub(crate) struct Wire {
    octets: Octets,
    at: usize,
}

impl Model for Wire {
    ghost use Rattle.std.specs.Prelude.{List, ℕ, drop, length, ◌≤◌};

    ghost Value = { List ℕ };

    ghost view = { λ w. drop w.at w.octets.octets };

    ghost invariant = { λ w. w.at ≤ length w.octets.octets };
}

impl Wire {
    pub(crate) fn new(alloc: Global) -> Wire
        ensures { result ≡ [] }
    {
        Wire {
            octets: Octets::new(alloc),
            at: 0,
        }
    }

    /// The octets, the oldest first.
    pub(crate) fn as_slice(&self) -> &[u8]
        ensures { result.now ≡ self.now }
    {
        &self.octets.as_slice()[self.at..]
    }

    /// The oldest octets, at most so many.
    pub(crate) fn front(&self, count: usize) -> &[u8]
        ensures { result.now ≡ take count self.now }
    {
        let octets = self.as_slice();
        if count <= octets.len() {
            &octets[..count]
        } else {
            octets
        }
    }

    /// How many octets were sent and not used.
    pub(crate) fn len(&self) -> usize
        ensures { result ≡ length self.now }
    {
        self.octets.len() - self.at
    }

    /// Whether there is none.
    pub(crate) fn is_empty(&self) -> bool
        ensures { result ≡ (length self.now == 0) }
    {
        self.len() == 0
    }

    /// Puts octets onto the wire, after the others.
    pub(crate) fn put(&mut self, octets: &[u8]) -> Result<(), NoMemory>
        ensures { OnOk result (self.new ≡ self.old ++ octets.now) }
    {
        if self.at == self.octets.len() {
            self.octets.clear();
            self.at = 0;
        }
        self.octets.extend(octets)
    }

    /// Takes the oldest octets off the wire.
    pub(crate) fn advance(&mut self, count: usize)
        requires within { count ≤ length self.old }
        ensures { self.new ≡ drop count self.old }
    {
        let rest = self.octets.len() - self.at - count;
        self.at = self.octets.len() - rest;
    }
}
