//! A list of octets with room after it.
ghost use Rattle.std.specs.Prelude.{◌≡◌, ◌==◌, ◌+◌, ◌<◌, ◌≤◌, [], ◌∷◌, ◌++◌, length, OnOk, OnErr, IsOk};

use std::alloc::{AllocError, Global};
use std::marker::Model;

/// A call is out of memory, and nothing else is wrong. A later call may succeed.
#[derive(Clone, Copy, Debug, PartialEq, Eq)]
pub struct NoMemory;

impl From<AllocError> for NoMemory {
    fn from(_error: AllocError) -> NoMemory {
        NoMemory
    }
}

/// A list of octets that grows at its end, and the room that it has taken for more of them.
#[derive(Debug, Drop)]
pub struct Octets {
    bytes: Vec<u8>,
}

impl Model for Octets {
    ghost use Rattle.std.specs.Prelude.{◌-◌, vec_len, vec_capacity};
    ghost use Rattle.beep_octets.specs.Held.{Held};

    ghost Value = { Held };

    ghost view = { λ o. record {
      octets = o.bytes.items;
      spare = vec_capacity o.bytes - vec_len o.bytes;
    } };
}

impl Octets {
    ghost use Rattle.beep_octets.specs.Held.{GrowsBy, KeepsRoom};

    /// An empty list without room. It takes no memory.
    pub fn new(alloc: Global) -> Octets
        ensures { result.octets ≡ [] }
    {
        Octets {
            bytes: Vec::new(alloc),
        }
    }

    /// Where its memory comes from.
    pub fn alloc(&self) -> Global {
        *self.bytes.allocator()
    }

    /// Makes room for at least `n` more octets. It takes memory only where that room isn't there.
    pub fn reserve(&mut self, n: usize) -> Result<(), NoMemory>
        ensures ok { OnOk result (n ≤ self.new.spare) }
        ensures err { OnErr result (self.new.spare ≡ self.old.spare) }
        ensures succeeds { n ≤ self.old.spare → IsOk result }
        ensures kept { self.new.octets ≡ self.old.octets }
        ensures room { self.old.spare ≤ self.new.spare }
    {
        self.bytes.reserve(n)?;
        Ok(())
    }

    /// Appends `bytes`. It takes memory only where their room isn't there.
    pub fn extend(&mut self, bytes: &[u8]) -> Result<(), NoMemory>
        ensures appended { OnOk result (self.new.octets ≡ self.old.octets ++ bytes.now) }
        ensures err { OnErr result (self.new.octets ≡ self.old.octets) }
        ensures succeeds { length bytes.now ≤ self.old.spare → IsOk result }
        ensures room { self.old.spare ≤ self.new.spare + length bytes.now }
    {
        self.bytes.extend_from_slice(bytes)?;
        Ok(())
    }

    /// Appends one octet in the room that is there.
    pub fn push_spare(&mut self, byte: u8)
        requires { 0 < self.old.spare }
        ensures appended { self.new.octets ≡ self.old.octets ++ byte ∷ [] }
        ensures room { self.new.spare + 1 ≡ self.old.spare }
    {
        self.bytes.push_reserved(byte);
    }

    /// Appends `bytes` in the room that is there.
    pub fn extend_spare(&mut self, bytes: &[u8])
        requires { length bytes.now ≤ self.old.spare }
        ensures appended { self.new.octets ≡ self.old.octets ++ bytes.now }
        ensures room { self.old.spare ≤ self.new.spare + length bytes.now }
    {
        match self.extend(bytes) {
            Ok(()) => {}
            Err(NoMemory) => unreachable!(),
        }
    }

    /// Appends a few octets, one after another, in the room that is there.
    pub fn push_few(&mut self, bytes: &[u8])
        requires { length bytes.now ≤ self.old.spare }
        ensures appended { self.new.octets ≡ self.old.octets ++ bytes.now }
        ensures room { self.new.spare + length bytes.now ≡ self.old.spare }
    {
        for i in 0..bytes.len() {
            self.push_spare(bytes[i]);
        }
    }

    /// Appends `bytes` where they find room, and nothing of them otherwise. It takes no memory.
    pub fn extend_within(&mut self, bytes: &[u8])
        ensures appended { length bytes.now ≤ self.old.spare
            → self.new.octets ≡ self.old.octets ++ bytes.now }
        ensures full { self.old.spare < length bytes.now → self.new ≡ self.old }
        ensures used { GrowsBy self.old self.new (length bytes.now) }
        ensures room { KeepsRoom self.old self.new }
    {
        if bytes.len() <= self.spare() {
            self.extend_spare(bytes);
        }
    }

    /// The octets as a slice, without the room after them.
    pub fn as_slice(&self) -> &[u8]
        ensures { result.now ≡ self.now.octets }
    {
        self.bytes.as_slice()
    }

    /// How many octets the list has.
    pub fn len(&self) -> usize
        ensures { result ≡ length self.now.octets }
    {
        self.bytes.len()
    }

    /// Whether the list has no octet.
    pub fn is_empty(&self) -> bool
        ensures { result ≡ (length self.now.octets == 0) }
    {
        self.bytes.is_empty()
    }

    /// How many octets can be appended without taking memory.
    pub fn spare(&self) -> usize
        ensures { result ≡ self.now.spare }
    {
        self.bytes.capacity() - self.bytes.len()
    }

    /// Empties the list, and keeps its room.
    pub fn clear(&mut self)
        ensures emptied { self.new.octets ≡ [] }
        ensures room { self.old.spare + length self.old.octets ≤ self.new.spare }
    {
        self.bytes.clear();
    }
}
