//! The calls that are to fail.
ghost use Rattle.std.specs.Prelude.{◌≡◌, [], ◌∷◌, ◌++◌, length, OnOk, OnErr, slice_get};
ghost use Rattle.std.specs.Option.{option_copied};
ghost use Rattle.beep_wires.specs.Planned.{is_planned};

use beep_octets::NoMemory;
use std::alloc::Global;
use std::marker::Model;

/// The numbers of the calls that are to fail, counted from 0, in any order.
#[derive(Debug, Drop)]
pub struct Fails {
    numbers: Vec<u64>,
}

impl Model for Fails {
    ghost use Rattle.std.specs.Prelude.{ℕ, List};

    ghost Value = { List ℕ };

    ghost view = { λ f. f.numbers.items };
}

impl Fails {
    /// No call is to fail. It takes no memory.
    pub fn new(alloc: Global) -> Fails
        ensures { result ≡ [] }
    {
        Fails {
            numbers: Vec::new(alloc),
        }
    }

    /// Appends the number of one more call. A number that finds no room is dropped.
    pub fn push(&mut self, number: u64) -> Result<(), NoMemory>
        ensures appended { OnOk result (self.new ≡ self.old ++ number ∷ []) }
        ensures err { OnErr result (self.new ≡ self.old) }
    {
        match self.numbers.push(number) {
            Ok(()) => Ok(()),
            Err(_) => Err(NoMemory),
        }
    }

    /// How many numbers there are.
    pub fn len(&self) -> usize
        ensures { result ≡ length self.now }
    {
        self.numbers.len()
    }

    /// The number at place `i`, from 0.
    pub fn get(&self, i: usize) -> Option<&u64>
        ensures { option_copied result ≡ slice_get self.now i }
    {
        self.numbers.get(i)
    }

    /// Whether the call of this number is to fail.
    pub fn has(&self, call: u64) -> bool
        ensures { result ≡ is_planned self.now call }
    {
        self.numbers.contains(&call)
    }
}
