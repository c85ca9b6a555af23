//! A list of events.
ghost use Rattle.std.specs.Prelude.{◌≡◌, ◌==◌, ◌++◌, ◌∷◌, [], length, slice_get, option_copied, OnOk, OnErr};

use crate::event::PairEvent;
use beep_octets::NoMemory;
use std::alloc::Global;
use std::marker::Model;

/// The events of a schedule, in the order in which they happen.
#[derive(Debug, Drop)]
pub struct Schedule {
    list: Vec<PairEvent>,
}

impl Model for Schedule {
    ghost use Rattle.std.specs.Prelude.{List};
    ghost use Rattle.beep_schedule.specs.declared.event.PairEvent.{PairEvent as EventValue};

    ghost Value = { List EventValue };

    ghost view = { λ s. s.list.items };
}

impl Schedule {
    /// No event. It takes no memory.
    pub fn new(alloc: Global) -> Schedule
        ensures { result ≡ [] }
    {
        Schedule {
            list: Vec::new(alloc),
        }
    }

    /// Puts an event after the others. One that finds no room is dropped.
    pub fn push(&mut self, item: PairEvent) -> Result<(), NoMemory>
        ensures ok { OnOk result (self.new ≡ self.old ++ item ∷ []) }
        ensures err { OnErr result (self.new ≡ self.old) }
    {
        let Ok(()) = self.list.push(item) else {
            return Err(NoMemory);
        };
        Ok(())
    }

    /// How many events it has, those of one end and those of both together.
    pub fn len(&self) -> usize
        ensures { result ≡ length self.now }
    {
        self.list.len()
    }

    /// Whether there is none.
    pub fn is_empty(&self) -> bool
        ensures { result ≡ (length self.now == 0) }
    {
        self.list.is_empty()
    }

    /// The event at place `i`, from 0.
    pub fn get(&self, i: usize) -> Option<&PairEvent>
        ensures { option_copied result ≡ slice_get self.now i }
    {
        self.list.get(i)
    }
}
