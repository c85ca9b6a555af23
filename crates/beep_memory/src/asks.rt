//! What asked links in memory for one.
ghost use Rattle.std.specs.Prelude.{◌≡◌, ◌<◌, ◌≤◌, [], ◌∷◌, OnOk, IfOk};

use beep_octets::NoMemory;
use std::alloc::Global;
use std::marker::Model;

/// What asks for a link.
#[derive(Debug, Drop)]
pub(crate) enum Ask {
    Accept(String, u16),
    Dial(String, u16),
}

/// What asked, how many links were open then, and the number of the link that it got, if any.
#[derive(Debug, Drop)]
pub(crate) struct Asked {
    pub(crate) ask: Ask,
    pub(crate) beside: usize,
    pub(crate) link: Option<u32>,
}

/// What asked for links, one after another.
#[derive(Debug, Drop)]
pub(crate) struct Asks {
    list: Vec<Asked>,
}

impl Model for Asks {
    ghost use Rattle.std.specs.Prelude.{◌-◌, vec_len, vec_capacity};
    ghost use Rattle.beep_memory.specs.Asking.{AskList, asked_of};

    ghost Value = { AskList };

    ghost view = { λ a. record {
      asked = asked_of a.list.items;
      room = vec_capacity a.list - vec_len a.list;
    } };
}

impl Asks {
    ghost use Rattle.beep_memory.specs.Asking.{ask_of};

    /// Nothing has asked. It takes no memory.
    pub(crate) fn new(alloc: Global) -> Asks
        ensures { result.asked ≡ [] }
    {
        Asks {
            list: Vec::new(alloc),
        }
    }

    /// Makes room for one more.
    pub(crate) fn reserve(&mut self) -> Result<(), NoMemory>
        ensures ok { OnOk result (0 < self.new.room) }
        ensures kept { self.new.asked ≡ self.old.asked }
    {
        self.list.reserve(1)?;
        Ok(())
    }

    /// Adds what asked beside so many open links, as the latest.
    pub(crate) fn note(&mut self, ask: Ask, beside: usize, link: Option<u32>)
        requires { 0 < self.old.room }
        ensures { self.new.asked
            ≡ record { ask = ask_of ask; beside = beside; link = link } ∷ self.old.asked }
    {
        self.list.push_reserved(Asked { ask, beside, link });
    }
}
