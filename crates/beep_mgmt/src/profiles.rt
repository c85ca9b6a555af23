//! A list of profiles.
ghost use Rattle.std.specs.Prelude.{◌≡◌, ◌==◌, [], ◌∷◌, ◌++◌, length, OnOk, OnErr, slice_get};
ghost use Rattle.std.specs.Option.{option_copied};

use crate::profile::Profile;
use beep_octets::NoMemory;
use std::alloc::Global;
use std::marker::Model;

/// Profiles in the order in which they stand.
#[derive(Debug, Drop)]
pub struct Profiles {
    list: Vec<Profile>,
}

impl Model for Profiles {
    ghost use Rattle.std.specs.Prelude.{List};
    ghost use Rattle.beep_mgmt.specs.declared.profile.Profile.{Profile};

    ghost Value = { List Profile };

    ghost view = { λ p. p.list.items };
}

impl Profiles {
    /// A list without profiles. It takes no memory.
    pub fn new(alloc: Global) -> Profiles
        ensures { result ≡ [] }
    {
        Profiles {
            list: Vec::new(alloc),
        }
    }

    /// Appends a profile. One that finds no room is dropped.
    pub fn push(&mut self, item: Profile) -> Result<(), NoMemory>
        ensures appended { OnOk result (self.new ≡ self.old ++ item ∷ []) }
        ensures err { OnErr result (self.new ≡ self.old) }
    {
        match self.list.push(item) {
            Ok(()) => Ok(()),
            Err(_) => Err(NoMemory),
        }
    }

    /// How many profiles there are.
    pub fn len(&self) -> usize
        ensures { result ≡ length self.now }
    {
        self.list.len()
    }

    /// Whether there is none.
    pub fn is_empty(&self) -> bool
        ensures { result ≡ (length self.now == 0) }
    {
        self.list.is_empty()
    }

    /// The profile at place `i`, from 0.
    pub fn get(&self, i: usize) -> Option<&Profile>
        ensures { option_copied result ≡ slice_get self.now i }
    {
        self.list.get(i)
    }

    /// The profile at place `i`, moved out.
    pub fn take(self, i: usize) -> Option<Profile>
        ensures { result ≡ slice_get self i }
    {
        self.list.into_iter().nth(i)
    }

    /// The profiles, one after another.
    pub fn as_slice(&self) -> &[Profile]
        ensures { result.now ≡ self.now }
    {
        &self.list
    }
}
