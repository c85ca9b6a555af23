//! The profiles that an end offers.
ghost use Rattle.std.specs.Prelude.{◌≡◌, ◌==◌, ◌<◌, ◌≤◌, ◌++◌, ◌∷◌, [], length, map, slice_get, option_copied, OnOk, OnErr};
ghost use Rattle.beep_answering.specs.declared.offers.TheConstants.{MAX_OFFERS};

use beep_management::beep_decide::Offer;
use beep_management::beep_octets::NoMemory;
use std::alloc::Global;
use std::marker::Model;

/// The most profiles that an end offers.
pub const MAX_OFFERS: usize = 8;

/// At most `MAX_OFFERS` profiles, in the order in which they are offered.
#[derive(Drop)]
pub struct Offers {
    list: Vec<Offer>,
}

impl Model for Offers {
    ghost use Rattle.std.specs.Prelude.{List, ◌≤◌, length};
    ghost use Rattle.beep_management.specs.beep_decide.specs.declared.decision.Offer.{Offer as OfferValue};
    ghost use Rattle.beep_answering.specs.declared.offers.TheConstants.{MAX_OFFERS};

    ghost Value = { List OfferValue };

    ghost view = { λ o. o.list.items };

    ghost invariant = { λ o. length o.list.items ≤ MAX_OFFERS };
}

impl Offers {
    /// No offer. It takes no memory.
    pub fn new(alloc: Global) -> Offers
        ensures { result ≡ [] }
    {
        Offers {
            list: Vec::new(alloc),
        }
    }

    /// Puts an offer after the others.
    pub fn push(&mut self, item: Offer) -> Result<(), NoMemory>
        requires few { length self.old < MAX_OFFERS }
        ensures ok { OnOk result (self.new ≡ self.old ++ item ∷ []) }
        ensures err { OnErr result (self.new ≡ self.old) }
    {
        let Ok(()) = self.list.push(item) else {
            return Err(NoMemory);
        };
        Ok(())
    }

    /// How many profiles are offered, at most `MAX_OFFERS`.
    pub fn len(&self) -> usize
        ensures { result ≡ length self.now }
    {
        self.list.len()
    }

    /// Whether there is none.
    pub fn is_empty(&self) -> bool
        ensures { result ≡ (length self.now == 0) }
    {
        self.list.is_empty()
    }

    /// The offer at a place, from 0.
    pub fn get(&self, i: usize) -> Option<&Offer>
        ensures { option_copied result ≡ slice_get self.now i }
    {
        self.list.get(i)
    }

    /// The offers as a list.
    pub fn into_vec(self) -> Vec<Offer>
        ensures items { result.items ≡ self }
        ensures few { length result.items ≤ MAX_OFFERS }
    {
        self.list
    }
}
