//! What a link in memory gives.
ghost use Rattle.std.specs.Prelude.{◌≡◌, ◌+◌, ◌<◌, Some, [], ◌∷◌, ◌++◌, length, map, OnOk, OnErr, IfSome, slice_get, option_map};
ghost use Rattle.std.specs.Option.{option_copied};
ghost use Rattle.std.specs.List.{list_all};
ghost use Rattle.beep_memory.specs.Gifts.{gift_of, gift_need, gifts_need, is_some};

use beep_octets::{NoMemory, Octets};
use std::alloc::Global;
use std::marker::Model;

/// What reads of a link in memory give.
#[derive(Debug, Drop)]
pub enum Give {
    /// These octets, by one read, or by several where they don't fit.
    Bytes(Octets),
    /// Nothing, in one read.
    Quiet,
}

/// What a link in memory gives, in order. After the last it ends.
#[derive(Debug, Drop)]
pub struct Gives {
    list: Vec<Give>,
}

impl Model for Gives {
    ghost use Rattle.std.specs.Prelude.{List, map};
    ghost use Rattle.beep_memory.specs.Gifts.{Gift, gift_of};

    ghost Value = { List Gift };

    ghost view = { λ g. map gift_of g.list.items };
}

impl Gives {
    /// Nothing: the first read gives the end. It takes no memory.
    pub fn new(alloc: Global) -> Gives
        ensures { result ≡ [] }
    {
        Gives {
            list: Vec::new(alloc),
        }
    }

    /// Appends what comes next. What finds no room is dropped.
    pub fn push(&mut self, item: Give) -> Result<(), NoMemory>
        ensures appended { OnOk result (self.new ≡ self.old ++ gift_of item ∷ []) }
        ensures err { OnErr result (self.new ≡ self.old) }
    {
        match self.list.push(item) {
            Ok(()) => Ok(()),
            Err(_) => Err(NoMemory),
        }
    }

    /// How many pieces and quiet reads it has, the end not counted.
    pub fn len(&self) -> usize
        ensures { result ≡ length self.now }
    {
        self.list.as_slice().len()
    }

    /// The one at place `i`, from 0.
    pub fn get(&self, i: usize) -> Option<&Give>
        ensures { option_map gift_of (option_copied result) ≡ slice_get self.now i }
    {
        give_in(&self.list, i)
    }

    /// Whether each piece has some octets.
    pub fn are_some(&self) -> bool
        ensures { result ≡ list_all is_some self.now }
    {
        all_some(&self.list)
    }

    /// The one at place `i`, which is there.
    pub(crate) fn at(&self, i: usize) -> &Give
        requires { i < length self.now }
        ensures { slice_get self.now i ≡ Some (gift_of result.now) }
    {
        give_at(&self.list, i)
    }

    /// How many reads can give it at most, and how many octets they give, where that fits 64 bits.
    pub(crate) fn need(&self) -> Option<usize>
        ensures { IfSome result (λ n. n ≡ gifts_need self.now) }
    {
        need_of(&self.list)
    }
}

fn need_of(list: &[Give]) -> Option<usize>
    ensures { IfSome result (λ n. n ≡ gifts_need (map gift_of list.now)) }
{
    let mut total = 0;
    for give in list {
        match sum_within(total, give_need(give)) {
            Some(sum) => total = sum,
            None => return None,
        }
    }
    Some(total)
}

fn all_some(list: &[Give]) -> bool
    ensures { result ≡ list_all is_some (map gift_of list.now) }
{
    for give in list {
        if !has_some(give) {
            return false;
        }
    }
    true
}

fn has_some(give: &Give) -> bool
    ensures { result ≡ is_some (gift_of give.now) }
{
    match give {
        Give::Bytes(octets) => !octets.is_empty(),
        Give::Quiet => true,
    }
}

fn give_need(give: &Give) -> usize
    ensures { result ≡ gift_need (gift_of give.now) }
{
    match give {
        Give::Bytes(octets) => octets.len(),
        Give::Quiet => 1,
    }
}

/// The sum, where it fits.
pub(crate) fn sum_within(a: usize, b: usize) -> Option<usize>
    ensures { IfSome result (λ n. n ≡ a + b) }
{
    if b > usize::MAX - a {
        return None;
    }
    Some(a + b)
}

fn give_at(list: &[Give], i: usize) -> &Give
    requires { i < length list.now }
    ensures { slice_get list.now i ≡ Some result.now }
{
    &list[i]
}

fn give_in(list: &[Give], i: usize) -> Option<&Give>
    ensures { option_copied result ≡ slice_get list.now i }
{
    list.get(i)
}
