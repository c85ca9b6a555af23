//! The accounts of all lives, by number and life.
ghost use Rattle.std.specs.Prelude.{◌≡◌, [], OnOk};
ghost use Rattle.beep_tally.specs.Accounts.{fresh as fresh_account, with_given, with_taken, with_ended, with_begun, with_each_begun, with_each_ended, lives_noted, is_in as is_among, goes_before as stands_before, next_life as life_after, give_at, take_at, end_at};

use crate::account::{Account, Count, Flow, Stage};
use beep_octets::NoMemory;
use beep_schedule::End;
use std::alloc::Global;
use std::marker::Model;

/// The accounts of all lives that began at an end. A contract sees their list.
#[derive(Drop)]
pub struct Accounts {
    list: Vec<Account>,
}

impl Model for Accounts {
    ghost use Rattle.std.specs.Prelude.{List};
    ghost use Rattle.beep_tally.specs.declared.account.Account.{Account as AccountValue};

    ghost Value = { List AccountValue };

    ghost view = { λ a. a.list.items };
}

const NONE: Flow = Flow {
    given: Count { octets: 0, ends: 0 },
    taken: Count { octets: 0, ends: 0 },
};

impl Accounts {
    pub fn new(alloc: Global) -> Accounts
        ensures { result ≡ [] }
    {
        Accounts {
            list: Vec::new(alloc),
        }
    }

    pub fn as_slice(&self) -> &[Account]
        ensures { result.now ≡ self.now }
    {
        &self.list
    }

    /// A message of so many octets is given by an end, in the live life of a number.
    pub fn give(&mut self, at: End, number: u32, octets: u64)
        ensures { self.new ≡ with_given at number octets self.old }
    {
        for account in self.list.iter_mut() {
            *account = give_in(*account, at, number, octets);
        }
    }

    /// So many octets are taken by an end, in the live life of a number.
    pub fn take(&mut self, at: End, number: u32, octets: u64, ended: bool)
        ensures { self.new ≡ with_taken at number octets ended self.old }
    {
        for account in self.list.iter_mut() {
            *account = take_in(*account, at, number, octets, ended);
        }
    }

    /// The live life of a number ends at an end.
    pub fn end(&mut self, at: End, number: u32)
        ensures { self.new ≡ with_ended at number self.old }
    {
        for account in self.list.iter_mut() {
            *account = end_in(*account, at, number);
        }
    }

    /// The next life of a number begins at an end.
    pub fn begin(&mut self, at: End, number: u32) -> Result<(), NoMemory>
        ensures { OnOk result (self.new ≡ with_begun at number self.old) }
    {
        let mut i = 0;
        let mut life = 1u64;
        while i < self.list.len() && goes_before(&self.list[i], at, number) {
            life = next_life(&self.list[i], number);
            i += 1;
        }
        if i < self.list.len() && self.list[i].number == number {
            self.list[i] = self.list[i].staged(at, Stage::Live);
            return Ok(());
        }
        let Ok(()) = self.list.insert(i, fresh(at, number, life)) else {
            return Err(NoMemory);
        };
        Ok(())
    }
}

fn give_in(account: Account, at: End, number: u32, octets: u64) -> Account
    ensures { result ≡ give_at at number octets account }
{
    if account.is_live(at, number) {
        account.given(at, octets)
    } else {
        account
    }
}

fn take_in(account: Account, at: End, number: u32, octets: u64, ended: bool) -> Account
    ensures { result ≡ take_at at number octets ended account }
{
    if account.is_live(at, number) {
        account.taken(at, octets, ended)
    } else {
        account
    }
}

fn end_in(account: Account, at: End, number: u32) -> Account
    ensures { result ≡ end_at at number account }
{
    if account.is_live(at, number) {
        account.staged(at, Stage::Over)
    } else {
        account
    }
}

/// The number of the life after this one of a number.
fn next_life(account: &Account, number: u32) -> u64
    ensures { result ≡ life_after number account.now }
{
    if account.number == number {
        account.life.wrapping_add(1)
    } else {
        1
    }
}

/// Whether an account stands before that of the next life of a number.
fn goes_before(account: &Account, at: End, number: u32) -> bool
    ensures { result ≡ stands_before at number account.now }
{
    account.number < number
        || (account.number == number && !matches!(account.stage(at), Stage::Before))
}

fn fresh(at: End, number: u32, life: u64) -> Account
    ensures { result ≡ fresh_account at number life }
{
    let account = Account {
        number,
        life,
        at_a: Stage::Before,
        at_b: Stage::Before,
        from_a: NONE,
        from_b: NONE,
    };
    account.staged(at, Stage::Live)
}

/// What lives before and after makes of the accounts.
pub fn note_lives(
    accounts: &mut Accounts,
    at: End,
    before: &[u32],
    after: &[u32],
) -> Result<(), NoMemory>
    ensures { OnOk result (accounts.new ≡ lives_noted at before.now after.now accounts.old) }
{
    end_each(accounts, at, after, before);
    begin_each(accounts, at, before, after)
}

fn end_each(accounts: &mut Accounts, at: End, after: &[u32], before: &[u32])
    ensures { accounts.new ≡ with_each_ended at after.now before.now accounts.old }
{
    if let [number, others @ ..] = before {
        if !is_in(*number, after) {
            accounts.end(at, *number);
        }
        end_each(accounts, at, after, others);
    }
}

fn begin_each(
    accounts: &mut Accounts,
    at: End,
    before: &[u32],
    after: &[u32],
) -> Result<(), NoMemory>
    ensures { OnOk result (accounts.new ≡ with_each_begun at before.now after.now accounts.old) }
{
    match after {
        [] => Ok(()),
        [number, others @ ..] => {
            if !is_in(*number, before) {
                accounts.begin(at, *number)?;
            }
            begin_each(accounts, at, before, others)
        }
    }
}

fn is_in(number: u32, numbers: &[u32]) -> bool
    ensures { result ≡ is_among number numbers.now }
{
    numbers.iter().any(|other| *other == number)
}
