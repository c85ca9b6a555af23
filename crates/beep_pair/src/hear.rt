//! What an end does with the octets that come to it.
ghost use Rattle.std.specs.Prelude.{◌≡◌, ◌<◌, ◌≤◌, true, length, IfOk, OnOk};
ghost use Rattle.beep_two_sessions.specs.beep_peer.specs.Peering.{is_over, zero_waits};
ghost use Rattle.beep_pair.specs.Sessions.{IsReady, Settling, SettlesAt, HearsOnce, Gets, goes_on as may_go, is_short as was_short};

use crate::lives::live_numbers;
use beep_report::beep_tally::{Accounts, note_lives};
use beep_schedule::End;
use beep_two_sessions::beep_octets::NoMemory;
use beep_two_sessions::beep_session::{Event, Session, SettleError};
use std::alloc::Global;

/// What a feed used, and whether the next octets may be fed.
#[derive(Clone, Copy)]
pub(crate) struct Fed {
    pub(crate) used: usize,
    pub(crate) goes: bool,
}

/// Settles the message of channel zero that waits.
fn settle_message(session: &mut Session) -> Result<(), NoMemory>
    requires waits { zero_waits session.old.peer ≡ true }
    ensures { OnOk result (Settling session.old session.new) }
{
    match session.settle() {
        Ok(_settled) => Ok(()),
        Err(SettleError::Broken(_rule, _place)) => Ok(()),
        Err(SettleError::NoMemory) => Err(NoMemory),
    }
}

/// Settles it, and notes the lives that begin and end.
fn settle(
    alloc: Global,
    at: End,
    session: &mut Session,
    accounts: &mut Accounts,
) -> Result<(), NoMemory>
    requires waits { zero_waits session.old.peer ≡ true }
    ensures { OnOk result (SettlesAt at session.old session.new accounts.old accounts.new) }
{
    let before = live_numbers(alloc, session)?;
    settle_message(session)?;
    let after = live_numbers(alloc, session)?;
    note_lives(accounts, at, before.as_slice(), after.as_slice())?;
    Ok(())
}

/// Whether the next octets may be fed after an event: a feed that used none is the last.
fn goes_on(event: &Event, used: usize) -> bool
    ensures goes { result ≡ may_go event.now used }
    ensures some { result ≡ true → 0 < used }
{
    match event {
        Event::Zero | Event::Arrived(_) => used > 0,
        Event::More | Event::Released | Event::Broken(_, _) | Event::NoMemory => false,
    }
}

/// Whether memory ran out.
fn is_short(event: &Event) -> bool
    ensures { result ≡ was_short event.now }
{
    matches!(event, Event::NoMemory)
}

/// Feeds octets up to the next event, and settles the message that came.
fn hear_once(
    alloc: Global,
    at: End,
    session: &mut Session,
    octets: &[u8],
    accounts: &mut Accounts,
) -> Result<Fed, NoMemory>
    requires ready { IsReady session.old }
    ensures heard { IfOk result (λ fed. HearsOnce at octets.now fed.used fed.goes session.old
        session.new accounts.old accounts.new) }
    ensures within { IfOk result (λ fed. fed.used ≤ length octets.now) }
    ensures some { IfOk result (λ fed. fed.goes ≡ true → 0 < fed.used) }
    ensures progress { IfOk result (λ fed. fed.used ≡ 0 → 0 < length octets.now
        → is_over session.new.peer ≡ true) }
{
    let (used, event) = session.feed(octets);
    let goes = goes_on(&event, used);
    if is_short(&event) {
        return Err(NoMemory);
    }
    if session.zero_waits() {
        settle(alloc, at, session, accounts)?;
        return Ok(Fed { used, goes });
    }
    Ok(Fed { used, goes })
}

/// Feeds octets and settles what comes, and answers how many were used.
pub(crate) fn hear(
    alloc: Global,
    at: End,
    session: &mut Session,
    octets: &[u8],
    accounts: &mut Accounts,
) -> Result<usize, NoMemory>
    requires ready { IsReady session.old }
    ensures heard { IfOk result (λ used. Gets at octets.now used session.old session.new
        accounts.old accounts.new) }
    ensures ready { OnOk result (IsReady session.new) }
    ensures role { OnOk result (session.new.role ≡ session.old.role) }
    ensures within { IfOk result (λ used. used ≤ length octets.now) }
{
    let mut used = 0;
    let mut goes = true;
    while goes && used < octets.len() {
        let fed = hear_once(alloc, at, session, &octets[used..], accounts)?;
        used += fed.used;
        goes = fed.goes;
    }
    Ok(used)
}
