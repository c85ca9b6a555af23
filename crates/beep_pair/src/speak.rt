//! What an end sends onto its wire.
ghost use Rattle.std.specs.Prelude.{◌≡◌, ◌<◌, ◌≤◌, ◌++◌, false, IfOk, OnOk};
ghost use Rattle.beep_two_sessions.specs.beep_settings.specs.declared.limits.TheConstants.{MAX_PIECE};
ghost use Rattle.beep_two_sessions.specs.beep_peer.specs.Peering.{zero_waits};
ghost use Rattle.beep_pair.specs.Sessions.{IsReady, Sends, SendsOnto};

use crate::lives::live_numbers;
use crate::wire::Wire;
use beep_report::beep_tally::{Accounts, note_lives};
use beep_schedule::End;
use beep_two_sessions::beep_frame::SPELL_ROOM;
use beep_two_sessions::beep_octets::{NoMemory, Octets};
use beep_two_sessions::beep_session::{MAX_PIECE, Session};
use beep_two_sessions::beep_speaking::Emit;
use std::alloc::Global;

/// What goes out next, of at most `max` octets of payload.
fn say(session: &mut Session, max: u32, said: &mut Octets) -> Result<Emit, NoMemory>
    requires settled { zero_waits session.old.peer ≡ false }
    requires least { 0 < max }
    requires most { max ≤ MAX_PIECE }
    ensures { IfOk result (λ emit. Sends max session.old session.new emit said.new.octets) }
{
    said.clear();
    said.reserve(MAX_PIECE as usize + SPELL_ROOM)?;
    Ok(session.emit(max, said))
}

/// An end sends one frame onto the wire to the other.
pub(crate) fn send(
    alloc: Global,
    at: End,
    session: &mut Session,
    max: u32,
    said: &mut Octets,
    wire: &mut Wire,
    accounts: &mut Accounts,
) -> Result<Emit, NoMemory>
    requires ready { IsReady session.old }
    requires least { 0 < max }
    requires most { max ≤ MAX_PIECE }
    ensures sent { IfOk result (λ emit. SendsOnto at max emit session.old session.new wire.old
        wire.new accounts.old accounts.new) }
    ensures ready { OnOk result (IsReady session.new) }
    ensures role { OnOk result (session.new.role ≡ session.old.role) }
{
    let before = live_numbers(alloc, session)?;
    let emit = say(session, max, said)?;
    wire.put(said.as_slice())?;
    let after = live_numbers(alloc, session)?;
    note_lives(accounts, at, before.as_slice(), after.as_slice())?;
    Ok(emit)
}
