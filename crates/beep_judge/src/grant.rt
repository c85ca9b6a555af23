//! What a positive reply grants of channels (RFC 3080, sections 2.3.1.2 and 2.3.1.3).
ghost use Rattle.std.specs.Prelude.{◌≡◌, ◌∷◌, ◌++◌, ◌==◌, ◌&&◌, nat_lt, not, ℕ, [], List, is_some, option_map, OnOk, OnErr};
ghost use Rattle.beep_mgmt.specs.Form.{form_of};
ghost use Rattle.beep_journal.specs.Zero.{has_form};
ghost use Rattle.beep_judge.specs.declared.half.Request.{Request as RequestValue};
ghost use Rattle.beep_judge.specs.Kept.{life_at};
ghost use Rattle.beep_judge.specs.Edits.{SameChannels};
ghost use Rattle.beep_judge.specs.Grants.{stamp_of, StartsWhere, Closes, Granted, GrantedWhere};

use crate::channels::Channels;
use crate::half::Half;
use beep_frame::Kind;
use beep_journal::has_form;
use beep_mgmt::Mgmt;
use beep_octets::NoMemory;

/// The stamp that a request keeps that says this.
pub(crate) fn close_stamp(channels: &Channels, said: &Option<Mgmt>) -> u64
    ensures { result ≡ stamp_of (option_map form_of said.now) channels.now }
{
    match said {
        Some(Mgmt::Close { number, .. }) => channels.stamp_of(*number),
        Some(
            Mgmt::Greeting { .. }
            | Mgmt::Start { .. }
            | Mgmt::Chosen { .. }
            | Mgmt::Okay
            | Mgmt::Fault { .. },
        )
        | None => 0,
    }
}

/// Whether a whole reply has the form that the oldest request that waits asks for.
pub(crate) fn has_its_form(theirs: &Half, kind: Kind, said: &Option<Mgmt>) -> bool
    ensures { (later : List RequestValue) (request : RequestValue) (position : ℕ)
        → theirs.now.asked.items ≡ later ++ request ∷ [] → request.implied ≡ (position == 0)
        → result ≡ has_form kind position (option_map form_of request.said)
        (option_map form_of said.now) }
{
    match theirs.asked.back() {
        Some(request) => has_form(kind, request.implied, request.said.as_ref(), said.as_ref()),
        None => false,
    }
}

/// Grants the oldest request that waits, where its reply does.
pub(crate) fn grant_where(
    channels: &mut Channels,
    theirs: &Half,
    grants: bool,
) -> Result<(), NoMemory>
    ensures ok { (later : List RequestValue) (request : RequestValue)
        → theirs.now.asked.items ≡ later ++ request ∷ []
        → OnOk result (GrantedWhere grants (option_map form_of request.said) request.stamp
        channels.old channels.new) }
    ensures err { OnErr result (SameChannels channels.old channels.new) }
    ensures zero { channels.new.zero ≡ channels.old.zero }
{
    if grants {
        return grant_oldest(channels, theirs);
    }
    Ok(())
}

/// Grants the oldest request that waits.
fn grant_oldest(channels: &mut Channels, theirs: &Half) -> Result<(), NoMemory>
    ensures ok { (later : List RequestValue) (request : RequestValue)
        → theirs.now.asked.items ≡ later ++ request ∷ []
        → OnOk result (Granted (option_map form_of request.said) request.stamp
        channels.old channels.new) }
    ensures err { OnErr result (SameChannels channels.old channels.new) }
    ensures zero { channels.new.zero ≡ channels.old.zero }
{
    match theirs.asked.back() {
        Some(request) => grant(channels, &request.said, request.stamp),
        None => Ok(()),
    }
}

/// Grants a request that says this.
fn grant(channels: &mut Channels, said: &Option<Mgmt>, stamp: u64) -> Result<(), NoMemory>
    ensures ok { OnOk result
        (Granted (option_map form_of said.now) stamp channels.old channels.new) }
    ensures err { OnErr result (SameChannels channels.old channels.new) }
    ensures zero { channels.new.zero ≡ channels.old.zero }
{
    match said {
        Some(Mgmt::Start { number, .. }) => grant_start(channels, *number),
        Some(Mgmt::Close { number, .. }) => {
            grant_close(channels, *number, stamp);
            Ok(())
        }
        Some(Mgmt::Greeting { .. } | Mgmt::Chosen { .. } | Mgmt::Okay | Mgmt::Fault { .. })
        | None => { Ok(()) }
    }
}

/// Begins a life, unless the number is 0 or live.
fn grant_start(channels: &mut Channels, number: u32) -> Result<(), NoMemory>
    ensures ok { OnOk result (StartsWhere (nat_lt 0 number
        && not (is_some (life_at number channels.old))) number channels.old channels.new) }
    ensures err { OnErr result (SameChannels channels.old channels.new) }
    ensures zero { channels.new.zero ≡ channels.old.zero }
{
    if number > 0 && channels.life_at(number).is_none() {
        return channels.start(number);
    }
    Ok(())
}

/// Releases the session, or ends the life of this stamp.
fn grant_close(channels: &mut Channels, number: u32, stamp: u64)
    ensures closes { Closes (number == 0) number stamp channels.old channels.new }
    ensures zero { channels.new.zero ≡ channels.old.zero }
{
    if number == 0 {
        channels.released = true;
        return;
    }
    if channels.is_current(number, stamp) {
        channels.end(number);
    }
}
