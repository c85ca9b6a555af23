//! What stands as a request of the peer comes (RFC 3080, section 2.3.1).
ghost use Rattle.std.specs.Prelude.{◌≡◌, ◌∷◌, ◌++◌, [], filter, map, OnOk};
ghost use Rattle.beep_upright.specs.beep_lives.specs.Lives.{numbers};
ghost use Rattle.beep_upright.specs.beep_asked.specs.Kept.{closes};
ghost use Rattle.beep_upright.specs.beep_decide.specs.Plain.{plain_offer, plain_standing};
ghost use Rattle.beep_peer.specs.Standing.{rest_of};
ghost use Rattle.beep_peer.specs.Standing.{standing_of};

use crate::peer::Peer;
use beep_upright::beep_asked::Waiting;
use beep_upright::beep_decide::Standing;
use beep_upright::beep_lives::Lives;
use beep_upright::beep_octets::NoMemory;

/// Notes what stands now. Its role and its offers stay.
pub fn stand(standing: &mut Standing, peer: &Peer) -> Result<(), NoMemory>
    ensures ok { OnOk result (plain_standing standing.new
        ≡ standing_of standing.old.role (map plain_offer standing.old.offers.items) peer.now) }
    ensures role { standing.new.role ≡ standing.old.role }
    ensures offers { standing.new.offers ≡ standing.old.offers }
{
    standing.live.clear();
    list_live(&peer.lives, &mut standing.live)?;
    standing.starting.clear();
    peer.management.list_starting(&mut standing.starting)?;
    standing.closing.clear();
    if peer.management.theirs().is_leaving() {
        push(&mut standing.closing, 0)?;
    }
    list_closing(
        &standing.live,
        peer.management.theirs(),
        &mut standing.closing,
    )?;
    standing.leaving = peer.is_leaving() || peer.management.theirs().is_leaving();
    Ok(())
}

/// Puts the numbers above zero that are live after those in the list.
fn list_live(lives: &Lives, live: &mut Vec<u32>) -> Result<(), NoMemory>
    ensures { OnOk result (live.new.items ≡ live.old.items ++ rest_of (numbers lives.now)) }
{
    for i in 0..lives.len() {
        if let Some(number) = lives.place(i) {
            if i != 0 {
                push(live, number)?;
            }
        }
    }
    Ok(())
}

/// Puts those of these numbers after those in the list, whose close waits.
fn list_closing(live: &[u32], theirs: &Waiting, closing: &mut Vec<u32>) -> Result<(), NoMemory>
    ensures { OnOk result (closing.new.items ≡ closing.old.items
        ++ filter (λ number. closes number theirs.now.requests) live.now) }
{
    for number in live {
        if theirs.closes(*number) {
            push(closing, *number)?;
        }
    }
    Ok(())
}

/// Puts a number after the others.
fn push(numbers: &mut Vec<u32>, number: u32) -> Result<(), NoMemory>
    ensures { OnOk result (numbers.new.items ≡ numbers.old.items ++ number ∷ []) }
{
    match numbers.push(number) {
        Ok(()) => Ok(()),
        Err(_) => Err(NoMemory),
    }
}
