//! The parts of a peer that stand for its journal.
ghost use Rattle.std.specs.Prelude.{◌≡◌, ◌||◌};

use beep_hearing::Ear;
use beep_upright::beep_lives::Lives;
use beep_upright::beep_management::Management;

/// What was heard, the live channels, what is kept of channel zero, and whether the session is
/// released.
#[derive(Drop)]
pub struct Peer {
    pub ear: Ear,
    pub lives: Lives,
    pub management: Management,
    pub released: bool,
}

impl Peer {
    ghost use Rattle.beep_upright.specs.beep_asked.specs.Kept.{is_leaving};
    ghost use Rattle.beep_peer.specs.Peering.{is_over, is_greeted, is_welcomed};

    /// Whether the session is over: a rule was broken, or it is released.
    pub fn is_over(&self) -> bool
        ensures { result ≡ is_over self.now }
    {
        self.released || self.ear.broken().is_some()
    }

    /// Whether the peer's greeting was answered: no implied own request waits.
    pub fn is_welcomed(&self) -> bool
        ensures { result ≡ is_welcomed self.now.management }
    {
        match self.management.mine().oldest() {
            Some(request) => !request.implied,
            None => true,
        }
    }

    /// Whether the own greeting has wholly gone: no implied request of the peer waits.
    pub fn is_greeted(&self) -> bool
        ensures { result ≡ is_greeted self.now.management }
    {
        match self.management.theirs().oldest() {
            Some(request) => !request.implied,
            None => true,
        }
    }

    /// Whether an own close of 0 waits.
    pub fn is_leaving(&self) -> bool
        ensures { result ≡ (is_leaving self.now.management.mine.requests
            || is_leaving self.now.management.acts.requests) }
    {
        self.management.mine().is_leaving() || self.management.acts().is_leaving()
    }
}
