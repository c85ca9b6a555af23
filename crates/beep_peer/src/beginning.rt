//! A peer of a session that begins (RFC 3080, section 2.3.1.1).
ghost use Rattle.std.specs.Prelude.{◌≡◌, ◌≤◌, List, [], IfOk};
ghost use Rattle.beep_upright.specs.beep_seq.specs.declared.limits.TheConstants.{MIN_WINDOW, MAX_WINDOW};
ghost use Rattle.beep_upright.specs.beep_decide.specs.Decide.{PlainOffer};
ghost use Rattle.beep_upright.specs.beep_lawful.specs.declared.terms.Terms.{Terms};
ghost use Rattle.beep_upright.specs.Upright.{IsUpright};
ghost use Rattle.beep_answering.specs.Sent.{IsMessage, greeting_of};
ghost use Rattle.beep_peer.specs.Peering.{IsReached};
ghost use Rattle.beep_peer.specs.Calls.{Begins};

use crate::letting::let_go;
use crate::peer::Peer;
use beep_hearing::Ear;
use beep_upright::beep_lives::Lives;
use beep_upright::beep_management::Management;
use beep_upright::beep_octets::{NoMemory, Octets};
use std::alloc::Global;

impl Peer {
    /// A peer whose greeting is the first message to go out. `window` is the own window of channel
    /// zero in octets.
    pub fn begin(alloc: Global, window: u32, greeting: Octets) -> Result<Peer, NoMemory>
        requires least { MIN_WINDOW ≤ window }
        requires greatest { window ≤ MAX_WINDOW }
        requires greeting { ∥ ((offers : List PlainOffer)
            × IsMessage greeting.octets (greeting_of offers)) ∥₁ }
        ensures begins { (offers : List PlainOffer) → IsMessage greeting.octets (greeting_of offers)
            → IfOk result (λ peer. Begins window greeting.octets peer) }
        ensures upright { (terms : Terms) (offers : List PlainOffer)
            → IsMessage greeting.octets (greeting_of offers)
            → IfOk result (λ peer. IsUpright terms [] peer.lives peer.management) }
        ensures reached { IfOk result (λ peer. IsReached window peer) }
        ensures empty { IfOk result (λ peer. peer.management.answers ≡ []) }
    {
        let mut lives = Lives::new(alloc, window)?;
        lives.reserve(0, greeting.len(), 1)?;
        let mut management = Management::new(alloc, greeting)?;
        let ear = Ear::new(alloc)?;
        let_go(&mut lives, &mut management);
        Ok(Peer {
            ear,
            lives,
            management,
            released: false,
        })
    }
}
