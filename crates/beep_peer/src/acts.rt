//! What a program asks on channel zero: starts, closes and the release (RFC 3080, sections 2.3.1.2
//! and 2.3.1.3).
ghost use Rattle.std.specs.Prelude.{◌≡◌, ◌+◌, ◌<◌, ◌≤◌, ℕ, List, length, map, None, Some, false, IfOk, OnOk, OnErr};
ghost use Rattle.std.specs.Option.{option_to_list};
ghost use Rattle.beep_upright.specs.beep_history.specs.Journal.{Item};
ghost use Rattle.beep_upright.specs.beep_history.specs.declared.limits.TheConstants.{MAX_REQUESTS};
ghost use Rattle.beep_upright.specs.beep_mgmt.specs.Form.{form_of, plain_profile, start};
ghost use Rattle.beep_upright.specs.beep_turns.specs.declared.turns.TheConstants.{MAX_CHANNELS};
ghost use Rattle.beep_upright.specs.beep_lives.specs.Lives.{live_at};
ghost use Rattle.beep_upright.specs.beep_lawful.specs.declared.terms.Terms.{Terms};
ghost use Rattle.beep_upright.specs.beep_standing.specs.Standing.{Marks};
ghost use Rattle.beep_upright.specs.Upright.{IsUpright};
ghost use Rattle.beep_upright.specs.beep_management.specs.Managed.{number_started};
ghost use Rattle.beep_upright.specs.beep_management.specs.Manages.{AreFresh};
ghost use Rattle.beep_peer.specs.Peering.{Holds, AreHeld, is_over};
ghost use Rattle.beep_answering.specs.Sent.{IsMessage};
ghost use Rattle.beep_peer.specs.Asking.{MayAsk};
ghost use Rattle.beep_peer.specs.Acts.{asked_of, first_asked_of, lowest_used, count_used, start_refusal, release_refusal, close_refusal, GivesZero, KeepsRequest, IsUnchanged};

use crate::peer::Peer;
use crate::refusals::{CloseError, ReleaseError, StartError};
use crate::room::reserve_with;
use beep_upright::beep_asked::Request;
use beep_upright::beep_channel::Channel;
use beep_upright::beep_history::MAX_REQUESTS;
use beep_upright::beep_mgmt::{Mgmt, Profile, Profiles};
use beep_upright::beep_octets::{NoMemory, Octets};
use beep_upright::beep_turns::MAX_CHANNELS;
use std::alloc::Global;

impl Peer {
    /// The own requests of channel zero that have no wholly taken reply.
    fn asked_of_zero(&self) -> u32
        ensures { result ≡ asked_of (live_at 0 self.now.lives) }
    {
        match self.lives.channel(0) {
            Some(channel) => channel.asked(),
            None => 0,
        }
    }

    /// The number of the oldest own request of a channel that has no wholly taken reply.
    fn first_asked(&self, number: u32) -> Option<u32>
        ensures { result ≡ first_asked_of (live_at number self.now.lives) }
    {
        match self.lives.channel(number) {
            Some(channel) => channel.first_asked(),
            None => None,
        }
    }

    /// The lowest number above zero that is live or starting.
    fn lowest_used(&self) -> Option<u32>
        requires held { AreHeld self.now.lives self.now.management }
        ensures { result ≡ lowest_used self.now }
    {
        let live = self.lives.place(1);
        match self.management.lowest_starting() {
            Some(starting) => match live {
                Some(live) => Some(live.min(starting)),
                None => Some(starting),
            },
            None => live,
        }
    }

    // ---- refusals

    /// Why a start of this number is refused, but for the length of its message.
    pub fn start_refusal(&self, number: u32) -> Option<StartError>
        requires held { is_over self.now ≡ false → AreHeld self.now.lives self.now.management }
        ensures { result ≡ start_refusal self.now number }
    {
        if self.is_over() {
            Some(StartError::Ended)
        } else if !self.is_welcomed() {
            Some(StartError::NoGreeting)
        } else if self.is_leaving() || self.management.theirs().is_leaving() {
            Some(StartError::Closing)
        } else if self.lives.is_live(number) || self.management.is_starting(number) {
            Some(StartError::NumberTaken)
        } else if MAX_CHANNELS < self.lives.len() + self.management.count_starting() {
            Some(StartError::ChannelsFull)
        } else if MAX_REQUESTS <= self.asked_of_zero() {
            Some(StartError::TooManyAsked)
        } else {
            None
        }
    }

    /// Why a release is refused.
    pub fn release_refusal(&self) -> Option<ReleaseError>
        requires held { is_over self.now ≡ false → AreHeld self.now.lives self.now.management }
        ensures { result ≡ release_refusal self.now }
    {
        if self.is_over() {
            return Some(ReleaseError::Ended);
        }
        if !self.is_welcomed() {
            return Some(ReleaseError::NoGreeting);
        }
        if self.is_leaving() {
            return Some(ReleaseError::Closing);
        }
        if let Some(number) = self.lowest_used() {
            return Some(ReleaseError::Busy(number));
        }
        match self.first_asked(0) {
            Some(number) => Some(ReleaseError::Unanswered(number)),
            None => None,
        }
    }

    /// Why a close of a live number is refused.
    pub fn close_refusal(&self, number: u32) -> Option<CloseError>
        ensures { result ≡ close_refusal self.now number }
    {
        if let Some(asked) = self.first_asked(number) {
            return Some(CloseError::Busy(asked));
        }
        if MAX_REQUESTS <= self.asked_of_zero() {
            return Some(CloseError::TooManyAsked);
        }
        None
    }

    // ---- gives

    /// Gives a request on channel zero, with its channel where it is a start. `names` says whether
    /// it is a close of a live number. Out of memory, the peer is as it was but for room.
    pub fn give_request(
        &mut self,
        value: Mgmt,
        text: &Octets,
        names: bool,
        channel: Option<Channel>,
    ) -> Result<(), NoMemory>
        requires message { IsMessage text.now.octets (form_of value) }
        requires held { AreHeld self.old.lives self.old.management }
        requires asked { asked_of (live_at 0 self.old.lives) < MAX_REQUESTS }
        ensures ok { (size : ℕ) (journal : List Item) (given taken : Marks)
            → Holds size journal given taken self.old.lives self.old.management
            → AreFresh size (number_started (Some (form_of value))) (option_to_list channel)
            → count_used self.old + length (option_to_list channel) ≤ MAX_CHANNELS + 1
            → OnOk result (GivesZero size journal given taken text.now.octets self.new) }
        ensures upright { (terms : Terms) (journal : List Item) (given taken : Marks)
            → Holds terms.window journal given taken self.old.lives self.old.management
            → AreFresh terms.window (number_started (Some (form_of value)))
            (option_to_list channel)
            → count_used self.old + length (option_to_list channel) ≤ MAX_CHANNELS + 1
            → IsUpright terms journal self.old.lives self.old.management
            → MayAsk terms.role self.old names (Some (form_of value))
            → IsUpright terms journal self.new.lives self.new.management }
        ensures kept { OnOk result (KeepsRequest
            (record { said = Some (form_of value); implied = false; names = names })
            (option_to_list channel) self.old.management self.new.management) }
        ensures err { OnErr result (IsUnchanged self.old self.new) }
        ensures same { (self.new.ear ≡ self.old.ear)
            × (self.new.released ≡ self.old.released) }
    {
        reserve_with(&mut self.lives, &self.management, text.len())?;
        self.management.act(
            Request {
                said: Some(value),
                implied: false,
                names,
            },
            channel,
        )?;
        match self.lives.give_ask(0, text.as_slice()) {
            Ok(_) => Ok(()),
            Err(_) => unreachable!(),
        }
    }
}

/// A start of these profiles.
pub fn start_of(alloc: Global, number: u32, profiles: &Profiles) -> Result<Mgmt, NoMemory>
    ensures { IfOk result (λ value.
        form_of value ≡ start number None (map plain_profile profiles.now)) }
{
    let mut copies = Profiles::new(alloc);
    for profile in profiles.as_slice() {
        copies.push(copy_of(alloc, profile)?)?;
    }
    Ok(Mgmt::Start {
        number,
        server: None,
        profiles: copies,
    })
}

/// A copy of a profile.
fn copy_of(alloc: Global, profile: &Profile) -> Result<Profile, NoMemory>
    ensures { IfOk result (λ copy. plain_profile copy ≡ plain_profile profile.now) }
{
    let mut content = Octets::new(alloc);
    content.extend(profile.content.as_slice())?;
    Ok(Profile {
        uri: profile.uri.copy()?,
        encoding: profile.encoding,
        content,
        readable: profile.readable,
    })
}
