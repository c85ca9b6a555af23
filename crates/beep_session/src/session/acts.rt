//! What a program asks on channel zero: starts, closes and the release (RFC 3080, sections 2.3.1.2
//! and 2.3.1.3).
ghost use Rattle.std.specs.Prelude.{◌≡◌, ◌≢◌, ◌+◌, ◌<◌, ◌≤◌, ◌==◌, not, [], ℕ, List, length, map, None, Some, true, false, IfErr, OnOk, OnErr};
ghost use Rattle.std.specs.Option.{option_to_list};
ghost use Rattle.beep_giving.specs.beep_history.specs.Journal.{Item};
ghost use Rattle.beep_giving.specs.beep_history.specs.declared.limits.TheConstants.{MAX_REQUESTS};
ghost use Rattle.beep_giving.specs.beep_mgmt.specs.Form.{form_of, plain_profile, start as start_form};
ghost use Rattle.beep_giving.specs.beep_mgmt.specs.Message.{message_text};
ghost use Rattle.beep_giving.specs.beep_mgmt.specs.Written.{is_writable, comes_back};
ghost use Rattle.beep_giving.specs.beep_decide.specs.Numbers.{may_start};
ghost use Rattle.beep_giving.specs.beep_turns.specs.declared.turns.TheConstants.{MAX_CHANNELS};
ghost use Rattle.beep_giving.specs.beep_lives.specs.Lives.{live_at};
ghost use Rattle.beep_giving.specs.beep_standing.specs.Standing.{Marks};
ghost use Rattle.beep_giving.specs.beep_management.specs.Managed.{number_started};
ghost use Rattle.beep_giving.specs.beep_management.specs.Manages.{AreFresh};
ghost use Rattle.beep_giving.specs.beep_answering.specs.Sent.{IsMessage, closing_of};
ghost use Rattle.beep_giving.specs.beep_peer.specs.declared.refusals.StartError.{StartError as StartErrorValue};
ghost use Rattle.beep_giving.specs.beep_peer.specs.declared.refusals.ReleaseError.{ReleaseError as ReleaseErrorValue};
ghost use Rattle.beep_giving.specs.beep_peer.specs.declared.refusals.CloseError.{CloseError as CloseErrorValue};
ghost use Rattle.beep_giving.specs.beep_upright.specs.Upright.{IsUpright};
ghost use Rattle.beep_giving.specs.beep_peer.specs.Asking.{MayAsk, MayCloseWhere};
ghost use Rattle.beep_giving.specs.beep_peer.specs.Acts.{asked_of, count_used, release_refusal, close_refusal, KeepsRequest, IsUnchanged};
ghost use Rattle.beep_session.specs.Acts.{AsksZero, start_text, refusal_of_start};

use super::Session;
use crate::limits::GREATEST_SIZE;
use beep_giving::beep_answering::{close_of, close_text, message_of};
use beep_giving::beep_channel::Channel;
use beep_giving::beep_mgmt::{Mgmt, Profiles};
use beep_giving::beep_octets::{NoMemory, Octets};
use beep_giving::beep_peer::{CloseError, ReleaseError, StartError, start_of};
use beep_giving::beep_text::MAX_TEXT;

impl Session {
    ghost use Rattle.beep_giving.specs.beep_peer.specs.Peering.{IsPeer, is_over, zero_waits};
    ghost use Rattle.beep_session.specs.Lawfully.{KeepsUpright, terms_of};
    ghost use Rattle.beep_session.specs.Channels.{IsOpen, is_closing, IsStill, Closes};

    /// Asks the peer to start a channel of this number with one of these profiles.
    pub fn start(&mut self, number: u32, profiles: &Profiles) -> Result<(), StartError>
        requires settled { zero_waits self.old.peer ≡ false }
        requires may { may_start self.old.role number ≡ true }
        requires writable { is_writable
            (start_form number None (map plain_profile profiles.now)) ≡ true }
        requires back { comes_back
            (start_form number None (map plain_profile profiles.now)) ≡ true }
        ensures ok { (fed rest : List ℕ) (journal : List Item) (given taken : Marks)
            → IsPeer self.old.limits.window fed rest journal given taken self.old.peer
            → OnOk result (AsksZero self.old.limits.window fed rest journal given taken
            (start_text number (map plain_profile profiles.now)) self.new.peer) }
        ensures upright { KeepsUpright self.old self.new }
        ensures kept { OnOk result
            (self.new.peer.management.answers ≡ self.old.peer.management.answers) }

        ensures accepted { OnOk result (refusal_of_start self.old.peer number
            (map plain_profile profiles.now) ≡ None) }
        ensures refused { IfErr result (λ error. error ≢ StartErrorValue.NoMemory
            → refusal_of_start self.old.peer number (map plain_profile profiles.now)
            ≡ Some error) }
        ensures err { OnErr result (IsUnchanged self.old.peer self.new.peer) }
        ensures same { self.new ≡ record self.old { peer = self.new.peer } }
    {
        if let Some(refusal) = self.peer.start_refusal(number) {
            return Err(refusal);
        }
        let Ok(value) = start_of(self.alloc, number, profiles) else {
            return Err(StartError::NoMemory);
        };
        let Ok(text) = message_of(self.alloc, &value) else {
            return Err(StartError::NoMemory);
        };
        if MAX_TEXT < text.len() {
            let size = text.len().min(GREATEST_SIZE as usize) as u32;
            return Err(StartError::TooLong { size });
        }
        let Ok(channel) = Channel::new(self.alloc, number, self.limits.window) else {
            return Err(StartError::NoMemory);
        };
        match self.give(value, &text, false, Some(channel)) {
            Ok(()) => Ok(()),
            Err(NoMemory) => Err(StartError::NoMemory),
        }
    }

    /// Asks the peer to release the session.
    pub fn release(&mut self) -> Result<(), ReleaseError>
        requires settled { zero_waits self.old.peer ≡ false }
        ensures ok { (fed rest : List ℕ) (journal : List Item) (given taken : Marks)
            → IsPeer self.old.limits.window fed rest journal given taken self.old.peer
            → OnOk result (AsksZero self.old.limits.window fed rest journal given taken
            (message_text (closing_of 0)) self.new.peer) }
        ensures upright { KeepsUpright self.old self.new }
        ensures kept { OnOk result
            (self.new.peer.management.answers ≡ self.old.peer.management.answers) }

        ensures accepted { OnOk result (release_refusal self.old.peer ≡ None) }
        ensures refused { IfErr result (λ error. error ≢ ReleaseErrorValue.NoMemory
            → release_refusal self.old.peer ≡ Some error) }
        ensures err { OnErr result (IsUnchanged self.old.peer self.new.peer) }
        ensures same { self.new ≡ record self.old { peer = self.new.peer } }
    {
        if let Some(refusal) = self.peer.release_refusal() {
            return Err(refusal);
        }
        match self.give_close(0) {
            Ok(()) => Ok(()),
            Err(NoMemory) => Err(ReleaseError::NoMemory),
        }
    }

    /// Asks the peer to close a live channel.
    pub(crate) fn close(&mut self, n: u32) -> Result<(), CloseError>
        requires open { IsOpen n self.old }
        ensures ok { OnOk result (Closes n self.old self.new) }
        ensures upright { KeepsUpright self.old self.new }
        ensures closing { OnOk result (is_closing n self.new ≡ true) }

        ensures accepted { OnOk result (close_refusal self.old.peer n ≡ None) }
        ensures refused { IfErr result (λ error. error ≢ CloseErrorValue.NoMemory
            → close_refusal self.old.peer n ≡ Some error) }
        ensures err { OnErr result (IsStill self.old self.new) }
        ensures open { IsOpen n self.new }
    {
        if let Some(refusal) = self.peer.close_refusal(n) {
            return Err(refusal);
        }
        match self.give_close(n) {
            Ok(()) => Ok(()),
            Err(NoMemory) => Err(CloseError::NoMemory),
        }
    }

    /// Gives a close of a number.
    fn give_close(&mut self, n: u32) -> Result<(), NoMemory>
        requires going { is_over self.old.peer ≡ false }
        requires settled { zero_waits self.old.peer ≡ false }
        requires asked { asked_of (live_at 0 self.old.peer.lives) < MAX_REQUESTS }
        ensures ok { (fed rest : List ℕ) (journal : List Item) (given taken : Marks)
            → IsPeer self.old.limits.window fed rest journal given taken self.old.peer
            → OnOk result (AsksZero self.old.limits.window fed rest journal given taken
            (message_text (closing_of n)) self.new.peer) }
        ensures upright { (fed rest : List ℕ) (journal : List Item) (given taken : Marks)
            → IsPeer self.old.limits.window fed rest journal given taken self.old.peer
            → IsUpright (terms_of self.old) journal self.old.peer.lives self.old.peer.management
            → MayCloseWhere (n == 0) self.old.peer n (not (n == 0))
            → IsUpright (terms_of self.old) journal self.new.peer.lives
            self.new.peer.management }
        ensures kept { OnOk result (KeepsRequest
            (record { said = Some (closing_of n); implied = false; names = not (n == 0) })
            [] self.old.peer.management self.new.peer.management) }
        ensures err { OnErr result (IsUnchanged self.old.peer self.new.peer) }
        ensures open { IsOpen n self.old → IsOpen n self.new }
        ensures same { self.new ≡ record self.old { peer = self.new.peer } }
    {
        let value = close_of(self.alloc, n);
        let text = close_text(self.alloc, n)?;
        self.give(value, &text, n != 0, None)
    }

    /// Gives a request on channel zero, with its channel where it is a start. `names` says whether
    /// it is a close of a live number.
    fn give(
        &mut self,
        value: Mgmt,
        text: &Octets,
        names: bool,
        channel: Option<Channel>,
    ) -> Result<(), NoMemory>
        requires going { is_over self.old.peer ≡ false }
        requires settled { zero_waits self.old.peer ≡ false }
        requires message { IsMessage text.now.octets (form_of value) }
        requires asked { asked_of (live_at 0 self.old.peer.lives) < MAX_REQUESTS }
        requires few { count_used self.old.peer + length (option_to_list channel)
            ≤ MAX_CHANNELS + 1 }
        requires fresh { AreFresh self.old.limits.window (number_started (Some (form_of value)))
            (option_to_list channel) }
        ensures ok { (fed rest : List ℕ) (journal : List Item) (given taken : Marks)
            → IsPeer self.old.limits.window fed rest journal given taken self.old.peer
            → OnOk result (AsksZero self.old.limits.window fed rest journal given taken
            text.now.octets self.new.peer) }
        ensures upright { (fed rest : List ℕ) (journal : List Item) (given taken : Marks)
            → IsPeer self.old.limits.window fed rest journal given taken self.old.peer
            → IsUpright (terms_of self.old) journal self.old.peer.lives self.old.peer.management
            → MayAsk self.old.role self.old.peer names (Some (form_of value))
            → IsUpright (terms_of self.old) journal self.new.peer.lives
            self.new.peer.management }
        ensures kept { OnOk result (KeepsRequest
            (record { said = Some (form_of value); implied = false; names = names })
            (option_to_list channel) self.old.peer.management self.new.peer.management) }
        ensures err { OnErr result (IsUnchanged self.old.peer self.new.peer) }
        ensures open { (n : ℕ) → IsOpen n self.old → IsOpen n self.new }
        ensures same { self.new ≡ record self.old { peer = self.new.peer } }
    {
        self.peer.give_request(value, text, names, channel)
    }
}
