//! What a program does with a channel that it holds.
ghost use Rattle.std.specs.Prelude.{◌≡◌, ◌≢◌, ◌<◌, [], ℕ, List, length, None, Some, is_some, true, false, IfSome, IfNone, IfOk, IfErr, OnOk, OnErr};
ghost use Rattle.beep_giving.specs.beep_frame.specs.declared.kind.Kind.{Kind as KindValue};
ghost use Rattle.beep_giving.specs.beep_frame.specs.Frame.{is_msg};
ghost use Rattle.beep_giving.specs.beep_frame.specs.Modulo.{modulo_2_64};
ghost use Rattle.beep_giving.specs.beep_history.specs.Journal.{Item};
ghost use Rattle.beep_giving.specs.beep_mgmt.specs.Message.{message_text};
ghost use Rattle.beep_giving.specs.beep_channel.specs.declared.ask_error.AskError.{AskError as AskErrorValue};
ghost use Rattle.beep_giving.specs.beep_channel.specs.Stands.{ends_of};
ghost use Rattle.beep_giving.specs.beep_inbox.specs.Untaken.{IsTaken};
ghost use Rattle.beep_giving.specs.beep_lives.specs.Lives.{live_at};
ghost use Rattle.beep_giving.specs.beep_standing.specs.Standing.{Marks};
ghost use Rattle.beep_giving.specs.beep_answering.specs.Sent.{closing_of};
ghost use Rattle.beep_giving.specs.beep_peer.specs.declared.refusals.CloseError.{CloseError as CloseErrorValue};
ghost use Rattle.beep_giving.specs.beep_peer.specs.Peering.{IsPeer};
ghost use Rattle.beep_giving.specs.beep_peer.specs.Waiting.{IsStuck};
ghost use Rattle.beep_giving.specs.beep_peer.specs.Acts.{close_refusal};
ghost use Rattle.beep_giving.specs.Giving.{ask_refusal_at};
ghost use Rattle.beep_giving.specs.Looks.{owes_of, answers_of, inbox_of};
ghost use Rattle.beep_session.specs.Lawfully.{KeepsUpright};
ghost use Rattle.beep_session.specs.Channels.{is_closing, IsStill, Gives, Takes, Closes};

use super::{ClosingChannel, Duty, OpenChannel};
use beep_giving::beep_channel::AskError;
use beep_giving::beep_inbox::Part;
use beep_giving::beep_peer::CloseError;

impl<'s> OpenChannel<'s> {
    ghost use Rattle.std.specs.Borrow.{sem, RestsIfNone};
    ghost use Rattle.beep_giving.specs.beep_octets.specs.Numbers.{numbers_32};
    ghost use Rattle.beep_session.specs.contracts.session.Session.{the_row};
    ghost use Rattle.beep_session.specs.Lending.{IsSameReference, open_session, open_number, closing_session, closing_number, duty_session, duty_number, has_begun};

    /// Asks, and answers the request's position modulo 2^64. The refusals are tried in the order
    /// Closing, TooManyAsked, Full, NoMemory.
    pub fn ask(&mut self, octets: &[u8]) -> Result<u64, AskError>
        requires unclosed { is_closing (open_number self.old) (open_session self.old).now ≡ false }
        ensures same { ((open_session self.new).ghost_name ≡ (open_session self.old).ghost_name)
            × (open_number self.new ≡ open_number self.old) }
        ensures ok { OnOk result (Gives (open_number self.old) KindValue.Msg octets.now
            (open_session self.old).now (open_session self.new).now) }
        ensures value { (fed rest : List ℕ) (journal : List Item) (given taken : Marks)
            → IsPeer (open_session self.old).now.limits.window fed rest journal given taken
            (open_session self.old).now.peer → IfOk result (λ position.
            position ≡ modulo_2_64 (ends_of is_msg (given (open_number self.old)))) }
        ensures upright { KeepsUpright (open_session self.old).now (open_session self.new).now }

        ensures accepted { OnOk result (ask_refusal_at (open_session self.old).now.peer
            (open_number self.old) (length octets.now) ≡ None) }
        ensures refused { IfErr result (λ error. error ≢ AskErrorValue.NoMemory
            → ask_refusal_at (open_session self.old).now.peer (open_number self.old)
            (length octets.now) ≡ Some error) }
        ensures err { OnErr result
            (IsStill (open_session self.old).now (open_session self.new).now) }
        ensures unclosed { is_closing (open_number self.new) (open_session self.new).now ≡ false }
    {
        let at = self.at;
        self.session.ask(at, octets)
    }

    /// Takes the first octets of the first untaken message, as many as `buf` holds, and its end
    /// where that follows. It takes no memory.
    pub fn take(&mut self, buf: &mut [u8]) -> Option<Part>
        requires some { 0 < length buf.old }
        requires fits { length buf.old < numbers_32 }
        ensures same { ((open_session self.new).ghost_name ≡ (open_session self.old).ghost_name)
            × (open_number self.new ≡ open_number self.old) }
        ensures some { IfSome result (λ part. Takes (open_number self.old) part buf.new
            (open_session self.old).now (open_session self.new).now) }
        ensures upright { KeepsUpright (open_session self.old).now (open_session self.new).now }
        ensures stuck { IfSome result (λ part. IsStuck (open_session self.new).now.peer.lives
            (open_session self.new).now.peer.management) }
        ensures part { IfSome result (λ part. IsTaken part
            (inbox_of (live_at (open_number self.old) (open_session self.old).now.peer.lives))
            (inbox_of (live_at (open_number self.old) (open_session self.new).now.peer.lives))
            buf.old buf.new) }
        ensures none { IfNone result (inbox_of (live_at (open_number self.old)
            (open_session self.old).now.peer.lives) ≡ []) }
        ensures kept { IfNone result
            ((open_session self.new).now ≡ (open_session self.old).now) }
        ensures buffer { IfNone result (buf.new ≡ buf.old) }
        ensures closing { is_closing (open_number self.new) (open_session self.new).now
            ≡ is_closing (open_number self.old) (open_session self.old).now }
    {
        let at = self.at;
        self.session.take(at, buf)
    }

    /// The oldest wholly taken request without a whole reply given. The channel is given up.
    pub fn into_owed(self) -> Option<Duty<'s>>
        ensures* rests { sem 𝓛 (RestsIfNone the_row (open_session self.entry)
            (λ d. (duty_session d).ghost_name) result
            (λ now. now ≡ (open_session self.entry).now)) }
        ensures same_reference { IfSome result (λ d.
            (duty_session d).ghost_name ≡ (open_session self.entry).ghost_name) }
        ensures same { IfSome result (λ d.
            ((duty_session d).now ≡ (open_session self.entry).now)
            × (duty_number d ≡ open_number self.entry)) }
        ensures some { is_some result ≡ owes_of (live_at (open_number self.entry)
            (open_session self.entry).now.peer.lives) }
        ensures begun { IfSome result (λ d. has_begun d ≡ is_some (answers_of
            (live_at (open_number self.entry) (open_session self.entry).now.peer.lives))) }
    {
        let OpenChannel { session, at } = self;
        session.owed(at)
    }

    /// Asks the peer to close the channel. Where that is done, the channel is turned by
    /// `into_closing`: it may not ask any more.
    pub fn try_close(&mut self) -> Result<(), CloseError>
        requires unclosed { is_closing (open_number self.old) (open_session self.old).now ≡ false }
        ensures same { ((open_session self.new).ghost_name ≡ (open_session self.old).ghost_name)
            × (open_number self.new ≡ open_number self.old) }
        ensures ok { OnOk result (Closes (open_number self.old) (open_session self.old).now
            (open_session self.new).now) }
        ensures upright { KeepsUpright (open_session self.old).now (open_session self.new).now }
        ensures closing { OnOk result
            (is_closing (open_number self.new) (open_session self.new).now ≡ true) }

        ensures accepted { OnOk result (close_refusal (open_session self.old).now.peer
            (open_number self.old) ≡ None) }
        ensures refused { IfErr result (λ error. error ≢ CloseErrorValue.NoMemory
            → close_refusal (open_session self.old).now.peer (open_number self.old)
            ≡ Some error) }
        ensures err { OnErr result
            (IsStill (open_session self.old).now (open_session self.new).now) }
    {
        let at = self.at;
        self.session.close(at)
    }

    /// The channel as one whose close waits.
    pub fn into_closing(self) -> ClosingChannel<'s>
        requires closing { is_closing (open_number self) (open_session self).now ≡ true }
        ensures same_reference { IsSameReference (open_session self.entry)
            (closing_session result) }
        ensures same { ((closing_session result).now ≡ (open_session self.entry).now)
            × (closing_number result ≡ open_number self.entry) }
    {
        let OpenChannel { session, at } = self;
        ClosingChannel { session, at }
    }
}

impl<'s> ClosingChannel<'s> {
    ghost use Rattle.std.specs.Borrow.{sem, RestsIfNone};
    ghost use Rattle.beep_giving.specs.beep_octets.specs.Numbers.{numbers_32};
    ghost use Rattle.beep_session.specs.contracts.session.Session.{the_row};
    ghost use Rattle.beep_session.specs.Lending.{closing_session, closing_number, duty_session, duty_number, has_begun};

    /// Takes the first octets of the first untaken message, as many as `buf` holds, and its end
    /// where that follows. It takes no memory.
    pub fn take(&mut self, buf: &mut [u8]) -> Option<Part>
        requires some { 0 < length buf.old }
        requires fits { length buf.old < numbers_32 }
        ensures same { ((closing_session self.new).ghost_name
            ≡ (closing_session self.old).ghost_name)
            × (closing_number self.new ≡ closing_number self.old) }
        ensures some { IfSome result (λ part. Takes (closing_number self.old) part buf.new
            (closing_session self.old).now (closing_session self.new).now) }
        ensures upright { KeepsUpright (closing_session self.old).now
            (closing_session self.new).now }
        ensures stuck { IfSome result (λ part. IsStuck (closing_session self.new).now.peer.lives
            (closing_session self.new).now.peer.management) }
        ensures part { IfSome result (λ part. IsTaken part
            (inbox_of (live_at (closing_number self.old) (closing_session self.old).now.peer.lives))
            (inbox_of (live_at (closing_number self.old) (closing_session self.new).now.peer.lives))
            buf.old buf.new) }
        ensures none { IfNone result (inbox_of (live_at (closing_number self.old)
            (closing_session self.old).now.peer.lives) ≡ []) }
        ensures kept { IfNone result
            ((closing_session self.new).now ≡ (closing_session self.old).now) }
        ensures buffer { IfNone result (buf.new ≡ buf.old) }
    {
        let at = self.at;
        self.session.take(at, buf)
    }

    /// The oldest wholly taken request without a whole reply given. The channel is given up.
    pub fn into_owed(self) -> Option<Duty<'s>>
        ensures* rests { sem 𝓛 (RestsIfNone the_row (closing_session self.entry)
            (λ d. (duty_session d).ghost_name) result
            (λ now. now ≡ (closing_session self.entry).now)) }
        ensures same_reference { IfSome result (λ d.
            (duty_session d).ghost_name ≡ (closing_session self.entry).ghost_name) }
        ensures same { IfSome result (λ d.
            ((duty_session d).now ≡ (closing_session self.entry).now)
            × (duty_number d ≡ closing_number self.entry)) }
        ensures some { is_some result ≡ owes_of (live_at (closing_number self.entry)
            (closing_session self.entry).now.peer.lives) }
        ensures begun { IfSome result (λ d. has_begun d ≡ is_some (answers_of
            (live_at (closing_number self.entry) (closing_session self.entry).now.peer.lives))) }
    {
        let ClosingChannel { session, at } = self;
        session.owed(at)
    }
}
