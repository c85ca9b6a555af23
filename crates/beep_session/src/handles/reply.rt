//! What a program gives to a request that it owes a reply (RFC 3080, section 2.6.1).
ghost use Rattle.std.specs.Prelude.{◌≡◌, ◌≢◌, ◌<◌, [], length, None, Some, IfOk, IfErr, OnOk, OnErr};
ghost use Rattle.beep_giving.specs.beep_frame.specs.declared.kind.Kind.{Kind as KindValue};
ghost use Rattle.beep_giving.specs.beep_outbox.specs.declared.give_error.GiveError.{GiveError as GiveErrorValue};
ghost use Rattle.beep_giving.specs.beep_lives.specs.Lives.{live_at};
ghost use Rattle.beep_giving.specs.Giving.{reply_refusal_at};
ghost use Rattle.beep_session.specs.Lawfully.{KeepsUpright};
ghost use Rattle.beep_session.specs.Channels.{IsStill, Gives};

use super::{Answering, Owed};
use beep_giving::beep_frame::Kind;
use beep_giving::beep_octets::NoMemory;
use beep_giving::beep_outbox::GiveError;

impl<'c> Owed<'c> {
    ghost use Rattle.std.specs.Borrow.{sem};
    ghost use Rattle.beep_session.specs.contracts.session.Session.{the_row};
    ghost use Rattle.beep_session.specs.Lending.{IsSameReference, RestsIfOk, owed_session, owed_number, answering_session, answering_number};

    /// Replies with RPY, or hands the request back. The refusals are tried in the order Full,
    /// NoMemory.
    pub fn reply(self, octets: &[u8]) -> Result<(), (Owed<'c>, GiveError)>
        ensures* rests { sem 𝓛 (RestsIfOk the_row (owed_session self.entry)
            (λ e. (owed_session e.0).ghost_name) result
            (λ now. Gives (owed_number self.entry) KindValue.Rpy octets.now
            (owed_session self.entry).now now
            × KeepsUpright (owed_session self.entry).now now)) }
        ensures same_reference { IfErr result (λ e.
            (owed_session e.0).ghost_name ≡ (owed_session self.entry).ghost_name) }
        ensures same { IfErr result (λ e.
            IsStill (owed_session self.entry).now (owed_session e.0).now
            × (owed_number e.0 ≡ owed_number self.entry)) }
        ensures upright { IfErr result (λ e.
            KeepsUpright (owed_session self.entry).now (owed_session e.0).now) }
        ensures accepted { OnOk result (reply_refusal_at (live_at (owed_number self.entry)
            (owed_session self.entry).now.peer.lives) (length octets.now) ≡ None) }
        ensures refused { IfErr result (λ e. e.1 ≢ GiveErrorValue.NoMemory
            → reply_refusal_at (live_at (owed_number self.entry)
            (owed_session self.entry).now.peer.lives) (length octets.now) ≡ Some e.1) }
    {
        let Owed { session, at } = self;
        match session.give_reply(at, Kind::Rpy, octets) {
            Ok(()) => Ok(()),
            Err(error) => Err((Owed { session, at }, error)),
        }
    }

    /// Replies with ERR, or hands the request back. The refusals are tried in the order Full,
    /// NoMemory.
    pub fn refuse(self, octets: &[u8]) -> Result<(), (Owed<'c>, GiveError)>
        ensures* rests { sem 𝓛 (RestsIfOk the_row (owed_session self.entry)
            (λ e. (owed_session e.0).ghost_name) result
            (λ now. Gives (owed_number self.entry) KindValue.Err octets.now
            (owed_session self.entry).now now
            × KeepsUpright (owed_session self.entry).now now)) }
        ensures same_reference { IfErr result (λ e.
            (owed_session e.0).ghost_name ≡ (owed_session self.entry).ghost_name) }
        ensures same { IfErr result (λ e.
            IsStill (owed_session self.entry).now (owed_session e.0).now
            × (owed_number e.0 ≡ owed_number self.entry)) }
        ensures upright { IfErr result (λ e.
            KeepsUpright (owed_session self.entry).now (owed_session e.0).now) }
        ensures accepted { OnOk result (reply_refusal_at (live_at (owed_number self.entry)
            (owed_session self.entry).now.peer.lives) (length octets.now) ≡ None) }
        ensures refused { IfErr result (λ e. e.1 ≢ GiveErrorValue.NoMemory
            → reply_refusal_at (live_at (owed_number self.entry)
            (owed_session self.entry).now.peer.lives) (length octets.now) ≡ Some e.1) }
    {
        let Owed { session, at } = self;
        match session.give_reply(at, Kind::Err, octets) {
            Ok(()) => Ok(()),
            Err(error) => Err((Owed { session, at }, error)),
        }
    }

    /// Replies with many answers. It takes no memory.
    pub fn answers(self) -> Answering<'c>
        ensures same_reference { IsSameReference (owed_session self.entry)
            (answering_session result) }
        ensures same { ((answering_session result).now ≡ (owed_session self.entry).now)
            × (answering_number result ≡ owed_number self.entry) }
    {
        let Owed { session, at } = self;
        Answering { session, at }
    }
}

impl<'c> Answering<'c> {
    ghost use Rattle.std.specs.Borrow.{sem};
    ghost use Rattle.beep_session.specs.contracts.session.Session.{the_row};
    ghost use Rattle.beep_session.specs.Lending.{RestsIfOk, answering_session, answering_number};
    ghost use Rattle.beep_session.specs.Channels.{next_answer};

    /// Gives one answer, and answers its number, counted from 0 in each reply, modulo 2^31.
    pub fn answer(&mut self, octets: &[u8]) -> Result<u32, GiveError>
        requires some { 0 < length octets.now }
        ensures same { ((answering_session self.new).ghost_name
            ≡ (answering_session self.old).ghost_name)
            × (answering_number self.new ≡ answering_number self.old) }
        ensures ok { OnOk result (Gives (answering_number self.old) KindValue.Ans octets.now
            (answering_session self.old).now (answering_session self.new).now) }
        ensures upright { KeepsUpright (answering_session self.old).now
            (answering_session self.new).now }
        ensures value { IfOk result (λ number. number ≡ next_answer
            (answering_number self.old) (answering_session self.old).now) }
        ensures accepted { OnOk result (reply_refusal_at (live_at (answering_number self.old)
            (answering_session self.old).now.peer.lives) (length octets.now) ≡ None) }
        ensures refused { IfErr result (λ error. error ≢ GiveErrorValue.NoMemory
            → reply_refusal_at (live_at (answering_number self.old)
            (answering_session self.old).now.peer.lives) (length octets.now) ≡ Some error) }
        ensures err { OnErr result
            (IsStill (answering_session self.old).now (answering_session self.new).now) }
    {
        let at = self.at;
        let number = self.session.next_answer(at);
        match self.session.give_reply(at, Kind::Ans, octets) {
            Ok(()) => Ok(number),
            Err(error) => Err(error),
        }
    }

    /// Ends the answers with the NUL, or hands the request back.
    pub fn done(self) -> Result<(), (Answering<'c>, NoMemory)>
        ensures* rests { sem 𝓛 (RestsIfOk the_row (answering_session self.entry)
            (λ e. (answering_session e.0).ghost_name) result
            (λ now. Gives (answering_number self.entry) KindValue.Nul []
            (answering_session self.entry).now now
            × KeepsUpright (answering_session self.entry).now now)) }
        ensures same_reference { IfErr result (λ e.
            (answering_session e.0).ghost_name ≡ (answering_session self.entry).ghost_name) }
        ensures same { IfErr result (λ e.
            IsStill (answering_session self.entry).now (answering_session e.0).now
            × (answering_number e.0 ≡ answering_number self.entry)) }
        ensures upright { IfErr result (λ e.
            KeepsUpright (answering_session self.entry).now (answering_session e.0).now) }
        ensures accepted { OnOk result (reply_refusal_at (live_at (answering_number self.entry)
            (answering_session self.entry).now.peer.lives) 0 ≡ None) }
    {
        let Answering { session, at } = self;
        match session.give_reply(at, Kind::Nul, &[]) {
            Ok(()) => Ok(()),
            Err(_) => Err((Answering { session, at }, NoMemory)),
        }
    }
}
