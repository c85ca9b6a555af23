//! The channels of a session as types, so that a step that isn't possible doesn't compile: a second
//! reply, an answer after the NUL, two channels at once. A request after the close is refused by
//! the condition of `ask`.
ghost use Rattle.std.specs.Prelude.{◌≡◌, ◌≢◌, ◌<◌, ◌^◌, ◌&&◌, not, nat_lt, [], ℕ, List, length, None, Some, is_some, true, false, IsSome, IfSome, IfNone, IfOk, IfErr, OnOk, OnErr};
ghost use Rattle.beep_giving.specs.beep_frame.specs.declared.kind.Kind.{Kind as KindValue};
ghost use Rattle.beep_giving.specs.beep_frame.specs.Frame.{is_msg};
ghost use Rattle.beep_giving.specs.beep_frame.specs.Modulo.{modulo_2_64};
ghost use Rattle.beep_giving.specs.beep_history.specs.Journal.{Item};
ghost use Rattle.beep_giving.specs.beep_outbox.specs.declared.give_error.GiveError.{GiveError as GiveErrorValue};
ghost use Rattle.beep_giving.specs.beep_channel.specs.declared.ask_error.AskError.{AskError as AskErrorValue};
ghost use Rattle.beep_giving.specs.beep_channel.specs.Stands.{ends_of};
ghost use Rattle.beep_giving.specs.beep_lives.specs.Lives.{live_at};
ghost use Rattle.beep_giving.specs.beep_standing.specs.Standing.{Marks};
ghost use Rattle.beep_giving.specs.beep_peer.specs.Peering.{IsPeer, is_over, zero_waits};
ghost use Rattle.beep_giving.specs.Giving.{ask_refusal_at, reply_refusal_at};
ghost use Rattle.beep_giving.specs.Looks.{owes_of, answers_of, inbox_of};
ghost use Rattle.beep_session.specs.Channels.{IsOpen, is_closing, IsStill, Gives, Takes};

mod open;
mod reply;

use crate::session::Session;
use beep_giving::beep_channel::AskError;
use beep_giving::beep_frame::Kind;
use beep_giving::beep_inbox::Part;
use beep_giving::beep_octets::NoMemory;
use beep_giving::beep_outbox::GiveError;
use beep_giving::beep_peer::CloseError;

/// A live channel whose close this end has not asked for. It holds the session.
#[derive(Drop)]
pub struct OpenChannel<'s> {
    session: &'s mut Session,
    at: u32,
    ghost open: { IsOpen at session.now },
}

/// A live channel whose own close waits. It gives no request.
#[derive(Drop)]
pub struct ClosingChannel<'s> {
    session: &'s mut Session,
    at: u32,
    ghost open: { IsOpen at session.now },
}

/// A request to which nothing was given.
#[derive(Drop)]
pub struct Owed<'c> {
    session: &'c mut Session,
    at: u32,
    ghost open: { IsOpen at session.now },
    ghost owed: { owes_of (live_at at session.now.peer.lives) ≡ true },
    ghost fresh: { answers_of (live_at at session.now.peer.lives) ≡ None },
}

/// A request to which answers are given.
#[derive(Drop)]
pub struct Answering<'c> {
    session: &'c mut Session,
    at: u32,
    ghost open: { IsOpen at session.now },
    ghost owed: { owes_of (live_at at session.now.peer.lives) ≡ true },
}

/// The oldest wholly taken request of a channel that has no whole reply given.
#[derive(Drop)]
pub enum Duty<'c> {
    Fresh(Owed<'c>),
    Begun(Answering<'c>),
}

impl Session {
    ghost use Rattle.std.specs.Borrow.{sem, RestsIfNone};
    ghost use Rattle.beep_session.specs.contracts.session.Session.{the_row};
    ghost use Rattle.beep_session.specs.Lending.{open_session, open_number, closing_session, closing_number, duty_session, duty_number, has_begun};

    /// The channel of a number, where it is live and no own close of it waits.
    pub fn open_channel(&mut self, n: u32) -> Option<OpenChannel<'_>>
        requires settled { zero_waits self.old.peer ≡ false }
        ensures* rests { sem 𝓛 (RestsIfNone the_row self.entry
            (λ c. (open_session c).ghost_name) result (λ now. now ≡ self.old)) }
        ensures same_reference { IfSome result (λ c.
            (open_session c).ghost_name ≡ self.entry.ghost_name) }
        ensures same { IfSome result (λ c.
            ((open_session c).now ≡ self.old) × (open_number c ≡ n)) }
        ensures some { is_some result ≡ (not (is_over self.old.peer) && (nat_lt 0 n
            && (is_some (live_at n self.old.peer.lives) && not (is_closing n self.old)))) }
        ensures unclosed { IfSome result (λ c.
            is_closing (open_number c) (open_session c).now ≡ false) }
    {
        if self.is_over() || !self.live(n) || self.is_closing(n) {
            return None;
        }
        Some(OpenChannel {
            session: self,
            at: n,
        })
    }

    /// The channel of a number, where it is live and an own close of it waits.
    pub fn closing_channel(&mut self, n: u32) -> Option<ClosingChannel<'_>>
        requires settled { zero_waits self.old.peer ≡ false }
        ensures* rests { sem 𝓛 (RestsIfNone the_row self.entry
            (λ c. (closing_session c).ghost_name) result (λ now. now ≡ self.old)) }
        ensures same_reference { IfSome result (λ c.
            (closing_session c).ghost_name ≡ self.entry.ghost_name) }
        ensures same { IfSome result (λ c.
            ((closing_session c).now ≡ self.old) × (closing_number c ≡ n)) }
        ensures some { is_some result ≡ (not (is_over self.old.peer) && (nat_lt 0 n
            && (is_some (live_at n self.old.peer.lives) && is_closing n self.old))) }
    {
        if self.is_over() || !self.live(n) || !self.is_closing(n) {
            return None;
        }
        Some(ClosingChannel {
            session: self,
            at: n,
        })
    }

    /// The oldest wholly taken request of a live channel that has no whole reply given.
    pub fn owed(&mut self, n: u32) -> Option<Duty<'_>>
        requires open { IsOpen n self.old }
        ensures* rests { sem 𝓛 (RestsIfNone the_row self.entry
            (λ d. (duty_session d).ghost_name) result (λ now. now ≡ self.old)) }
        ensures same_reference { IfSome result (λ d.
            (duty_session d).ghost_name ≡ self.entry.ghost_name) }
        ensures same { IfSome result (λ d.
            ((duty_session d).now ≡ self.old) × (duty_number d ≡ n)) }
        ensures some { is_some result ≡ owes_of (live_at n self.old.peer.lives) }
        ensures begun { IfSome result (λ d.
            has_begun d ≡ is_some (answers_of (live_at n self.old.peer.lives))) }
    {
        if !self.owes(n) {
            return None;
        }
        if self.begun_answers(n).is_some() {
            Some(Duty::Begun(Answering {
                session: self,
                at: n,
            }))
        } else {
            Some(Duty::Fresh(Owed {
                session: self,
                at: n,
            }))
        }
    }
}
