//! Two sessions and the two wires between them.
ghost use Rattle.std.specs.Prelude.{◌≡◌, ◌↔◌, ◌⊎◌, ◌<◌, ◌≤◌, ◌++◌, [], true, length, take, drop, IsTrue, IfSome, IfOk, OnOk};
ghost use Rattle.beep_two_sessions.specs.beep_lives.specs.Lives.{live_at};
ghost use Rattle.beep_two_sessions.specs.beep_peer.specs.Peering.{is_over};
ghost use Rattle.beep_two_sessions.specs.beep_giving.specs.Looks.{inbox_of};
ghost use Rattle.beep_two_sessions.specs.beep_session.specs.Session.{AreLimits};
ghost use Rattle.beep_schedule.specs.declared.limits.TheConstants.{MAX_COUNT};
ghost use Rattle.beep_two_sessions.specs.beep_settings.specs.declared.limits.TheConstants.{MAX_PIECE};
ghost use Rattle.beep_schedule.specs.Events.{is_event, is_act, AreEvents, is_from_to};
ghost use Rattle.beep_pair.specs.Sessions.{IsReady, Gets};
ghost use Rattle.beep_pair.specs.Command.{HasBegun, pair_offers};

use crate::deed::{Deed, act_counted};
use crate::hear::hear;
use crate::message::fill_message;
use crate::speak::send;
use crate::take::take_on;
use crate::uri::pair_text;
use crate::wire::Wire;
use beep_report::beep_tally::{Account, Accounts};
use beep_report::{
    Answer, put_act_line, put_get_line, put_send_line, put_still, put_take_line, put_totals,
};
use beep_schedule::{Act, End, MAX_COUNT, PairEvent, Schedule};
use beep_two_sessions::beep_answering::Offers;
use beep_two_sessions::beep_decide::Offer;
use beep_two_sessions::beep_inbox::Part;
use beep_two_sessions::beep_journal::Role;
use beep_two_sessions::beep_octets::{NoMemory, Octets};
use beep_two_sessions::beep_session::{Limits, Session};
use beep_two_sessions::beep_speaking::Emit;
use std::alloc::Global;
use std::marker::Model;

/// Two ends of one link, A the initiator, and what each sent and the other has not used.
#[derive(Drop)]
pub struct Pair {
    alloc: Global,
    a: Session,
    b: Session,
    to_a: Wire,
    to_b: Wire,
    accounts: Accounts,
    message: Octets,
    said: Octets,
}

impl Model for Pair {
    ghost use Rattle.beep_pair.specs.Sessions.{Sessions};

    ghost Value = { Sessions };

    ghost view = { λ p. record {
      a = p.a;
      b = p.b;
      to_a = p.to_a;
      to_b = p.to_b;
      accounts = p.accounts;
    } };
}

/// One end, which offers the profile.
fn new_end(alloc: Global, role: Role, limits: Limits) -> Result<Session, NoMemory>
    requires limits { AreLimits limits }
    ensures ready { IfOk result (λ session. IsReady session) }
    ensures begun { IfOk result (λ session. HasBegun session) }
    ensures terms { IfOk result (λ session. (session.role ≡ role)
        × (session.limits ≡ limits)) }
    ensures offers { IfOk result (λ session. session.offers ≡ pair_offers) }
{
    let uri = pair_text(alloc)?;
    let mut offers = Offers::new(alloc);
    offers.push(Offer { uri, tuning: false })?;
    let session = Session::new(alloc, role, offers, limits)?;
    Ok(session)
}

impl Pair {
    ghost use Rattle.beep_pair.specs.Command.{AreFresh};
    ghost use Rattle.beep_pair.specs.Sessions.{AreReady, IsLess};
    ghost use Rattle.beep_pair.specs.World.{Leads, held_at, octets_to};
    ghost use Rattle.beep_pair.specs.Steps.{DoesStep, SendsStep, GetsStep, TakesStep};
    ghost use Rattle.beep_pair.specs.Report.{ReportsEvent, Reported, IsStill};

    /// Two ends with these limits, and nothing between them.
    pub fn new(alloc: Global, limits: Limits) -> Result<Pair, NoMemory>
        requires limits { AreLimits limits }
        ensures fresh { IfOk result (λ pair. AreFresh limits pair) }
        ensures ready { IfOk result (λ pair. AreReady pair) }
    {
        let a = new_end(alloc, Role::Initiator, limits)?;
        let b = new_end(alloc, Role::Listener, limits)?;
        Ok(Pair {
            alloc,
            a,
            b,
            to_a: Wire::new(alloc),
            to_b: Wire::new(alloc),
            accounts: Accounts::new(alloc),
            message: Octets::new(alloc),
            said: Octets::new(alloc),
        })
    }

    /// The session of an end.
    pub fn end(&self, at: End) -> &Session
        ensures { result.now ≡ held_at at self.now }
    {
        match at {
            End::A => &self.a,
            End::B => &self.b,
        }
    }

    /// What was given and taken in each life, by number and life.
    pub fn accounts(&self) -> &[Account]
        ensures { result.now ≡ self.now.accounts }
    {
        self.accounts.as_slice()
    }

    /// Where its memory comes from.
    pub(crate) fn allocator(&self) -> Global {
        self.alloc
    }

    /// An end does something.
    pub(crate) fn act(
        &mut self,
        at: End,
        act: Act,
        n: u32,
        len: u32,
        fill: u8,
    ) -> Result<Answer, NoMemory>
        requires ready { AreReady self.old }
        requires valid { IsTrue (is_act at act n len fill) }
        ensures done { IfOk result (λ answer. Leads (DoesStep at act n len fill answer) self.old
            self.new) }
        ensures ready { OnOk result (AreReady self.new) }
    {
        let uri = pair_text(self.alloc)?;
        fill_message(&mut self.message, len, fill)?;
        let octets = self.message.as_slice();
        let deed = Deed {
            at,
            act,
            channel: n,
            len,
        };
        match at {
            End::A => act_counted(
                self.alloc,
                &deed,
                &mut self.a,
                octets,
                &uri,
                &mut self.accounts,
            ),
            End::B => act_counted(
                self.alloc,
                &deed,
                &mut self.b,
                octets,
                &uri,
                &mut self.accounts,
            ),
        }
    }

    /// An end sends one frame.
    pub(crate) fn send(&mut self, at: End, max: u32) -> Result<Emit, NoMemory>
        requires ready { AreReady self.old }
        requires valid { is_from_to 1 MAX_PIECE max ≡ true }
        ensures sent { IfOk result (λ emit. Leads (SendsStep at max emit) self.old self.new) }
        ensures ready { OnOk result (AreReady self.new) }
    {
        match at {
            End::A => send(
                self.alloc,
                at,
                &mut self.a,
                max,
                &mut self.said,
                &mut self.to_b,
                &mut self.accounts,
            ),
            End::B => send(
                self.alloc,
                at,
                &mut self.b,
                max,
                &mut self.said,
                &mut self.to_a,
                &mut self.accounts,
            ),
        }
    }

    /// An end reads the next octets that the other sent, and answers how many it used.
    pub(crate) fn get(&mut self, at: End, count: usize) -> Result<usize, NoMemory>
        requires ready { AreReady self.old }
        ensures got { IfOk result (λ used. Leads (GetsStep at count used) self.old self.new) }
        ensures all { IfOk result (λ used. used ≡ 0 → 0 < count → (octets_to at self.new ≡ [])
            ⊎ (is_over (held_at at self.new).peer ≡ true)) }
        ensures less { IfOk result (λ used. 0 < used
            → length (octets_to at self.new) < length (octets_to at self.old)) }
        ensures ready { OnOk result (AreReady self.new) }
    {
        match at {
            End::A => get(
                self.alloc,
                at,
                &mut self.a,
                &mut self.to_a,
                count,
                &mut self.accounts,
            ),
            End::B => get(
                self.alloc,
                at,
                &mut self.b,
                &mut self.to_b,
                count,
                &mut self.accounts,
            ),
        }
    }

    /// An end takes what arrived on a channel into a buffer.
    pub(crate) fn take(&mut self, at: End, n: u32, buf: &mut [u8]) -> Option<Part>
        requires ready { AreReady self.old }
        requires some { 0 < length buf.old }
        requires most { length buf.old ≤ MAX_COUNT }
        ensures taken { Leads (TakesStep at n (length buf.old) result buf.new) self.old
            self.new }
        ensures less { IfSome result (λ part. IsLess
            (inbox_of (live_at n (held_at at self.new).peer.lives))
            (inbox_of (live_at n (held_at at self.old).peer.lives))) }
        ensures room { length buf.new ≡ length buf.old }
        ensures ready { AreReady self.new }
    {
        match at {
            End::A => take_on(at, &mut self.a, n, buf, &mut self.accounts),
            End::B => take_on(at, &mut self.b, n, buf, &mut self.accounts),
        }
    }

    /// Makes one step, and appends its line.
    fn step(&mut self, event: PairEvent, line: &mut Octets) -> Result<(), NoMemory>
        requires ready { AreReady self.old }
        requires valid { IsTrue (is_event event) }
        ensures appended { OnOk result (Leads
            (ReportsEvent event line.old.octets line.new.octets) self.old self.new) }
        ensures ready { OnOk result (AreReady self.new) }
    {
        match event {
            PairEvent::Do {
                at,
                act,
                channel,
                len,
                fill,
            } => {
                let answer = self.act(at, act, channel, len, fill)?;
                put_act_line(line, at, act, channel, answer)?;
                Ok(())
            }
            PairEvent::Send { at, max } => {
                let emit = self.send(at, max)?;
                put_send_line(line, at, &emit)?;
                Ok(())
            }
            PairEvent::Get { at, count } => {
                let used = self.get(at, count as usize)?;
                put_get_line(line, at, used as u64)?;
                Ok(())
            }
            PairEvent::Take { at, channel, count } => {
                let mut buffer = Vec::from_elem(self.alloc, 0u8, count as usize)?;
                let part = self.take(at, channel, buffer.as_mut_slice());
                put_take_line(line, at, channel, part, buffer.as_slice())?;
                Ok(())
            }
            PairEvent::Drain { max, piece } => {
                self.drain(max, piece as usize, line)?;
                Ok(())
            }
        }
    }

    /// Makes the steps of a schedule, and appends their report.
    pub fn run(&mut self, schedule: &Schedule, out: &mut Octets) -> Result<(), NoMemory>
        requires ready { AreReady self.old }
        requires valid { AreEvents schedule.now }
        ensures reported { OnOk result (Leads (Reported schedule.now out.old.octets
            out.new.octets) self.old self.new) }
        ensures ready { OnOk result (AreReady self.new) }
    {
        let mut line = Octets::new(self.alloc);
        for i in 0..schedule.len() {
            let Some(event) = schedule.get(i) else {
                unreachable!()
            };
            line.clear();
            self.step(*event, &mut line)?;
            out.extend(line.as_slice())?;
        }
        line.clear();
        put_totals(&mut line, self.accounts.as_slice())?;
        let still = self.is_still();
        put_still(&mut line, still)?;
        out.extend(line.as_slice())?;
        Ok(())
    }

    /// Whether nothing can move: neither end may send, both wires are empty, and all that arrived
    /// is taken.
    pub fn is_still(&self) -> bool
        requires ready { AreReady self.now }
        ensures { (result ≡ true) ↔ IsStill self.now }
    {
        !self.a.may_emit()
            && !self.b.may_emit()
            && self.to_a.is_empty()
            && self.to_b.is_empty()
            && !self.a.has_untaken()
            && !self.b.has_untaken()
    }
}

/// Feeds the oldest octets of a wire, at most so many, and answers how many were used.
fn get(
    alloc: Global,
    at: End,
    session: &mut Session,
    wire: &mut Wire,
    count: usize,
    accounts: &mut Accounts,
) -> Result<usize, NoMemory>
    requires ready { IsReady session.old }
    ensures got { IfOk result (λ used. Gets at (take count wire.old) used session.old session.new
        accounts.old accounts.new × (wire.new ≡ drop used wire.old)) }
    ensures ready { OnOk result (IsReady session.new) }
    ensures role { OnOk result (session.new.role ≡ session.old.role) }
{
    let used = hear(alloc, at, session, wire.front(count), accounts)?;
    wire.advance(used);
    Ok(used)
}
