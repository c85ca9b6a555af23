//! What a sender does with octets that come.
ghost use Rattle.std.specs.Prelude.{◌≡◌, ◌≤◌, ◌<◌, ◌||◌, ℕ, List, length, take, None, Some, true, IfErr, IfOk, OnOk};
ghost use Rattle.beep_steps.specs.beep_journal.specs.Log.{Moment, got_all};
ghost use Rattle.beep_steps.specs.beep_talk.specs.declared.plan.Command.{Command};
ghost use Rattle.beep_steps.specs.beep_session.specs.Lawfully.{terms_of};
ghost use Rattle.beep_steps.specs.beep_link.specs.declared.ended.Stop.{Stop as StopValue};
ghost use Rattle.beep_steps.specs.beep_answering.specs.declared.settled.Settled.{Settled as SettledValue};
ghost use Rattle.beep_steps.specs.Desking.{closes_own};
ghost use Rattle.beep_steps.specs.Logs.{SaysNothing};
ghost use Rattle.beep_steps.specs.Refusing.{refused_so, IsUnrefused, RefusesOn, RefusesWith, Unrefused};
ghost use Rattle.beep_steps.specs.Sending.{StopsSending};

use super::noting::{closed_early, stopped};
use super::taking::take_all;
use super::{CHANNEL, CLOSED, RELEASED, STARTED, Sender, UNSTARTED};
use beep_steps::beep_link::Stop;
use beep_steps::beep_octets::NoMemory;
use beep_steps::beep_session::{ReleaseError, Settled, StartError, one_profile};
use beep_steps::{Came, denial, hear_next, settle_message};

impl Sender<'_> {
    ghost use Rattle.beep_sender.specs.Asking.{AsksSettled};
    ghost use Rattle.beep_sender.specs.Sender.{plan_of, AsksBy, AsksWaitingBy, KeepsScriptingBy, KeepsSendingBy, ScriptsBy, ScriptsWaitingBy, SendsBy, SendsWaitingBy};

    /// Uses all octets, unless the session ends. Each event uses one at least.
    pub(super) fn hear_all(&mut self, bytes: &[u8]) -> Result<(), Stop>
        ensures heard { (log : List Moment) → SendsBy self.old log
            → OnOk result (SendsBy self.new (got_all bytes.now log)) }
        ensures scripted { (log : List Moment) → ScriptsBy self.old log
            → OnOk result (ScriptsBy self.new (got_all bytes.now log)) }
        ensures asking { (log : List Moment) → AsksBy self.old log
            → OnOk result (AsksBy self.new (got_all bytes.now log)) }
        ensures stopped { (log : List Moment) → SendsBy self.old log
            → IfErr result (λ stop.
            StopsSending (plan_of self.old) stop (got_all bytes.now log)) }
        ensures unrefused { (log : List Moment) → SendsBy self.old log
            → IsUnrefused Command.Send self.old.is_closing log → OnOk result
            (IsUnrefused Command.Send self.old.is_closing (got_all bytes.now log)) }
        ensures refuses { (log : List Moment) → SendsBy self.old log
            → IsUnrefused Command.Send self.old.is_closing log → IfErr result (λ stop.
            RefusesOn (terms_of self.old.session) stop (got_all bytes.now log)) }
        ensures closing { self.new.is_closing ≡ self.old.is_closing }
        ensures plan { plan_of self.new ≡ plan_of self.old }
        ensures failed { IfErr result (λ stop. stop ≡ StopValue.WriteFault → ⊥) }
    {
        let mut at = 0;
        for _ in 0..bytes.len() {
            if bytes.len() <= at {
                return Ok(());
            }
            match self.hear_some(&bytes[at..]) {
                Ok(count) => at += count,
                Err(stop) => return Err(stop),
            }
        }
        Ok(())
    }

    /// Uses octets up to the next event, and does what it calls for.
    fn hear_some(&mut self, bytes: &[u8]) -> Result<usize, Stop>
        ensures within { IfOk result (λ n. n ≤ length bytes.now) }
        ensures heard { (log : List Moment) → SendsBy self.old log → IfOk result (λ n.
            SendsBy self.new (got_all (take n bytes.now) log)) }
        ensures scripted { (log : List Moment) → ScriptsBy self.old log → IfOk result (λ n.
            ScriptsBy self.new (got_all (take n bytes.now) log)) }
        ensures asking { (log : List Moment) → AsksBy self.old log → IfOk result (λ n.
            AsksBy self.new (got_all (take n bytes.now) log)) }
        ensures stopped { (log : List Moment) → SendsBy self.old log
            → IfErr result (λ stop.
            StopsSending (plan_of self.old) stop (got_all bytes.now log)) }
        ensures more { (log : List Moment) → SendsBy self.old log
            → 0 < length bytes.now → IfOk result (λ n. 0 < n) }
        ensures unrefused { (log : List Moment) → SendsBy self.old log
            → IsUnrefused Command.Send self.old.is_closing log → IfOk result (λ n.
            IsUnrefused Command.Send self.old.is_closing (got_all (take n bytes.now) log)) }
        ensures refuses { (log : List Moment) → SendsBy self.old log
            → IsUnrefused Command.Send self.old.is_closing log → IfErr result (λ stop.
            RefusesOn (terms_of self.old.session) stop (got_all bytes.now log)) }
        ensures closing { self.new.is_closing ≡ self.old.is_closing }
        ensures plan { plan_of self.new ≡ plan_of self.old }
        ensures failed { IfErr result (λ stop. stop ≡ StopValue.WriteFault → ⊥) }
    {
        let (count, came) = match hear_next(&mut self.session, bytes) {
            Ok(heard) => heard,
            Err(stop) => return Err(stop),
        };
        match came {
            Came::More => Ok(count),
            Came::Arrived(number) => {
                take_all(&mut self.session, number, self.taken.as_mut_slice());
                Ok(count)
            }
            Came::Zero => match self.settle() {
                Ok(()) => Ok(count),
                Err(stop) => Err(stop),
            },
        }
    }

    /// Settles what waits, and does what it calls for.
    fn settle(&mut self) -> Result<(), Stop>
        ensures settled { (log : List Moment) → SendsWaitingBy self.old log
            → OnOk result (SendsBy self.new log) }
        ensures scripted { (log : List Moment) → ScriptsWaitingBy self.old log
            → OnOk result (ScriptsBy self.new log) }
        ensures asking { (log : List Moment) → AsksWaitingBy self.old log
            → OnOk result (AsksBy self.new log) }
        ensures stopped { (log : List Moment) (octets : List ℕ)
            → SendsWaitingBy self.old log → IfErr result (λ stop.
            StopsSending (plan_of self.old) stop (got_all octets log)) }
        ensures unrefused { (log : List Moment) (w : SendsWaitingBy self.old log)
            → Unrefused Command.Send self.old.is_closing w.on.journal
            → OnOk result (IsUnrefused Command.Send self.old.is_closing log) }
        ensures refuses { (log : List Moment) (octets : List ℕ)
            (w : SendsWaitingBy self.old log)
            → Unrefused Command.Send self.old.is_closing w.on.journal → IfErr result (λ stop.
            RefusesOn (terms_of self.old.session) stop (got_all octets log)) }
        ensures closing { self.new.is_closing ≡ self.old.is_closing }
        ensures plan { plan_of self.new ≡ plan_of self.old }
        ensures failed { IfErr result (λ stop. stop ≡ StopValue.WriteFault → ⊥) }
    {
        if !self.session.zero_waits() {
            return Ok(());
        }
        let settled = settle_message(&mut self.session)?;
        self.follow(settled)
    }

    /// Does what a message calls for that was settled.
    fn follow(&mut self, settled: Settled) -> Result<(), Stop>
        ensures sends { KeepsSendingBy self.old self.new }
        ensures scripted { KeepsScriptingBy self.old self.new }
        ensures asking { (log : List Moment) → ScriptsBy self.old log
            → AsksSettled (plan_of self.old) self.old.asked settled self.old.session log
            → OnOk result (AsksBy self.new log) }
        ensures closing { self.new.is_closing ≡ self.old.is_closing }
        ensures stopped { IfErr result (λ stop. SaysNothing stop) }
        ensures unrefused { OnOk result
            (refused_so Command.Send self.old.is_closing settled ≡ None) }
        ensures refuses { IfErr result (λ stop.
            RefusesWith (refused_so Command.Send self.old.is_closing settled) stop) }
        ensures plan { plan_of self.new ≡ plan_of self.old }
        ensures failed { IfErr result (λ stop. stop ≡ StopValue.WriteFault → ⊥) }
    {
        if let Some(code) = self.refusal(&settled) {
            return Err(Stop::Refused(code));
        }
        match settled {
            Settled::Greeted => stopped(self.start()),
            Settled::Closed { .. } | Settled::Stale(_) => stopped(self.release()),
            Settled::Released
            | Settled::Denied(_)
            | Settled::Begun { .. }
            | Settled::NotBegun { .. }
            | Settled::PeerStarts { .. }
            | Settled::PeerRefused { .. }
            | Settled::PeerCloses { .. }
            | Settled::NotClosed { .. } => Ok(()),
        }
    }

    /// The code with which the peer refuses what is asked, where it does: by an error, or by a
    /// close of the channel or of the session before the own close has begun.
    fn refusal(&self, settled: &Settled) -> Option<u16>
        ensures { result ≡ refused_so Command.Send self.now.is_closing settled.now }
    {
        match denial(settled) {
            Some(code) => Some(code),
            None => closed_early(self.is_closing, settled),
        }
    }

    /// Starts the channel. An initiator may start odd numbers.
    fn start(&mut self) -> Result<(), NoMemory>
        ensures sends { KeepsSendingBy self.old self.new }
        ensures scripted { KeepsScriptingBy self.old self.new }
        ensures asking { (log : List Moment) → ScriptsBy self.old log
            → AsksSettled (plan_of self.old) self.old.asked SettledValue.Greeted
            self.old.session log → OnOk result (AsksBy self.new log) }
        ensures closing { self.new.is_closing ≡ self.old.is_closing }
        ensures plan { plan_of self.new ≡ plan_of self.old }
    {
        if self.asked != UNSTARTED
            || self.session.zero_waits()
            || !self.session.may_start(CHANNEL)
        {
            return Ok(());
        }
        let profiles = one_profile(self.alloc, self.uri)?;
        match self.session.start(CHANNEL, &profiles) {
            Ok(()) => {
                self.asked = STARTED;
                Ok(())
            }
            Err(StartError::NoMemory) => Err(NoMemory),
            Err(
                StartError::Ended
                | StartError::NoGreeting
                | StartError::Closing
                | StartError::NumberTaken
                | StartError::ChannelsFull
                | StartError::TooManyAsked
                | StartError::TooLong { .. },
            ) => Ok(()),
        }
    }

    /// Asks for the release, once the close of the channel was granted.
    fn release(&mut self) -> Result<(), NoMemory>
        ensures sends { KeepsSendingBy self.old self.new }
        ensures scripted { KeepsScriptingBy self.old self.new }
        ensures asking { (settled : SettledValue) (log : List Moment) → ScriptsBy self.old log
            → AsksSettled (plan_of self.old) self.old.asked settled self.old.session log
            → closes_own settled ≡ true → OnOk result (AsksBy self.new log) }
        ensures closing { self.new.is_closing ≡ self.old.is_closing }
        ensures plan { plan_of self.new ≡ plan_of self.old }
    {
        if self.asked != CLOSED || self.session.zero_waits() {
            return Ok(());
        }
        match self.session.release() {
            Ok(()) => {
                self.asked = RELEASED;
                Ok(())
            }
            Err(ReleaseError::NoMemory) => Err(NoMemory),
            Err(
                ReleaseError::Ended
                | ReleaseError::NoGreeting
                | ReleaseError::Closing
                | ReleaseError::Busy(_)
                | ReleaseError::Unanswered(_),
            ) => Ok(()),
        }
    }
}
