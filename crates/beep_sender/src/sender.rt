//! What a sender does as messages come and go: it starts a channel, answers the peer's request with
//! its lines, closes the channel and releases the session (RFC 3195, section 3.1).
ghost use Rattle.std.specs.Prelude.{◌≡◌, ◌≤◌, ◌<◌, ◌∷◌, [], ℕ, List, None, Some, vec_len, false, true, IfErr, IfOk, OnOk};
ghost use Rattle.beep_steps.specs.beep_wires.specs.Counts.{Rose};
ghost use Rattle.beep_steps.specs.beep_wires.specs.Log.{Entry, read as came};
ghost use Rattle.beep_steps.specs.beep_journal.specs.Log.{Moment, put_all};
ghost use Rattle.beep_steps.specs.beep_peer.specs.Peering.{is_over};
ghost use Rattle.beep_steps.specs.beep_talk.specs.declared.plan.Command.{Command};
ghost use Rattle.beep_steps.specs.beep_talk.specs.Plan.{PlainPlan};
ghost use Rattle.beep_steps.specs.beep_speaking.specs.declared.emit.Emit.{Emit as EmitValue};
ghost use Rattle.beep_steps.specs.beep_session.specs.Lawfully.{terms_of};
ghost use Rattle.beep_steps.specs.beep_link.specs.Causes.{ended_by, Grows, WithText};
ghost use Rattle.beep_steps.specs.beep_answering.specs.Sent.{is_uri as is_uri_text};
ghost use Rattle.beep_steps.specs.beep_link.specs.declared.ended.Stop.{Stop as StopValue};
ghost use Rattle.beep_steps.specs.beep_frame.specs.declared.limits.TheConstants.{MAX_PAYLOAD};
ghost use Rattle.beep_sender.specs.declared.sender.TheConstants.{CHANNEL};
ghost use Rattle.beep_steps.specs.Logs.{moments};
ghost use Rattle.beep_steps.specs.Refusing.{closing_by};
ghost use Rattle.beep_steps.specs.Resting.{AreShort, HasRepliedAt, HoldsStill, IsAwake, RestsAt};
ghost use Rattle.beep_steps.specs.Scripting.{ScriptedOn};
ghost use Rattle.beep_steps.specs.Sending.{at_first, went_by, SendsOn};

mod giving;
mod hearing;
mod noting;
mod taking;

use beep_steps::beep_chars::Text;
use beep_steps::beep_frame::{Head, MAX_PAYLOAD};
use beep_steps::beep_link::{BUFFER, End, Stop, takes_more};
use beep_steps::beep_octets::{NoMemory, Octets};
use beep_steps::beep_session::Session;
use beep_steps::beep_speaking::Emit;
use beep_steps::beep_wires::Sink;
use beep_steps::prof_raw::Entries;
use beep_steps::say_next;
use giving::{answer_some, close_channel};
use noting::{ends_lines, is_closing_by};
use std::alloc::Global;

/// The channel on which lines are sent.
const CHANNEL: u32 = 1;

/// The number of the close of that channel among the requests on channel zero, after the start.
const CLOSE: u32 = 2;

/// How many requests are asked when the start, the close and the release come.
const UNSTARTED: usize = 0;

const STARTED: usize = 1;

const CLOSED: usize = 2;

const RELEASED: usize = 3;

/// A session that sends.
#[derive(Drop)]
pub(crate) struct Sender<'l> {
    alloc: Global,
    session: Session,
    uri: &'l Text,
    lines: &'l Entries,
    next: usize,
    asked: usize,
    is_sent: bool,
    is_closing: bool,
    body: Octets,
    taken: Vec<u8>,
    ghost listed: { is_uri_text uri.now ≡ true },
    ghost room: { vec_len taken ≡ MAX_PAYLOAD },
}

impl<'l> Sender<'l> {
    ghost use Rattle.beep_sender.specs.Asking.{AsksClosing, AsksGone, AsksOn, AsksSaid};
    ghost use Rattle.beep_sender.specs.Sender.{plan_by, plan_of, progress_of, AsksBy, KeepsScriptingBy, KeepsSendingBy, ScriptsBy, ScriptsWaitingBy, SendsBy, SendsWaitingBy};

    /// A sender over a session in which nothing has happened, which asks for a profile.
    pub(crate) fn new(
        alloc: Global,
        session: Session,
        uri: &'l Text,
        lines: &'l Entries,
    ) -> Result<Sender<'l>, NoMemory>
        requires { is_uri_text uri.now ≡ true }
        ensures session { IfOk result (λ sender. sender.session ≡ session) }
        ensures plan { IfOk result (λ sender.
            plan_of sender ≡ plan_by session uri.now lines.now) }
        ensures fresh { IfOk result (λ sender. progress_of sender ≡ at_first) }
        ensures closing { IfOk result (λ sender. sender.is_closing ≡ false) }
    {
        let mut taken = Vec::new(alloc);
        taken.resize(MAX_PAYLOAD as usize, 0)?;
        Ok(Sender {
            alloc,
            session,
            uri,
            lines,
            next: 0,
            asked: UNSTARTED,
            is_sent: false,
            is_closing: false,
            body: Octets::new(alloc),
            taken,
        })
    }

    /// Does what that calls for which was said, and answers whether anything was.
    fn said(&mut self, said: Emit) -> Result<bool, NoMemory>
        ensures sends { (log : List Moment) → SendsOn (plan_of self.old)
            (went_by said (progress_of self.old)) self.old.session log
            → SendsBy self.new log }
        ensures scripted { (log : List Moment) → ScriptedOn (plan_of self.old)
            (went_by said (progress_of self.old)) self.old.session log
            → ScriptsBy self.new log }
        ensures asking { (log : List Moment) → ScriptedOn (plan_of self.old)
            (went_by said (progress_of self.old)) self.old.session log
            → AsksSaid (plan_of self.old) (progress_of self.old) said self.old.session log
            → OnOk result (AsksBy self.new log) }
        ensures rests { IfOk result (λ more. more ≡ false → (said ≡ EmitValue.Nothing)
            × (self.new.session ≡ self.old.session)) }
        ensures closing { self.new.is_closing ≡ closing_by said self.old.is_closing }
        ensures plan { plan_of self.new ≡ plan_of self.old }
    {
        match said {
            Emit::Data(head) => match self.went(&head) {
                Ok(()) => Ok(true),
                Err(NoMemory) => Err(NoMemory),
            },
            Emit::Seq(_) => Ok(true),
            Emit::Nothing => Ok(false),
        }
    }

    /// Does what a frame calls for that goes out: after the end of the lines the channel is
    /// closed.
    fn went(&mut self, head: &Head) -> Result<(), NoMemory>
        ensures sends { (log : List Moment) → SendsOn (plan_of self.old)
            (went_by (EmitValue.Data head.now) (progress_of self.old)) self.old.session log
            → SendsBy self.new log }
        ensures scripted { (log : List Moment) → ScriptedOn (plan_of self.old)
            (went_by (EmitValue.Data head.now) (progress_of self.old)) self.old.session log
            → ScriptsBy self.new log }
        ensures asking { (log : List Moment) → ScriptedOn (plan_of self.old)
            (went_by (EmitValue.Data head.now) (progress_of self.old)) self.old.session log
            → AsksGone (plan_of self.old) (progress_of self.old) head.now self.old.session log
            → OnOk result (AsksBy self.new log) }
        ensures closing { self.new.is_closing
            ≡ closing_by (EmitValue.Data head.now) self.old.is_closing }
        ensures plan { plan_of self.new ≡ plan_of self.old }
    {
        self.is_closing = is_closing_by(self.is_closing, head);
        if self.is_sent {
            return Ok(());
        }
        if !ends_lines(head) {
            return Ok(());
        }
        self.is_sent = true;
        self.close()
    }

    /// Asks for the close of the channel, where it is open and was started: once the end of the
    /// lines has gone.
    fn close(&mut self) -> Result<(), NoMemory>
        ensures sends { self.old.is_sent ≡ true → KeepsSendingBy self.old self.new }
        ensures scripted { self.old.is_sent ≡ true → KeepsScriptingBy self.old self.new }
        ensures asking { (log : List Moment) → self.old.is_sent ≡ true → ScriptsBy self.old log
            → AsksClosing (plan_of self.old) self.old.asked self.old.session log
            → OnOk result (AsksBy self.new log) }
        ensures closing { self.new.is_closing ≡ self.old.is_closing }
        ensures plan { plan_of self.new ≡ plan_of self.old }
    {
        if self.asked != STARTED {
            return Ok(());
        }
        match close_channel(&mut self.session) {
            Ok(true) => {
                self.asked = CLOSED;
                Ok(())
            }
            Ok(false) => Ok(()),
            Err(NoMemory) => Err(NoMemory),
        }
    }

    /// Replies as far as there is room, and answers whether anything was given.
    fn refill(&mut self) -> Result<bool, NoMemory>
        ensures sends { KeepsSendingBy self.old self.new }
        ensures scripted { KeepsScriptingBy self.old self.new }
        ensures asking { (log : List Moment) → AsksOn (plan_of self.old) self.old.session log
            → AsksOn (plan_of self.new) self.new.session log }
        ensures rests { IfOk result (λ given. given ≡ false → AreShort self.new.lines.now
            → HoldsStill self.old.session self.new.session
            × (IsAwake self.new.session → HasRepliedAt CHANNEL self.new.session)) }
        ensures closing { self.new.is_closing ≡ self.old.is_closing }
        ensures plan { plan_of self.new ≡ plan_of self.old }
    {
        answer_some(
            &mut self.session,
            self.lines,
            &mut self.next,
            &mut self.body,
        )
    }
}

impl End for Sender<'_> {
    ghost use Rattle.beep_sender.specs.Sender.{plan_of, progress_of, StandsBy};
    ghost use Rattle.beep_sender.specs.SenderTurning.{closes_asking, closes_scripting, ends_asking, idle_asking, quiets_asking, quiets_scripting, spends_scripting, stops_scripting, writes_asking, writes_scripting, TellsAsking};
    ghost use Rattle.beep_steps.specs.Turning.{closes_unrefused, faults_idle, quiets_unrefused, reads_idle, writes_unrefused};

    ghost Terms = { PlainPlan };

    ghost terms = { λ sender. plan_of sender };

    ghost stands = { λ sender log octets _. StandsBy sender (put_all octets (moments log)) };

    ghost tells = { λ plan ended log _. TellsAsking plan ended log };

    ghost goes = { λ sender. is_over sender.session.peer ≡ false };

    ghost rests = { λ sender. AreShort sender.lines.now → RestsAt CHANNEL sender.session };

    ghost writes = { λ one log front octets _ s. (
      (
        writes_scripting (plan_of one) (progress_of one) one.session log front octets s.0.0,
        writes_asking (plan_of one) one.session log front octets s.0.1,
      ),
      writes_unrefused Command.Send one.is_closing log front octets s.1,
    ) };

    ghost quiets = { λ one log _ s. (
      (
        quiets_scripting (plan_of one) (progress_of one) one.session log s.0.0,
        quiets_asking (plan_of one) one.session log s.0.1,
      ),
      quiets_unrefused Command.Send one.is_closing log s.1,
    ) };

    ghost closes = { λ one log _ s. (
      (
        closes_scripting (plan_of one) (progress_of one) one.session log s.0.0,
        closes_asking (plan_of one) one.session log s.0.1,
      ),
      closes_unrefused Command.Send one.is_closing log s.1,
    ) };

    ghost stops = { λ one log octets _ ended is s. (
      stops_scripting (plan_of one) (progress_of one) one.session
          (λ i. terms_of one.session) log octets ended is s.0.0 one.is_closing s.1,
      ends_asking (plan_of one) one.session log octets s.0.1,
      λ short. faults_idle (plan_of one) ended (moments log) is,
    ) };

    ghost spends = { λ one log _ ended is going rests s. (
      spends_scripting (plan_of one) (progress_of one) one.session
          (λ i. terms_of one.session) log ended is going s.0.0 one.is_closing s.1,
      ends_asking (plan_of one) one.session log [] s.0.1,
      λ short. reads_idle (plan_of one) ended (moments log) is
          (idle_asking (plan_of one) one.session (progress_of one) log s.0.0 s.0.1 (λ i. [])
          (λ i. one.session.limits.window) going (rests short)),
    ) };

    fn gather(&mut self, out: &mut Octets) -> Result<bool, NoMemory> {
        // What finds room now goes out with what waited: with one write, and not two.
        let _ = self.refill()?;
        for _ in 0..BUFFER {
            if !takes_more(out) {
                return Ok(true);
            }
            let said = say_next(&mut self.session, out);
            if !self.said(said)? {
                return self.refill();
            }
        }
        Ok(true)
    }

    fn hear<O: Sink>(&mut self, bytes: &[u8], _output: &mut O) -> Result<(), Stop>
        ensures heard { (log : List Entry) (text : List ℕ)
            → StandsBy self.old (moments log) → OnOk result
            (WithText (O.state _output.old).written (O.state _output.new).written
            (λ _. StandsBy self.new (moments (came bytes.now ∷ log)))) }
        ensures stopped { (log : List Entry) (text : List ℕ)
            → StandsBy self.old (moments log) → IfErr result (λ stop.
            WithText (O.state _output.old).written (O.state _output.new).written
            (λ _. TellsAsking (plan_of self.old) (ended_by stop) (came bytes.now ∷ log))) }
        ensures grew { Grows (O.state _output.old).written (O.state _output.new).written }
        ensures failed { IfErr result (λ stop. stop ≡ StopValue.WriteFault
            → Rose (O.state _output.old).faults (O.state _output.new).faults) }
        ensures terms { plan_of self.new ≡ plan_of self.old }
        ensures kept { (O.state _output.old).faults ≤ (O.state _output.new).faults }
    {
        self.hear_all(bytes)
    }

    fn over(&self) -> Option<Stop> {
        if !self.session.is_over() {
            return None;
        }
        Some(Stop::Released)
    }

    fn left(&self) -> u64 {
        self.session.left()
    }
}
