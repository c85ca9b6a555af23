//! What a listener does as messages come and go: it asks for lines on each channel, and writes the
//! lines of each answer (RFC 3195, section 3.1).
ghost use Rattle.std.specs.Prelude.{◌≡◌, ◌≤◌, ◌∷◌, ◌++◌, ◌==◌, [], ℕ, List, vec_len, true, false, IfErr, IfOk, OnOk};
ghost use Rattle.beep_steps.specs.beep_wires.specs.Counts.{Rose};
ghost use Rattle.beep_steps.specs.beep_wires.specs.Log.{Entry, read as came};
ghost use Rattle.beep_steps.specs.beep_journal.specs.Log.{Moment, put_all};
ghost use Rattle.beep_steps.specs.beep_peer.specs.Peering.{is_over};
ghost use Rattle.beep_steps.specs.beep_mgmt.specs.Form.{fault};
ghost use Rattle.beep_steps.specs.beep_mgmt.specs.Message.{message_text};
ghost use Rattle.beep_steps.specs.beep_decide.specs.Decide.{note_of};
ghost use Rattle.beep_steps.specs.beep_talk.specs.Plan.{PlainPlan};
ghost use Rattle.beep_steps.specs.beep_link.specs.Causes.{ended_by, Grows, WithText};
ghost use Rattle.beep_steps.specs.beep_link.specs.declared.end.TheConstants.{FRAME_ROOM};
ghost use Rattle.beep_steps.specs.beep_link.specs.declared.ended.Stop.{Stop as StopValue};
ghost use Rattle.beep_steps.specs.beep_frame.specs.declared.limits.TheConstants.{MAX_PAYLOAD};
ghost use Rattle.beep_listener.specs.Listening.{plan_of, Listens, UnrefusedOn};
ghost use Rattle.beep_steps.specs.Logs.{moments, AreTaken, StandsOn, StaysOn};
ghost use Rattle.beep_steps.specs.Resting.{HoldsStill};
ghost use Rattle.beep_steps.specs.Serving.{KeepsServing, ServesOn};

mod hearing;

use crate::asking::{ask_lines, first_other, list_live, refusal_text, refuse_each};
use crate::pruning::prune;
use beep_lines::{Bodies, Lines};
use beep_steps::beep_frame::MAX_PAYLOAD;
use beep_steps::beep_link::{BUFFER, End, Stop, takes_more};
use beep_steps::beep_octets::{NoMemory, Octets};
use beep_steps::beep_session::Session;
use beep_steps::beep_speaking::Emit;
use beep_steps::beep_wires::Sink;
use beep_steps::say_next;
use std::alloc::Global;
use std::mem::swap;

/// A session that listens. It notes the numbers of the live channels, in which it said what is to
/// be said first, and whether the peer has asked to close the session.
#[derive(Drop)]
pub(crate) struct Listener {
    session: Session,
    refusal: Octets,
    spoken: Vec<u32>,
    live: Vec<u32>,
    leaving: bool,
    bodies: Bodies,
    taken: Vec<u8>,
    lines: Lines,
    ghost room: { vec_len taken ≡ MAX_PAYLOAD },
    ghost refuses: { refusal.octets ≡ message_text (fault 550 (note_of 550)) },
}

impl Listener {
    ghost use Rattle.beep_steps.specs.Speaking.{no_notes};
    ghost use Rattle.beep_listener.specs.Speaking.{notes_of, KeepsSpeakingBy, RepliesOn, RestsOn, SaysOn, SpeaksBy, SpeaksGoneBy, SpeaksNewBy, TakesBy};

    /// A listener over a session in which nothing has happened.
    pub(crate) fn new(alloc: Global, session: Session) -> Result<Listener, NoMemory>
        ensures session { IfOk result (λ listener. listener.session ≡ session) }
        ensures bodies { IfOk result (λ listener. listener.bodies ≡ []) }
        ensures lines { IfOk result (λ listener. listener.lines.octets.octets ≡ []) }
        ensures notes { IfOk result (λ listener. notes_of listener ≡ no_notes) }
    {
        let mut taken = Vec::new(alloc);
        taken.resize(MAX_PAYLOAD as usize, 0)?;
        Ok(Listener {
            session,
            refusal: refusal_text(alloc)?,
            spoken: Vec::new(alloc),
            live: Vec::new(alloc),
            leaving: false,
            bodies: Bodies::new(alloc),
            taken,
            lines: Lines::new(alloc)?,
        })
    }

    /// Says what goes next, does what that calls for, and answers whether anything was said.
    fn say(&mut self, out: &mut Octets) -> Result<bool, NoMemory>
        requires room { FRAME_ROOM ≤ out.old.spare }
        ensures listens { (log : List Moment) (text : List ℕ)
            → Listens self.old.session self.old.bodies self.old.lines.octets.octets
            (put_all out.old.octets log) text
            → Listens self.new.session self.new.bodies self.new.lines.octets.octets
            (put_all out.new.octets log) text }
        ensures serving { (plan : PlainPlan) (log : List Moment)
            → ServesOn plan self.old.session (put_all out.old.octets log)
            → ServesOn plan self.new.session (put_all out.new.octets log) }
        ensures speaking { (plan : PlainPlan) (log : List Moment)
            → ServesOn plan self.old.session (put_all out.old.octets log)
            → AreTaken self.old.session → SpeaksBy plan self.old (put_all out.old.octets log)
            → OnOk result (SpeaksBy plan self.new (put_all out.new.octets log)) }
        ensures unrefused { (log : List Moment)
            → UnrefusedOn self.old.session (put_all out.old.octets log)
            → UnrefusedOn self.new.session (put_all out.new.octets log) }
        ensures rests { (log : List Moment)
            → StandsOn self.old.session (put_all out.old.octets log)
            → IfOk result (λ said. said ≡ false → SaysOn self.new.session) }
        ensures plan { plan_of self.new.session ≡ plan_of self.old.session }
        ensures lines { self.new.lines ≡ self.old.lines }
    {
        match say_next(&mut self.session, out) {
            Emit::Data(head) => {
                if head.channel != 0 {
                    return Ok(true);
                }
                prune(&mut self.bodies, &self.session);
                self.begun()?;
                Ok(true)
            }
            Emit::Seq(_) => Ok(true),
            Emit::Nothing => Ok(false),
        }
    }

    /// Says what goes next, or refuses what waits where nothing goes, and answers whether it did
    /// either.
    fn say_or_refuse(&mut self, out: &mut Octets) -> Result<bool, NoMemory>
        requires room { FRAME_ROOM ≤ out.old.spare }
        ensures listens { (log : List Moment) (text : List ℕ)
            → Listens self.old.session self.old.bodies self.old.lines.octets.octets
            (put_all out.old.octets log) text
            → Listens self.new.session self.new.bodies self.new.lines.octets.octets
            (put_all out.new.octets log) text }
        ensures serving { (plan : PlainPlan) (log : List Moment)
            → ServesOn plan self.old.session (put_all out.old.octets log)
            → ServesOn plan self.new.session (put_all out.new.octets log) }
        ensures speaking { (plan : PlainPlan) (log : List Moment)
            → ServesOn plan self.old.session (put_all out.old.octets log)
            → AreTaken self.old.session → SpeaksBy plan self.old (put_all out.old.octets log)
            → OnOk result (SpeaksBy plan self.new (put_all out.new.octets log)) }
        ensures unrefused { (log : List Moment)
            → UnrefusedOn self.old.session (put_all out.old.octets log)
            → UnrefusedOn self.new.session (put_all out.new.octets log) }
        ensures rests { (log : List Moment)
            → StandsOn self.old.session (put_all out.old.octets log)
            → IfOk result (λ done. done ≡ false → RestsOn (notes_of self.new) self.new.session) }
        ensures plan { plan_of self.new.session ≡ plan_of self.old.session }
        ensures lines { self.new.lines ≡ self.old.lines }
    {
        if self.say(out)? {
            return Ok(true);
        }
        self.refill()
    }

    /// Does what a frame of channel zero calls for that went out. Where it begins a life, and it
    /// begins one at most, the lines are asked for.
    fn begun(&mut self) -> Result<(), NoMemory>
        ensures stays { StaysOn self.old.session self.new.session }
        ensures serving { (plan : PlainPlan)
            → KeepsServing plan self.old.session self.new.session }
        ensures speaking { (plan : PlainPlan) (log : List Moment)
            → ServesOn plan self.old.session log → AreTaken self.old.session
            → SpeaksGoneBy plan self.old log → OnOk result (SpeaksBy plan self.new log) }
        ensures bodies { self.new.bodies ≡ self.old.bodies }
        ensures lines { self.new.lines ≡ self.old.lines }
    {
        list_live(&self.session, &mut self.live)?;
        let begun = first_other(self.live.as_slice(), self.spoken.as_slice());
        swap(&mut self.spoken, &mut self.live);
        match begun {
            Some(number) => self.speak_first(number),
            None => Ok(()),
        }
    }

    /// Asks for lines in a life that begins. Once the peer has asked to close the session nothing
    /// is asked.
    fn speak_first(&mut self, number: u32) -> Result<(), NoMemory>
        ensures stays { StaysOn self.old.session self.new.session }
        ensures serving { (plan : PlainPlan)
            → KeepsServing plan self.old.session self.new.session }
        ensures speaking { (plan : PlainPlan) (log : List Moment)
            → ServesOn plan self.old.session log → SpeaksNewBy plan number self.old log
            → OnOk result (TakesBy plan self.new log) }
        ensures bodies { self.new.bodies ≡ self.old.bodies }
        ensures lines { self.new.lines ≡ self.old.lines }
    {
        if self.leaving {
            return Ok(());
        }
        ask_lines(&mut self.session, number)
    }

    /// Refuses the oldest request of each channel, where there is room, and answers whether any
    /// was refused.
    fn refill(&mut self) -> Result<bool, NoMemory>
        ensures stays { StaysOn self.old.session self.new.session }
        ensures serving { (plan : PlainPlan)
            → KeepsServing plan self.old.session self.new.session }
        ensures speaking { (plan : PlainPlan) → KeepsSpeakingBy plan self.old self.new }
        ensures rests { IfOk result (λ given. given ≡ false
            → HoldsStill self.old.session self.new.session
            × RepliesOn (notes_of self.new) self.new.session) }
        ensures bodies { self.new.bodies ≡ self.old.bodies }
        ensures lines { self.new.lines ≡ self.old.lines }
    {
        refuse_each(
            &mut self.session,
            self.spoken.as_slice(),
            self.refusal.as_slice(),
        )
    }
}

impl End for Listener {
    ghost use Rattle.beep_listener.specs.Speaking.{notes_of, RestsOn};
    ghost use Rattle.beep_listener.specs.SpeakingTurning.{ListensScripted, TellsScripted, closes_scripted, quiets_scripted, spends_scripted, stops_scripted, writes_scripted};

    ghost Terms = { PlainPlan };

    ghost terms = { λ listener. plan_of listener.session };

    ghost stands = { λ one log octets text. ListensScripted one.session one.bodies
        one.lines.octets.octets (notes_of one) (put_all octets (moments log)) text };

    ghost tells = { λ plan ended log text. TellsScripted plan ended log text };

    ghost goes = { λ listener. is_over listener.session.peer ≡ false };

    ghost rests = { λ listener. RestsOn (notes_of listener) listener.session };

    ghost writes = { λ one log front octets text s. writes_scripted one.session one.bodies
        one.lines.octets.octets (notes_of one) log front octets text s };

    ghost quiets = { λ one log text s. quiets_scripted one.session one.bodies
        one.lines.octets.octets (notes_of one) log text s };

    ghost closes = { λ one log text s. closes_scripted one.session one.bodies
        one.lines.octets.octets (notes_of one) log text s };

    ghost stops = { λ one log octets text ended is s. stops_scripted one.session one.bodies
        one.lines.octets.octets (notes_of one) log octets text s ended is };

    ghost spends = { λ one log text ended is going rests s. spends_scripted one.session
        one.bodies one.lines.octets.octets (notes_of one) log text s ended is going rests };

    fn gather(&mut self, out: &mut Octets) -> Result<bool, NoMemory> {
        for _ in 0..BUFFER {
            if !takes_more(out) {
                return Ok(true);
            }
            if !self.say_or_refuse(out)? {
                return Ok(false);
            }
        }
        Ok(true)
    }

    fn hear<O: Sink>(&mut self, bytes: &[u8], output: &mut O) -> Result<(), Stop>
        ensures heard { (log : List Entry) (text : List ℕ) → ListensScripted self.old.session
            self.old.bodies self.old.lines.octets.octets (notes_of self.old) (moments log) text
            → OnOk result
            (WithText (O.state output.old).written (O.state output.new).written
            (λ more. ListensScripted self.new.session self.new.bodies
            self.new.lines.octets.octets (notes_of self.new)
            (moments (came bytes.now ∷ log)) (text ++ more))) }
        ensures stopped { (log : List Entry) (text : List ℕ) → ListensScripted self.old.session
            self.old.bodies self.old.lines.octets.octets (notes_of self.old) (moments log) text
            → IfErr result (λ stop.
            WithText (O.state output.old).written (O.state output.new).written
            (λ more. TellsScripted (plan_of self.old.session) (ended_by stop)
            (came bytes.now ∷ log) (text ++ more))) }
        ensures grew { Grows (O.state output.old).written (O.state output.new).written }
        ensures failed { IfErr result (λ stop. stop ≡ StopValue.WriteFault
            → Rose (O.state output.old).faults (O.state output.new).faults) }
        ensures terms { plan_of self.new.session ≡ plan_of self.old.session }
        ensures kept { (O.state output.old).faults ≤ (O.state output.new).faults }
    {
        let heard = self.hear_all(bytes, output);
        match self.lines.flush(output) {
            Ok(()) => heard,
            Err(stop) => Err(stop),
        }
    }

    fn over(&self) -> Option<Stop> {
        if !self.session.is_over() {
            return None;
        }
        Some(Stop::Released)
    }

    fn left(&self) -> u64 {
        self.session.left()
    }
}
