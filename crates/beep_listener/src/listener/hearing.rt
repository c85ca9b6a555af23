//! What a listener does with octets that come.
ghost use Rattle.std.specs.Prelude.{◌≡◌, ◌≤◌, ◌<◌, ◌++◌, ◌||◌, false, List, length, take, ℕ, None, IfErr, IfOk, OnErr, OnOk};
ghost use Rattle.beep_steps.specs.beep_wires.specs.Counts.{Rose};
ghost use Rattle.beep_steps.specs.beep_inbox.specs.Laws.{part_marks};
ghost use Rattle.beep_steps.specs.beep_journal.specs.Log.{Moment, got_all};
ghost use Rattle.beep_steps.specs.beep_session.specs.Lawfully.{terms_of};
ghost use Rattle.beep_steps.specs.beep_link.specs.Causes.{Grows, WithText};
ghost use Rattle.beep_steps.specs.beep_link.specs.declared.ended.Stop.{Stop as StopValue};
ghost use Rattle.beep_lines.specs.Bodies.{body_of, IsOver};
ghost use Rattle.beep_lines.specs.Lines.{lines_of, GathersAll, GathersSome};
ghost use Rattle.beep_steps.specs.beep_frame.specs.declared.limits.TheConstants.{MAX_PAYLOAD};
ghost use Rattle.beep_listener.specs.Listening.{is_first, is_gathered, part_lines, plan_of, Listens, ListensTaking, ListensWaiting, PartOf, UnrefusedOn, UnrefusedWaiting, WritesLines};
ghost use Rattle.beep_steps.specs.Logs.{AreTaken, SaysNothing, StandsOn, StaysOn, StopsOn, WaitsOn};
ghost use Rattle.beep_steps.specs.Refusing.{refused_so, IsOtherStop, RefusesOn, RefusesWith};
ghost use Rattle.beep_steps.specs.Serving.{KeepsServing, ServesOn, ServesWaiting};
ghost use Rattle.beep_steps.specs.beep_talk.specs.declared.plan.Command.{Command};
ghost use Rattle.beep_steps.specs.beep_talk.specs.Plan.{PlainPlan};

use super::Listener;
use crate::pruning::prune;
use beep_steps::beep_frame::Kind;
use beep_steps::beep_inbox::Part;
use beep_steps::beep_link::Stop;
use beep_steps::beep_octets::NoMemory;
use beep_steps::beep_session::Settled;
use beep_steps::beep_wires::Sink;
use beep_steps::{Came, denial, hear_next, settle_message, take_part};

impl Listener {
    ghost use Rattle.beep_steps.specs.Speaking.{closes_all};
    ghost use Rattle.beep_listener.specs.Speaking.{notes_of, SpeaksBy, SpeaksWaitingBy, TakesBy};

    /// Uses all octets, unless the session ends. Each event uses one at least.
    pub(super) fn hear_all<O: Sink>(&mut self, bytes: &[u8], output: &mut O) -> Result<(), Stop>
        ensures heard { (log : List Moment) (text : List ℕ) → Listens self.old.session
            self.old.bodies self.old.lines.octets.octets log text → OnOk result
            (WithText (O.state output.old).written (O.state output.new).written
            (λ more. Listens self.new.session self.new.bodies self.new.lines.octets.octets
            (got_all bytes.now log) (text ++ more))) }
        ensures stopped { (log : List Moment) (text : List ℕ) → Listens self.old.session
            self.old.bodies self.old.lines.octets.octets log text → IfErr result (λ stop.
            StopsOn (terms_of self.old.session) stop (got_all bytes.now log)) }
        ensures wrote { (log : List Moment) (text : List ℕ) → Listens self.old.session
            self.old.bodies self.old.lines.octets.octets log text → IfErr result (λ stop.
            WithText (O.state output.old).written (O.state output.new).written
            (λ more. WritesLines (plan_of self.old.session) (is_gathered stop)
            (got_all bytes.now log) ((text ++ more) ++ self.new.lines.octets.octets))) }
        ensures serving { (plan : PlainPlan) (log : List Moment)
            → ServesOn plan self.old.session log
            → OnOk result (ServesOn plan self.new.session (got_all bytes.now log)) }
        ensures speaking { (plan : PlainPlan) (log : List Moment) (text : List ℕ)
            → Listens self.old.session self.old.bodies self.old.lines.octets.octets log text
            → ServesOn plan self.old.session log → SpeaksBy plan self.old log
            → OnOk result (SpeaksBy plan self.new (got_all bytes.now log)) }
        ensures unrefused { (log : List Moment) → UnrefusedOn self.old.session log
            → OnOk result (UnrefusedOn self.new.session (got_all bytes.now log)) }
        ensures refuses { (log : List Moment) → UnrefusedOn self.old.session log
            → IfErr result (λ stop.
            RefusesOn (terms_of self.old.session) stop (got_all bytes.now log)) }
        ensures plan { plan_of self.new.session ≡ plan_of self.old.session }
        ensures grew { Grows (O.state output.old).written (O.state output.new).written }
        ensures failed { IfErr result (λ stop. stop ≡ StopValue.WriteFault
            → Rose (O.state output.old).faults (O.state output.new).faults) }
        ensures kept { (O.state output.old).faults ≤ (O.state output.new).faults }
    {
        let mut at = 0;
        for _ in 0..bytes.len() {
            if bytes.len() <= at {
                return Ok(());
            }
            match self.hear_some(&bytes[at..], output) {
                Ok(count) => at += count,
                Err(stop) => return Err(stop),
            }
        }
        Ok(())
    }

    /// Uses octets up to the next event, and does what it calls for.
    fn hear_some<O: Sink>(&mut self, bytes: &[u8], output: &mut O) -> Result<usize, Stop>
        ensures within { IfOk result (λ n. n ≤ length bytes.now) }
        ensures heard { (log : List Moment) (text : List ℕ) → Listens self.old.session
            self.old.bodies self.old.lines.octets.octets log text → IfOk result (λ n.
            WithText (O.state output.old).written (O.state output.new).written
            (λ more. Listens self.new.session self.new.bodies self.new.lines.octets.octets
            (got_all (take n bytes.now) log) (text ++ more))) }
        ensures stopped { (log : List Moment) → StandsOn self.old.session log
            → IfErr result (λ stop.
            StopsOn (terms_of self.old.session) stop (got_all bytes.now log)) }
        ensures more { (log : List Moment) → StandsOn self.old.session log
            → 0 < length bytes.now → IfOk result (λ n. 0 < n) }
        ensures wrote { (log : List Moment) (text : List ℕ) → Listens self.old.session
            self.old.bodies self.old.lines.octets.octets log text → IfErr result (λ stop.
            WithText (O.state output.old).written (O.state output.new).written
            (λ more. WritesLines (plan_of self.old.session) (is_gathered stop)
            (got_all bytes.now log) ((text ++ more) ++ self.new.lines.octets.octets))) }
        ensures serving { (plan : PlainPlan) (log : List Moment)
            → ServesOn plan self.old.session log → IfOk result (λ n.
            ServesOn plan self.new.session (got_all (take n bytes.now) log)) }
        ensures speaking { (plan : PlainPlan) (log : List Moment) (text : List ℕ)
            → Listens self.old.session self.old.bodies self.old.lines.octets.octets log text
            → ServesOn plan self.old.session log → SpeaksBy plan self.old log → IfOk result
            (λ n. SpeaksBy plan self.new (got_all (take n bytes.now) log)) }
        ensures unrefused { (log : List Moment) → UnrefusedOn self.old.session log
            → IfOk result (λ n.
            UnrefusedOn self.new.session (got_all (take n bytes.now) log)) }
        ensures refuses { (log : List Moment) → UnrefusedOn self.old.session log
            → IfErr result (λ stop.
            RefusesOn (terms_of self.old.session) stop (got_all bytes.now log)) }
        ensures plan { plan_of self.new.session ≡ plan_of self.old.session }
        ensures grew { Grows (O.state output.old).written (O.state output.new).written }
        ensures failed { IfErr result (λ stop. stop ≡ StopValue.WriteFault
            → Rose (O.state output.old).faults (O.state output.new).faults) }
        ensures kept { (O.state output.old).faults ≤ (O.state output.new).faults }
    {
        let (count, came) = hear_next(&mut self.session, bytes)?;
        match came {
            Came::More => Ok(count),
            Came::Arrived(number) => match self.take_all(number, output) {
                Ok(()) => Ok(count),
                Err(stop) => Err(stop),
            },
            Came::Zero => match self.settle() {
                Ok(()) => Ok(count),
                Err(stop) => Err(stop),
            },
        }
    }

    /// Settles what waits, and does what it calls for.
    fn settle(&mut self) -> Result<(), Stop>
        ensures settled { (log : List Moment) (text : List ℕ) → ListensWaiting self.old.session
            self.old.bodies self.old.lines.octets.octets log text → OnOk result
            (Listens self.new.session self.new.bodies self.new.lines.octets.octets log text) }
        ensures stopped { (log : List Moment) (octets : List ℕ)
            → WaitsOn self.old.session log → IfErr result (λ stop.
            StopsOn (terms_of self.old.session) stop (got_all octets log)) }
        ensures wrote { (log : List Moment) (octets text : List ℕ) → ListensWaiting
            self.old.session self.old.bodies self.old.lines.octets.octets log text
            → IfErr result (λ stop. WritesLines (plan_of self.old.session)
            (is_gathered stop) (got_all octets log)
            (text ++ self.new.lines.octets.octets)) }
        ensures serving { (plan : PlainPlan) (log : List Moment)
            → ServesWaiting plan self.old.session log
            → OnOk result (ServesOn plan self.new.session log) }
        ensures speaking { (plan : PlainPlan) (log : List Moment)
            → ServesWaiting plan self.old.session log → AreTaken self.old.session
            → SpeaksWaitingBy plan self.old log → OnOk result (SpeaksBy plan self.new log) }
        ensures unrefused { (log : List Moment) → UnrefusedWaiting self.old.session log
            → OnOk result (UnrefusedOn self.new.session log) }
        ensures refuses { (log : List Moment) (octets : List ℕ)
            → UnrefusedWaiting self.old.session log → IfErr result (λ stop.
            RefusesOn (terms_of self.old.session) stop (got_all octets log)) }
        ensures plan { plan_of self.new.session ≡ plan_of self.old.session }
        ensures failed { IfErr result (λ stop. stop ≡ StopValue.WriteFault → ⊥) }
    {
        if !self.session.zero_waits() {
            return Ok(());
        }
        let settled = match settle_message(&mut self.session) {
            Ok(settled) => settled,
            Err(stop) => return Err(stop),
        };
        prune(&mut self.bodies, &self.session);
        self.does(settled)
    }

    /// Does what a message calls for that was settled.
    fn does(&mut self, settled: Settled) -> Result<(), Stop>
        ensures session { self.new.session ≡ self.old.session }
        ensures spoken { self.new.spoken ≡ self.old.spoken }
        ensures leaving { OnOk result
            ((closes_all settled || self.old.leaving) ≡ self.new.leaving) }
        ensures bodies { self.new.bodies ≡ self.old.bodies }
        ensures lines { self.new.lines ≡ self.old.lines }
        ensures stopped { IfErr result (λ stop. SaysNothing stop) }
        ensures unrefused { OnOk result (refused_so Command.Listen false settled ≡ None) }
        ensures refuses { IfErr result (λ stop.
            RefusesWith (refused_so Command.Listen false settled) stop) }
        ensures failed { IfErr result (λ stop. stop ≡ StopValue.WriteFault → ⊥) }
    {
        if let Some(code) = denial(&settled) {
            return Err(Stop::Refused(code));
        }
        match settled {
            Settled::PeerCloses { number, .. } => {
                self.leaving = number == 0 || self.leaving;
                Ok(())
            }
            Settled::Released
            | Settled::Greeted
            | Settled::Denied(_)
            | Settled::Begun { .. }
            | Settled::NotBegun { .. }
            | Settled::PeerStarts { .. }
            | Settled::PeerRefused { .. }
            | Settled::Closed { .. }
            | Settled::NotClosed { .. }
            | Settled::Stale(_) => Ok(()),
        }
    }

    /// Takes all that has arrived on a channel. A frame is one part of a message, or several, and
    /// the end of its message is its last mark. A request that it ends waits for its refusal.
    fn take_all<O: Sink>(&mut self, number: u32, output: &mut O) -> Result<(), Stop>
        ensures stays { StaysOn self.old.session self.new.session }
        ensures serving { (plan : PlainPlan)
            → KeepsServing plan self.old.session self.new.session }
        ensures speaking { (plan : PlainPlan) (log : List Moment)
            → ServesOn plan self.old.session log → TakesBy plan self.old log
            → TakesBy plan self.new log }
        ensures taken { (log : List Moment) (text : List ℕ) → ListensTaking number 0
            self.old.session self.old.bodies self.old.lines.octets.octets log text → OnOk result
            (WithText (O.state output.old).written (O.state output.new).written
            (λ more. Listens self.new.session self.new.bodies self.new.lines.octets.octets log
            (text ++ more))) }
        ensures wrote { (log : List Moment) (text : List ℕ) → ListensTaking number 0
            self.old.session self.old.bodies self.old.lines.octets.octets log text → OnErr result
            (WithText (O.state output.old).written (O.state output.new).written
            (λ more. WritesLines (plan_of self.old.session) false log
            ((text ++ more) ++ self.new.lines.octets.octets))) }
        ensures stopped { IfErr result (λ stop. SaysNothing stop) }
        ensures unrefusing { IfErr result (λ stop. IsOtherStop stop) }
        ensures grew { Grows (O.state output.old).written (O.state output.new).written }
        ensures failed { IfErr result (λ stop. stop ≡ StopValue.WriteFault
            → Rose (O.state output.old).faults (O.state output.new).faults) }
        ensures kept { (O.state output.old).faults ≤ (O.state output.new).faults }
    {
        for _ in 0..u32::MAX {
            let Some(part) = take_part(&mut self.session, number, self.taken.as_mut_slice()) else {
                return Ok(());
            };
            let is_last = part.ended;
            self.took(number, part, output)?;
            if is_last {
                return Ok(());
            }
        }
        Ok(())
    }

    /// Uses a part that was taken: one of an answer to the first request goes on with it, or ends
    /// it.
    fn took<O: Sink>(&mut self, number: u32, part: Part, output: &mut O) -> Result<(), Stop>
        requires within { part.len ≤ MAX_PAYLOAD }
        ensures session { self.new.session ≡ self.old.session }
        ensures notes { notes_of self.new ≡ notes_of self.old }
        ensures bodies { OnOk result (PartOf number (part_marks part self.old.taken.items)
            self.old.bodies self.new.bodies) }
        ensures ok { OnOk result (GathersAll (O.state output.old).written
            (O.state output.new).written self.old.lines.octets.octets
            (part_lines number part self.old.taken.items self.old.bodies)
            self.new.lines.octets.octets) }
        ensures err { OnErr result (GathersSome (O.state output.old).written
            (O.state output.new).written self.old.lines.octets.octets
            (part_lines number part self.old.taken.items self.old.bodies)
            self.new.lines.octets.octets) }
        ensures stopped { IfErr result (λ stop. SaysNothing stop) }
        ensures unrefusing { IfErr result (λ stop. IsOtherStop stop) }
        ensures grew { Grows (O.state output.old).written (O.state output.new).written }
        ensures failed { IfErr result (λ stop. stop ≡ StopValue.WriteFault
            → Rose (O.state output.old).faults (O.state output.new).faults) }
        ensures kept { (O.state output.old).faults ≤ (O.state output.new).faults }
    {
        if !is_first_answer(&part) {
            return Ok(());
        }
        let count = part.len as usize;
        if part.ended {
            return self.finish(number, part.tag.ansno, count, output);
        }
        match self
            .bodies
            .extend(number, part.tag.ansno, &self.taken[..count])
        {
            Ok(()) => Ok(()),
            Err(NoMemory) => Err(Stop::NoMemory),
        }
    }

    /// Adds the last octets of an answer, so many of those that were taken, and writes its lines.
    fn finish<O: Sink>(
        &mut self,
        number: u32,
        ansno: u32,
        count: usize,
        output: &mut O,
    ) -> Result<(), Stop>
        requires within { count ≤ MAX_PAYLOAD }
        ensures session { self.new.session ≡ self.old.session }
        ensures notes { notes_of self.new ≡ notes_of self.old }
        ensures bodies { OnOk result (IsOver number ansno self.old.bodies self.new.bodies) }
        ensures ok { OnOk result (GathersAll (O.state output.old).written
            (O.state output.new).written self.old.lines.octets.octets
            (lines_of (body_of number ansno self.old.bodies ++ take count self.old.taken.items))
            self.new.lines.octets.octets) }
        ensures err { OnErr result (GathersSome (O.state output.old).written
            (O.state output.new).written self.old.lines.octets.octets
            (lines_of (body_of number ansno self.old.bodies ++ take count self.old.taken.items))
            self.new.lines.octets.octets) }
        ensures stopped { IfErr result (λ stop. SaysNothing stop) }
        ensures unrefusing { IfErr result (λ stop. IsOtherStop stop) }
        ensures grew { Grows (O.state output.old).written (O.state output.new).written }
        ensures failed { IfErr result (λ stop. stop ≡ StopValue.WriteFault
            → Rose (O.state output.old).faults (O.state output.new).faults) }
        ensures kept { (O.state output.old).faults ≤ (O.state output.new).faults }
    {
        if self.bodies.octets(number, ansno).is_empty() {
            let put = self.lines.put(&self.taken[..count], output);
            self.bodies.end(number, ansno);
            return put;
        }
        let Ok(()) = self.bodies.extend(number, ansno, &self.taken[..count]) else {
            return Err(Stop::NoMemory);
        };
        let put = self.lines.put(self.bodies.octets(number, ansno), output);
        self.bodies.end(number, ansno);
        put
    }
}

/// Whether a part is of an answer to the first request of its channel.
fn is_first_answer(part: &Part) -> bool
    ensures { result ≡ is_first part.now.tag }
{
    match part.tag.kind {
        Kind::Ans => part.tag.request == 0,
        Kind::Msg | Kind::Rpy | Kind::Err | Kind::Nul => false,
    }
}
