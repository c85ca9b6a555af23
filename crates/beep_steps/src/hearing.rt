//! What both ends do with a session. What each call wants is looked at beside it.
ghost use Rattle.std.specs.Prelude.{Bool, ◌≡◌, ◌<◌, ◌≤◌, ◌==◌, List, length, take, ℕ, false, true, is_some, IfOk, IfErr, IfNone, IfSome, OnOk};
ghost use Rattle.beep_session.specs.beep_octets.specs.Numbers.{numbers_32};
ghost use Rattle.beep_session.specs.beep_history.specs.Marks.{Mark};
ghost use Rattle.beep_session.specs.beep_journal.specs.Log.{Moment, got_all, put_all};
ghost use Rattle.beep_session.specs.beep_lives.specs.Lives.{live_at};
ghost use Rattle.beep_session.specs.beep_peer.specs.Peering.{zero_waits};
ghost use Rattle.beep_session.specs.Channels.{IsOpen};
ghost use Rattle.beep_session.specs.Lawfully.{terms_of};
ghost use Rattle.beep_link.specs.declared.end.TheConstants.{FRAME_ROOM};
ghost use Rattle.beep_link.specs.declared.ended.Stop.{Stop as StopValue};
ghost use Rattle.beep_steps.specs.Steps.{ComesSo, EndsSo, IsUntaken, SettledOn, SettlesBy, Spoke, StillStands, TookMost, TookNone, TookPart};
ghost use Rattle.beep_steps.specs.declared.hearing.Came.{Came as CameValue};
ghost use Rattle.beep_session.specs.beep_speaking.specs.declared.emit.Emit.{Emit as EmitValue};
ghost use Rattle.beep_steps.specs.Logs.{command_of, AreTaken, ComesOn, StandsOn, StaysOn, StopsOn, WaitsOn};
ghost use Rattle.beep_steps.specs.Scripting.{ComesScripting, KeepsScripting, ScriptedOn, ScriptedWaiting};
ghost use Rattle.beep_steps.specs.Sending.{went_by, ComesSending, KeepsSending, Progress, SendsOn, SendsWaiting, StopsSending};
ghost use Rattle.beep_steps.specs.Serving.{ComesServing, KeepsServing, ServesOn, ServesWaiting};
ghost use Rattle.beep_session.specs.beep_history.specs.declared.journal.Side.{Side};
ghost use Rattle.beep_session.specs.beep_history.specs.Journal.{passed};
ghost use Rattle.beep_steps.specs.Desking.{AsksSo, EndsLinesSo, ComesDesk, DesksOn, DesksWaiting, DesksWithin, SaidDesk};
ghost use Rattle.beep_steps.specs.Resting.{IsAwake, RestsAfter};
ghost use Rattle.beep_steps.specs.Speaking.{noted_by, ComesSpeaking, KeepsSpeaking, Notes, SpeaksGone, SpeaksOn, SpeaksWaiting};
ghost use Rattle.beep_steps.specs.Refusing.{closing_by, ComesUnrefused, IsUnrefused, RefusesOn, SettlesSo, Unrefused};
ghost use Rattle.beep_desk.specs.beep_talk.specs.declared.plan.Command.{Command};
ghost use Rattle.beep_desk.specs.beep_talk.specs.Plan.{PlainPlan};

use beep_link::{FRAME_ROOM, Stop};
use beep_session::beep_inbox::Part;
use beep_session::beep_octets::Octets;
use beep_session::beep_speaking::Emit;
use beep_session::{Event, MAX_PIECE, Session, SettleError, Settled};

/// What came of some octets.
#[derive(Clone, Copy, Debug)]
pub enum Came {
    /// They are all used.
    More,
    /// A frame arrived on this channel.
    Arrived(u32),
    /// A message of channel zero waits to be settled.
    Zero,
}

/// Appends what goes next, where nothing waits to be settled.
pub fn say_next(session: &mut Session, out: &mut Octets) -> Emit
    requires room { FRAME_ROOM ≤ out.old.spare }
    ensures said { (log : List Moment) → StandsOn session.old (put_all out.old.octets log)
        → StandsOn session.new (put_all out.new.octets log) }
    ensures sending { (plan : PlainPlan) (p : Progress) (log : List Moment)
        → SendsOn plan p session.old (put_all out.old.octets log)
        → SendsOn plan (went_by result p) session.new (put_all out.new.octets log) }
    ensures scripted { (plan : PlainPlan) (p : Progress) (log : List Moment)
        → ScriptedOn plan p session.old (put_all out.old.octets log)
        → ScriptedOn plan (went_by result p) session.new (put_all out.new.octets log) }
    ensures serving { (plan : PlainPlan) (log : List Moment)
        → ServesOn plan session.old (put_all out.old.octets log)
        → ServesOn plan session.new (put_all out.new.octets log) }
    ensures speaking { (plan : PlainPlan) (notes : Notes) (log : List Moment)
        → ServesOn plan session.old (put_all out.old.octets log)
        → SpeaksOn plan notes session.old (put_all out.old.octets log)
        → SpeaksGone plan notes session.new (put_all out.new.octets log) }
    ensures desk { (plan : PlainPlan) (notes : Notes) (log : List Moment)
        → ServesOn plan session.old (put_all out.old.octets log)
        → SpeaksOn plan notes session.old (put_all out.old.octets log)
        → DesksOn plan session.old (put_all out.old.octets log)
        → SaidDesk plan result session.new (put_all out.new.octets log) }
    ensures rests { (log : List Moment) → StandsOn session.old (put_all out.old.octets log)
        → RestsAfter result session.new }
    ensures asking { (plan : PlainPlan) (p : Progress) (log : List Moment)
        → ScriptedOn plan p session.old (put_all out.old.octets log)
        → DesksOn plan session.old (put_all out.old.octets log)
        → SaidDesk plan result session.new (put_all out.new.octets log) }
    ensures ends { (plan : PlainPlan) (p : Progress) (log : List Moment)
        (s : ScriptedOn plan p session.old (put_all out.old.octets log))
        → EndsLinesSo plan p result s.sends.on.journal }
    ensures spoke { (log : List Moment) (s : StandsOn session.old (put_all out.old.octets log))
        → Spoke result session.old session.new s.journal (put_all out.new.octets log) }
    ensures waiting { zero_waits session.old.peer ≡ true → (result ≡ EmitValue.Nothing)
        × (session.new ≡ session.old) × (out.new ≡ out.old) }
    ensures unrefused { (command : Command) (closing : Bool) (log : List Moment)
        → StandsOn session.old (put_all out.old.octets log)
        → IsUnrefused command closing (put_all out.old.octets log)
        → IsUnrefused command (closing_by result closing) (put_all out.new.octets log) }
    ensures terms { terms_of session.new ≡ terms_of session.old }
    ensures offers { session.new.offers ≡ session.old.offers }
{
    if session.zero_waits() {
        return Emit::Nothing;
    }
    session.emit(MAX_PIECE, out)
}

/// Uses octets up to the next event.
pub fn hear_next(session: &mut Session, bytes: &[u8]) -> Result<(usize, Came), Stop>
    ensures within { IfOk result (λ heard. heard.0 ≤ length bytes.now) }
    ensures heard { (log : List Moment) → StandsOn session.old log → IfOk result (λ heard.
        ComesOn heard.1 session.new (got_all (take heard.0 bytes.now) log)) }
    ensures sending { (plan : PlainPlan) (p : Progress) (log : List Moment)
        → SendsOn plan p session.old log → IfOk result (λ heard.
        ComesSending plan p heard.1 session.new (got_all (take heard.0 bytes.now) log)) }
    ensures scripted { (plan : PlainPlan) (p : Progress) (log : List Moment)
        → ScriptedOn plan p session.old log → IfOk result (λ heard.
        ComesScripting plan p heard.1 session.new (got_all (take heard.0 bytes.now) log)) }
    ensures serving { (plan : PlainPlan) (log : List Moment) → ServesOn plan session.old log
        → IfOk result (λ heard.
        ComesServing plan heard.1 session.new (got_all (take heard.0 bytes.now) log)) }
    ensures speaking { (plan : PlainPlan) (notes : Notes) (log : List Moment)
        → SpeaksOn plan notes session.old log → IfOk result (λ heard.
        ComesSpeaking plan notes heard.1 session.new
        (got_all (take heard.0 bytes.now) log)) }
    ensures desk { (plan : PlainPlan) (log : List Moment) → DesksOn plan session.old log
        → IfOk result (λ heard.
        ComesDesk plan heard.1 session.new (got_all (take heard.0 bytes.now) log)) }
    ensures stops { (plan : PlainPlan) (p : Progress) (log : List Moment)
        → plan.terms ≡ terms_of session.old → SendsOn plan p session.old log
        → IfErr result (λ stop.
        StopsSending plan stop (got_all bytes.now log)) }
    ensures stopped { (log : List Moment) → StandsOn session.old log → IfErr result (λ stop.
        StopsOn (terms_of session.old) stop (got_all bytes.now log)) }
    ensures more { (log : List Moment) → StandsOn session.old log → 0 < length bytes.now
        → IfOk result (λ heard. 0 < heard.0) }
    ensures came { (log : List Moment) (s : StandsOn session.old log) → IfOk result (λ heard.
        ComesSo heard.1 session.old session.new s.journal
        (got_all (take heard.0 bytes.now) log)) }
    ensures ends { (log : List Moment) (s : StandsOn session.old log) → IfErr result (λ stop.
        EndsSo stop s.journal (got_all bytes.now log)) }
    ensures unrefused { (command : Command) (closing : Bool) (log : List Moment)
        → StandsOn session.old log → IsUnrefused command closing log → IfOk result (λ heard.
        ComesUnrefused command closing heard.1 session.new
        (got_all (take heard.0 bytes.now) log)) }
    ensures refuses { (closing : Bool) (log : List Moment) → StandsOn session.old log
        → IsUnrefused (command_of session.old.role) closing log → IfErr result (λ stop.
        RefusesOn (terms_of session.old) stop (got_all bytes.now log)) }
    ensures going { IfOk result (λ heard. session.new.peer.released ≡ false) }
    ensures all { IfOk result (λ heard. heard.1 ≡ CameValue.More
        → heard.0 ≡ length bytes.now) }
    ensures memory { IfErr result (λ stop. stop ≡ StopValue.NoMemory
        → session.new.peer.released ≡ false) }
    ensures still { (log : List Moment) → StandsOn session.old log → IfErr result (λ stop.
        stop ≡ StopValue.NoMemory → StillStands session.new bytes.now log) }
    ensures failed { IfErr result (λ stop. stop ≡ StopValue.WriteFault → ⊥) }
    ensures terms { terms_of session.new ≡ terms_of session.old }
    ensures offers { session.new.offers ≡ session.old.offers }
{
    let (count, event) = session.feed(bytes);
    match event {
        Event::More => Ok((count, Came::More)),
        Event::Arrived(number) => Ok((count, Came::Arrived(number))),
        Event::Zero => Ok((count, Came::Zero)),
        Event::Released => Err(Stop::Released),
        Event::Broken(rule, place) => Err(Stop::Broken(rule, place)),
        Event::NoMemory => Err(Stop::NoMemory),
    }
}

/// Takes what has arrived on a channel, as much as `buf` holds.
#[inline(always)]
pub fn take_part(session: &mut Session, number: u32, buf: &mut [u8]) -> Option<Part>
    requires some { 0 < length buf.old }
    requires fits { length buf.old < numbers_32 }
    ensures stays { StaysOn session.old session.new }
    ensures serving { (plan : PlainPlan) → KeepsServing plan session.old session.new }
    ensures speaking { (plan : PlainPlan) (notes : Notes)
        → KeepsSpeaking plan notes notes session.old session.new }
    ensures desk { (plan : PlainPlan) (notes : Notes) (log : List Moment)
        → ServesOn plan session.old log → SpeaksOn plan notes session.old log
        → DesksWithin plan session.old log → DesksWithin plan session.new log }
    ensures asking { (plan : PlainPlan) (p : Progress) (log : List Moment)
        → ScriptedOn plan p session.old log
        → DesksWithin plan session.old log → DesksWithin plan session.new log }
    ensures sending { (plan : PlainPlan) (p : Progress)
        → KeepsSending plan p p session.old session.new }
    ensures scripted { (plan : PlainPlan) (p : Progress)
        → KeepsScripting plan p p session.old session.new }
    ensures part { (log : List Moment) (left : List Mark) → StandsOn session.old log
        → (number == 0) ≡ false → IsUntaken number left session.old
        → IfSome result (λ part. TookPart number part buf.new left session.new) }
    ensures most { IfSome result (λ part.
        TookMost number part buf.old buf.new session.old session.new) }
    ensures none { (log : List Moment) → StandsOn session.old log
        → session.old.peer.released ≡ false → (number == 0) ≡ false
        → IfNone result (TookNone number session.old session.new) }
    ensures within { IfSome result (λ part. part.len ≤ length buf.new) }
    ensures length { length buf.new ≡ length buf.old }
{
    if session.zero_waits() {
        return None;
    }
    if let Some(mut channel) = session.open_channel(number) {
        return channel.take(buf);
    }
    if let Some(mut channel) = session.closing_channel(number) {
        return channel.take(buf);
    }
    None
}

/// Settles the message of channel zero that waits.
pub fn settle_message(session: &mut Session) -> Result<Settled, Stop>
    requires waits { zero_waits session.old.peer ≡ true }
    ensures settled { (log : List Moment) → WaitsOn session.old log
        → OnOk result (StandsOn session.new log) }
    ensures sending { (plan : PlainPlan) (p : Progress) (log : List Moment)
        → SendsWaiting plan p session.old log → OnOk result (SendsOn plan p session.new log) }
    ensures scripted { (plan : PlainPlan) (p : Progress) (log : List Moment)
        → ScriptedWaiting plan p session.old log
        → OnOk result (ScriptedOn plan p session.new log) }
    ensures serving { (plan : PlainPlan) (log : List Moment)
        → ServesWaiting plan session.old log → OnOk result (ServesOn plan session.new log) }
    ensures speaking { (plan : PlainPlan) (notes : Notes) (log : List Moment)
        → ServesWaiting plan session.old log → SpeaksWaiting plan notes session.old log
        → IfOk result (λ settled. SpeaksOn plan (noted_by settled notes) session.new log) }
    ensures desk { (plan : PlainPlan) (notes : Notes) (log : List Moment)
        → ServesWaiting plan session.old log → SpeaksWaiting plan notes session.old log
        → DesksWaiting plan session.old log → AreTaken session.old
        → OnOk result (DesksOn plan session.new log) }
    ensures asking { (plan : PlainPlan) (p : Progress) (log : List Moment)
        → ScriptedWaiting plan p session.old log → DesksWaiting plan session.old log
        → OnOk result (DesksWithin plan session.new log) }
    ensures asks { (plan : PlainPlan) (p : Progress) (log : List Moment)
        (w : SendsWaiting plan p session.old log) → IfOk result (λ settled.
        AsksSo p.asked settled (passed Side.Received w.on.head w.on.payload) w.on.journal) }
    ensures settles { (log : List Moment) (w : WaitsOn session.old log)
        → IfOk result (SettlesBy session.old w.head w.payload w.journal) }
    ensures stopped { (log : List Moment) (octets : List ℕ) → WaitsOn session.old log
        → IfErr result (λ stop. StopsOn (terms_of session.old) stop (got_all octets log)) }
    ensures done { (log : List Moment) (w : WaitsOn session.old log) → OnOk result
        (SettledOn session.old session.new w.head w.payload w.journal log) }
    ensures refuses { (command : Command) (closing : Bool) (log : List Moment)
        (w : WaitsOn session.old log) → Unrefused command closing w.journal
        → IfOk result (λ settled. SettlesSo command closing settled log) }
    ensures unrefusing { (closing : Bool) (log : List Moment) (octets : List ℕ)
        (w : WaitsOn session.old log) → Unrefused (command_of session.old.role) closing w.journal
        → IfErr result (λ stop. RefusesOn (terms_of session.old) stop (got_all octets log)) }
    ensures ends { (log : List Moment) (octets : List ℕ) (w : WaitsOn session.old log)
        → IfErr result (λ stop. EndsSo stop w.journal (got_all octets log)) }
    ensures failed { IfErr result (λ stop. stop ≡ StopValue.WriteFault → ⊥) }
    ensures going { IfErr result (λ stop. stop ≡ StopValue.Released → ⊥) }
    ensures terms { terms_of session.new ≡ terms_of session.old }
    ensures offers { session.new.offers ≡ session.old.offers }
{
    match session.settle() {
        Ok(settled) => Ok(settled),
        Err(SettleError::Broken(rule, place)) => Err(Stop::Broken(rule, place)),
        Err(SettleError::NoMemory) => Err(Stop::NoMemory),
    }
}

/// Whether a channel above zero is live and nothing waits to be settled.
pub fn is_open(session: &Session, number: u32) -> bool
    ensures open { result ≡ true → IsOpen number session.now }
    ensures shut { (number == 0) ≡ false → IsAwake session.now → result ≡ false
        → is_some (live_at number session.now.peer.lives) ≡ false }
{
    !session.zero_waits() && !session.is_over() && session.live(number)
}
