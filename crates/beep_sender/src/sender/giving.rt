//! What a sender gives on its channel: lines, their end, and its close (RFC 3195, section 3.1).
ghost use Rattle.std.specs.Prelude.{◌≡◌, ◌<◌, ◌≤◌, slice_get, false, length, List, Some, true, IfOk, OnOk};
ghost use Rattle.beep_steps.specs.beep_journal.specs.Life.{is_there};
ghost use Rattle.beep_steps.specs.beep_journal.specs.Log.{Moment};
ghost use Rattle.beep_steps.specs.beep_peer.specs.Peering.{is_over};
ghost use Rattle.beep_steps.specs.prof_raw.specs.declared.line.TheConstants.{ENTRY_MAX};
ghost use Rattle.beep_steps.specs.beep_talk.specs.Plan.{PlainPlan};
ghost use Rattle.beep_steps.specs.beep_session.specs.Lawfully.{terms_of};
ghost use Rattle.beep_steps.specs.beep_session.specs.Lending.{answering_number, answering_session, duty_number, duty_session, IsSameReference};
ghost use Rattle.beep_sender.specs.declared.sender.TheConstants.{CHANNEL, STARTED};
ghost use Rattle.beep_sender.specs.Asking.{AsksOn, KeepsAsking};
ghost use Rattle.beep_steps.specs.Desking.{AsksClose, DesksWithin};
ghost use Rattle.beep_steps.specs.Logs.{AreTaken};
ghost use Rattle.beep_steps.specs.Resting.{AreShort, HasRepliedAt, HoldsStill, IsAwake, IsFullAt};
ghost use Rattle.beep_steps.specs.Scripting.{KeepsScripting, ScriptedOn};
ghost use Rattle.beep_steps.specs.Sending.{at_next, if_closed, if_given, KeepsSending, Progress};

use super::CHANNEL;
use beep_steps::beep_octets::{NoMemory, Octets};
use beep_steps::beep_outbox::GiveError;
use beep_steps::beep_session::{Answering, CloseError, Duty, Session};
use beep_steps::is_open;
use beep_steps::prof_raw::{Entries, entry_body};

/// Asks for the close of the channel, where it is open, and answers whether it did.
pub(super) fn close_channel(session: &mut Session) -> Result<bool, NoMemory>
    ensures sends { (plan : PlainPlan) (p : Progress) → p.asked ≡ STARTED → p.is_sent ≡ true
        → KeepsSending plan p (if_closed result p) session.old session.new }
    ensures scripted { (plan : PlainPlan) (p : Progress) → p.asked ≡ STARTED → p.is_sent ≡ true
        → KeepsScripting plan p (if_closed result p) session.old session.new }
    ensures asking { (plan : PlainPlan) (p : Progress) (log : List Moment)
        (d : DesksWithin plan session.old log) → ScriptedOn plan p session.old log
        → p.asked ≡ STARTED → p.is_sent ≡ true → AreTaken session.old
        → AsksClose plan d.item d.before
        → IfOk result (λ given. given ≡ true → AsksOn plan session.new log) }
    ensures given { (plan : PlainPlan) (p : Progress) (log : List Moment)
        (s : ScriptedOn plan p session.old log) → p.asked ≡ STARTED
        → is_over session.old.peer ≡ false → is_there 1 s.sends.on.journal ≡ true
        → IfOk result (λ given. given ≡ true) }
    ensures terms { terms_of session.new ≡ terms_of session.old }
{
    if session.zero_waits() {
        return Ok(false);
    }
    let Some(mut channel) = session.open_channel(CHANNEL) else {
        return Ok(false);
    };
    match channel.try_close() {
        Ok(()) => Ok(true),
        Err(CloseError::NoMemory) => Err(NoMemory),
        Err(CloseError::Busy(_)) => Ok(false),
        Err(CloseError::TooManyAsked) => Ok(false),
    }
}

/// Answers the oldest request with lines from the next on, as far as there is room, and after the
/// last with the NUL. The result is whether anything was given.
pub(super) fn answer_some(
    session: &mut Session,
    lines: &Entries,
    next: &mut usize,
    body: &mut Octets,
) -> Result<bool, NoMemory>
    ensures sends { (plan : PlainPlan) (p : Progress) → plan.lines ≡ lines.now
        → p.next ≡ next.old
        → KeepsSending plan p (at_next next.new p) session.old session.new }
    ensures scripted { (plan : PlainPlan) (p : Progress) → plan.lines ≡ lines.now
        → p.next ≡ next.old
        → KeepsScripting plan p (at_next next.new p) session.old session.new }
    ensures asking { (plan : PlainPlan) → KeepsAsking plan session.old session.new }
    ensures rests { IfOk result (λ given. given ≡ false → AreShort lines.now
        → HoldsStill session.old session.new
        × (IsAwake session.new → HasRepliedAt CHANNEL session.new)) }
    ensures terms { terms_of session.new ≡ terms_of session.old }
{
    if !is_open(session, CHANNEL) {
        return Ok(false);
    }
    let Some(duty) = session.owed(CHANNEL) else {
        return Ok(false);
    };
    let from = *next;
    let mut answering = begun(duty);
    give_lines(&mut answering, lines, next, body)?;
    if *next < lines.len() {
        return Ok(from < *next);
    }
    match answering.done() {
        Ok(()) => Ok(true),
        Err((_answering, NoMemory)) => Err(NoMemory),
    }
}

/// The request as one to which answers are given.
fn begun(duty: Duty<'_>) -> Answering<'_>
    ensures same_reference { IsSameReference (duty_session duty.entry) (answering_session result) }
    ensures same { ((answering_session result).now ≡ (duty_session duty.entry).now)
        × (answering_number result ≡ duty_number duty.entry) }
{
    match duty {
        Duty::Fresh(owed) => owed.answers(),
        Duty::Begun(answering) => answering,
    }
}

/// Gives an answer for each line from the next on, as many as find room.
fn give_lines(
    answering: &mut Answering<'_>,
    lines: &Entries,
    next: &mut usize,
    body: &mut Octets,
) -> Result<(), NoMemory>
    ensures same { ((answering_session answering.new).ghost_name
        ≡ (answering_session answering.old).ghost_name)
        × (answering_number answering.new ≡ answering_number answering.old) }
    ensures sends { (plan : PlainPlan) (p : Progress) → plan.lines ≡ lines.now
        → p.next ≡ next.old → answering_number answering.old ≡ CHANNEL
        → KeepsSending plan p (at_next next.new p)
        (answering_session answering.old).now (answering_session answering.new).now }
    ensures scripted { (plan : PlainPlan) (p : Progress) → plan.lines ≡ lines.now
        → p.next ≡ next.old → answering_number answering.old ≡ CHANNEL
        → KeepsScripting plan p (at_next next.new p)
        (answering_session answering.old).now (answering_session answering.new).now }
    ensures asking { (plan : PlainPlan) → KeepsAsking plan
        (answering_session answering.old).now (answering_session answering.new).now }
    ensures rests { OnOk result (AreShort lines.now → next.new ≤ next.old
        → next.new < length lines.now → IsFullAt (answering_number answering.old)
        (answering_session answering.old).now (answering_session answering.new).now) }
    ensures terms { terms_of (answering_session answering.new).now
        ≡ terms_of (answering_session answering.old).now }
{
    while *next < lines.len() {
        let Some(line) = lines.get(*next) else {
            return Ok(());
        };
        if !give_line(answering, line, body)? {
            return Ok(());
        }
        *next += 1;
    }
    Ok(())
}

/// Gives the answer of a line. The result is whether there was room.
fn give_line(
    answering: &mut Answering<'_>,
    line: &[u8],
    body: &mut Octets,
) -> Result<bool, NoMemory>
    ensures same { ((answering_session answering.new).ghost_name
        ≡ (answering_session answering.old).ghost_name)
        × (answering_number answering.new ≡ answering_number answering.old) }
    ensures sends { (plan : PlainPlan) (p : Progress) → slice_get plan.lines p.next ≡ Some line.now
        → answering_number answering.old ≡ CHANNEL
        → KeepsSending plan p (if_given result p)
        (answering_session answering.old).now (answering_session answering.new).now }
    ensures scripted { (plan : PlainPlan) (p : Progress)
        → slice_get plan.lines p.next ≡ Some line.now
        → answering_number answering.old ≡ CHANNEL
        → KeepsScripting plan p (if_given result p)
        (answering_session answering.old).now (answering_session answering.new).now }
    ensures asking { (plan : PlainPlan) → KeepsAsking plan
        (answering_session answering.old).now (answering_session answering.new).now }
    ensures rests { IfOk result (λ given. given ≡ false → length line.now ≤ ENTRY_MAX
        → IsFullAt (answering_number answering.old)
        (answering_session answering.old).now (answering_session answering.new).now) }
    ensures terms { terms_of (answering_session answering.new).now
        ≡ terms_of (answering_session answering.old).now }
{
    body.clear();
    entry_body(line, body)?;
    if body.is_empty() {
        return Ok(false);
    }
    match answering.answer(body.as_slice()) {
        Ok(_) => Ok(true),
        Err(GiveError::Full { .. }) => Ok(false),
        Err(GiveError::NoMemory) => Err(NoMemory),
    }
}
