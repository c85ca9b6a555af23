//! What a listener says on its channels: it asks for lines, and refuses what is asked (RFC 3195,
//! section 3.1).
ghost use Rattle.std.specs.Prelude.{◌≡◌, ◌≢◌, ◌≤◌, ◌==◌, ◌||◌, true, false, ℕ, List, length, IfNone, IfOk, IfSome, OnOk};
ghost use Rattle.beep_steps.specs.beep_history.specs.declared.limits.TheConstants.{MAX_MESSAGE};
ghost use Rattle.beep_steps.specs.beep_journal.specs.Log.{Moment};
ghost use Rattle.beep_steps.specs.beep_mgmt.specs.Form.{fault};
ghost use Rattle.beep_steps.specs.beep_mgmt.specs.Message.{message_text};
ghost use Rattle.beep_steps.specs.beep_decide.specs.Decide.{is_among, note_of};
ghost use Rattle.beep_steps.specs.beep_outbox.specs.declared.give_error.GiveError.{GiveError as GiveErrorValue};
ghost use Rattle.beep_steps.specs.beep_talk.specs.Plan.{PlainPlan};
ghost use Rattle.beep_steps.specs.beep_peer.specs.Standing.{live_above};
ghost use Rattle.beep_steps.specs.Logs.{StaysOn};
ghost use Rattle.beep_steps.specs.Desking.{DesksOn, DesksWithin};
ghost use Rattle.beep_steps.specs.Resting.{HasRepliedAt, HoldsStill, IsAwake};
ghost use Rattle.beep_steps.specs.Speaking.{KeepsSpeaking, Notes, SpeaksNew, SpeaksOn};
ghost use Rattle.beep_steps.specs.Serving.{KeepsServing, ServesOn};

use beep_steps::beep_channel::AskError;
use beep_steps::beep_chars::Text;
use beep_steps::beep_mgmt::{Mgmt, NOT_TAKEN, write_mgmt};
use beep_steps::beep_octets::{NoMemory, Octets};
use beep_steps::beep_outbox::GiveError;
use beep_steps::beep_session::{Duty, Session};
use beep_steps::is_open;
use std::alloc::Global;

/// What a listener asks on each channel: an empty MIME header and a word of its own.
const READY: &[u8] = b"\r\nready\r\n";

/// The message that refuses a request, with code 550.
pub(crate) fn refusal_text(alloc: Global) -> Result<Octets, NoMemory>
    ensures { IfOk result (λ text. text.octets ≡ message_text (fault 550 (note_of 550))) }
{
    let note = Text::of(alloc, "requested action not taken")?;
    let mut text = Octets::new(alloc);
    write_mgmt(
        &Mgmt::Fault {
            code: NOT_TAKEN,
            note,
        },
        &mut text,
    )?;
    Ok(text)
}

/// Puts the numbers of the live channels above zero in place of those that are there.
pub(crate) fn list_live(session: &Session, numbers: &mut Vec<u32>) -> Result<(), NoMemory>
    ensures { OnOk result (numbers.new.items ≡ live_above session.now.peer) }
{
    numbers.clear();
    while let Some(number) = session.number_at(numbers.len()) {
        let Ok(()) = numbers.push(number) else {
            return Err(NoMemory);
        };
    }
    Ok(())
}

/// The first of these numbers that isn't among the others.
pub(crate) fn first_other(numbers: &[u32], others: &[u32]) -> Option<u32>
    ensures some { IfSome result (λ n. (is_among n numbers.now ≡ true)
        × (is_among n others.now ≡ false)) }
    ensures none { IfNone result ((n : ℕ) → is_among n numbers.now ≡ true
        → is_among n others.now ≡ true) }
{
    for i in 0..numbers.len() {
        if !has_number(others, numbers[i]) {
            return Some(numbers[i]);
        }
    }
    None
}

/// Whether a number is one of these.
fn has_number(numbers: &[u32], number: u32) -> bool
    ensures { result ≡ is_among number numbers.now }
{
    numbers.contains(&number)
}

/// Asks for lines on a channel. In a life that has just begun nothing refuses that.
pub(crate) fn ask_lines(session: &mut Session, number: u32) -> Result<(), NoMemory>
    ensures stays { StaysOn session.old session.new }
    ensures serving { (plan : PlainPlan) → KeepsServing plan session.old session.new }
    ensures speaking { (plan : PlainPlan) (notes : Notes) (log : List Moment)
        → ServesOn plan session.old log → SpeaksNew plan notes number session.old log
        → notes.leaving ≡ false
        → OnOk result (SpeaksOn plan notes session.new log) }
    ensures desk { (plan : PlainPlan) (log : List Moment)
        → DesksWithin plan session.old log → DesksWithin plan session.new log }
{
    if session.zero_waits() {
        return Ok(());
    }
    let Some(mut channel) = session.open_channel(number) else {
        return Ok(());
    };
    match channel.ask(READY) {
        Ok(_) => Ok(()),
        Err(AskError::NoMemory) => Err(NoMemory),
        Err(AskError::Closing | AskError::TooManyAsked | AskError::Full { .. }) => Ok(()),
    }
}

/// Refuses the oldest request of each of these channels that finds room, and answers whether any
/// did.
pub(crate) fn refuse_each(
    session: &mut Session,
    numbers: &[u32],
    refusal: &[u8],
) -> Result<bool, NoMemory>
    ensures stays { StaysOn session.old session.new }
    ensures serving { (plan : PlainPlan) → KeepsServing plan session.old session.new }
    ensures speaking { (plan : PlainPlan) (notes : Notes) → notes.spoken ≡ numbers.now
        → refusal.now ≡ message_text (fault 550 (note_of 550))
        → KeepsSpeaking plan notes notes session.old session.new }
    ensures desk { (plan : PlainPlan) (log : List Moment)
        → DesksOn plan session.old log → DesksOn plan session.new log }
    ensures rests { length refusal.now ≤ MAX_MESSAGE → IfOk result (λ given. given ≡ false
        → HoldsStill session.old session.new × (IsAwake session.new → (n : ℕ)
        → (n == 0) ≡ false → is_among n numbers.now ≡ true → HasRepliedAt n session.new)) }
{
    let mut is_given = false;
    for i in 0..numbers.len() {
        let is_refused = refuse_oldest(session, numbers[i], refusal)?;
        is_given = is_any(is_given, is_refused);
    }
    Ok(is_given)
}

/// Whether the one or the other holds.
fn is_any(one: bool, other: bool) -> bool
    ensures { result ≡ (one || other) }
{
    one || other
}

/// Refuses the oldest request of a channel, and answers whether there was one that found room.
fn refuse_oldest(session: &mut Session, number: u32, refusal: &[u8]) -> Result<bool, NoMemory>
    ensures stays { StaysOn session.old session.new }
    ensures serving { (plan : PlainPlan) → KeepsServing plan session.old session.new }
    ensures speaking { (plan : PlainPlan) (notes : Notes) → is_among number notes.spoken ≡ true
        → refusal.now ≡ message_text (fault 550 (note_of 550))
        → KeepsSpeaking plan notes notes session.old session.new }
    ensures desk { (plan : PlainPlan) (log : List Moment)
        → DesksOn plan session.old log → DesksOn plan session.new log }
    ensures rests { length refusal.now ≤ MAX_MESSAGE → IfOk result (λ given. given ≡ false
        → HoldsStill session.old session.new × (IsAwake session.new
        → (number == 0) ≡ false → HasRepliedAt number session.new)) }
{
    if !is_open(session, number) {
        return Ok(false);
    }
    match session.owed(number) {
        None => Ok(false),
        Some(Duty::Fresh(owed)) => match owed.refuse(refusal) {
            Ok(()) => Ok(true),
            Err((_owed, error)) => found_no_room(error),
        },
        Some(Duty::Begun(answering)) => match answering.done() {
            Ok(()) => Ok(true),
            Err((_answering, NoMemory)) => Err(NoMemory),
        },
    }
}

/// Nothing was given where a message waits for room, and not for memory.
fn found_no_room(error: GiveError) -> Result<bool, NoMemory>
    ensures { IfOk result (λ given. error ≢ GiveErrorValue.NoMemory) }
{
    match error {
        GiveError::Full { .. } => Ok(false),
        GiveError::NoMemory => Err(NoMemory),
    }
}
