//! The acts of a schedule at one end (RFC 3080, sections 2.1 and 2.3.1).
ghost use Rattle.std.specs.Prelude.{◌≡◌, ◌<◌, [], true, false, length, IfOk, OnOk};
ghost use Rattle.beep_two_sessions.specs.beep_frame.specs.declared.kind.Kind.{Kind as KindValue};
ghost use Rattle.beep_two_sessions.specs.beep_decide.specs.Numbers.{may_start};
ghost use Rattle.beep_two_sessions.specs.beep_answering.specs.Sent.{is_uri};
ghost use Rattle.beep_two_sessions.specs.beep_peer.specs.Peering.{zero_waits};
ghost use Rattle.beep_two_sessions.specs.beep_session.specs.Lawfully.{KeepsUpright};
ghost use Rattle.beep_pair.specs.Acts.{Asks, Replies, Answers, Ends, ClosesChannel, Starts, Releases};

use beep_report::Answer;
use beep_two_sessions::beep_channel::AskError;
use beep_two_sessions::beep_chars::Text;
use beep_two_sessions::beep_octets::NoMemory;
use beep_two_sessions::beep_outbox::GiveError;
use beep_two_sessions::beep_session::{
    CloseError, Duty, ReleaseError, Session, StartError, one_profile,
};
use std::alloc::Global;

/// Starts a channel with the profile of this URI.
pub(crate) fn start(
    alloc: Global,
    session: &mut Session,
    n: u32,
    uri: &Text,
) -> Result<Answer, NoMemory>
    requires settled { zero_waits session.old.peer ≡ false }
    requires may { may_start session.old.role n ≡ true }
    requires valid { is_uri uri.now ≡ true }
    ensures answered { IfOk result (Starts uri.now n session.old session.new) }
    ensures upright { OnOk result (KeepsUpright session.old session.new) }
{
    let profiles = one_profile(alloc, uri)?;
    match session.start(n, &profiles) {
        Ok(()) => Ok(Answer::Done),
        Err(StartError::NoMemory) => Err(NoMemory),
        Err(cause) => Ok(Answer::Start(cause)),
    }
}

pub(crate) fn release(session: &mut Session) -> Result<Answer, NoMemory>
    requires settled { zero_waits session.old.peer ≡ false }
    ensures answered { IfOk result (Releases session.old session.new) }
    ensures upright { OnOk result (KeepsUpright session.old session.new) }
{
    match session.release() {
        Ok(()) => Ok(Answer::Done),
        Err(ReleaseError::NoMemory) => Err(NoMemory),
        Err(cause) => Ok(Answer::Release(cause)),
    }
}

pub(crate) fn ask(session: &mut Session, n: u32, octets: &[u8]) -> Result<Answer, NoMemory>
    requires settled { zero_waits session.old.peer ≡ false }
    ensures answered { IfOk result (Asks n octets.now session.old session.new) }
    ensures upright { OnOk result (KeepsUpright session.old session.new) }
{
    let Some(mut channel) = session.open_channel(n) else {
        return Ok(Answer::NoChannel);
    };
    match channel.ask(octets) {
        Ok(position) => Ok(Answer::Numbered(position)),
        Err(AskError::NoMemory) => Err(NoMemory),
        Err(cause) => Ok(Answer::Ask(cause)),
    }
}

pub(crate) fn close(session: &mut Session, n: u32) -> Result<Answer, NoMemory>
    requires settled { zero_waits session.old.peer ≡ false }
    ensures answered { IfOk result (ClosesChannel n session.old session.new) }
    ensures upright { OnOk result (KeepsUpright session.old session.new) }
{
    let Some(mut channel) = session.open_channel(n) else {
        return Ok(Answer::NoChannel);
    };
    match channel.try_close() {
        Ok(()) => Ok(Answer::Done),
        Err(CloseError::NoMemory) => Err(NoMemory),
        Err(cause) => Ok(Answer::Close(cause)),
    }
}

/// Replies with RPY.
pub(crate) fn reply(session: &mut Session, n: u32, octets: &[u8]) -> Result<Answer, NoMemory>
    requires settled { zero_waits session.old.peer ≡ false }
    ensures answered { IfOk result (Replies KindValue.Rpy n octets.now session.old session.new) }
    ensures upright { OnOk result (KeepsUpright session.old session.new) }
{
    if session.is_over() || !session.live(n) {
        return Ok(Answer::NoChannel);
    }
    match session.owed(n) {
        None => Ok(Answer::NotOwed),
        Some(Duty::Begun(_answering)) => Ok(Answer::Answering),
        Some(Duty::Fresh(owed)) => match owed.reply(octets) {
            Ok(()) => Ok(Answer::Done),
            Err((_owed, GiveError::NoMemory)) => Err(NoMemory),
            Err((_owed, cause)) => Ok(Answer::Give(cause)),
        },
    }
}

/// Replies with ERR.
pub(crate) fn refuse(session: &mut Session, n: u32, octets: &[u8]) -> Result<Answer, NoMemory>
    requires settled { zero_waits session.old.peer ≡ false }
    ensures answered { IfOk result (Replies KindValue.Err n octets.now session.old session.new) }
    ensures upright { OnOk result (KeepsUpright session.old session.new) }
{
    if session.is_over() || !session.live(n) {
        return Ok(Answer::NoChannel);
    }
    match session.owed(n) {
        None => Ok(Answer::NotOwed),
        Some(Duty::Begun(_answering)) => Ok(Answer::Answering),
        Some(Duty::Fresh(owed)) => match owed.refuse(octets) {
            Ok(()) => Ok(Answer::Done),
            Err((_owed, GiveError::NoMemory)) => Err(NoMemory),
            Err((_owed, cause)) => Ok(Answer::Give(cause)),
        },
    }
}

/// Gives one answer.
pub(crate) fn answer(session: &mut Session, n: u32, octets: &[u8]) -> Result<Answer, NoMemory>
    requires settled { zero_waits session.old.peer ≡ false }
    requires some { 0 < length octets.now }
    ensures answered { IfOk result (Answers n octets.now session.old session.new) }
    ensures upright { OnOk result (KeepsUpright session.old session.new) }
{
    if session.is_over() || !session.live(n) {
        return Ok(Answer::NoChannel);
    }
    let mut answering = match session.owed(n) {
        None => return Ok(Answer::NotOwed),
        Some(Duty::Fresh(owed)) => owed.answers(),
        Some(Duty::Begun(answering)) => answering,
    };
    match answering.answer(octets) {
        Ok(number) => Ok(Answer::Numbered(u64::from(number))),
        Err(GiveError::NoMemory) => Err(NoMemory),
        Err(cause) => Ok(Answer::Give(cause)),
    }
}

/// Gives the NUL.
pub(crate) fn done(session: &mut Session, n: u32) -> Result<Answer, NoMemory>
    requires settled { zero_waits session.old.peer ≡ false }
    ensures answered { IfOk result (Ends n session.old session.new) }
    ensures upright { OnOk result (KeepsUpright session.old session.new) }
{
    if session.is_over() || !session.live(n) {
        return Ok(Answer::NoChannel);
    }
    let answering = match session.owed(n) {
        None => return Ok(Answer::NotOwed),
        Some(Duty::Fresh(owed)) => owed.answers(),
        Some(Duty::Begun(answering)) => answering,
    };
    match answering.done() {
        Ok(()) => Ok(Answer::Done),
        Err((_answering, NoMemory)) => Err(NoMemory),
    }
}
