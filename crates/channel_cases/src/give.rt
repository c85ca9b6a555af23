//! Messages that are given at one end.
ghost use Rattle.std.specs.Prelude.{◌≢◌};

use beep_channel::{AskError, Channel};
use beep_frame::Kind;
use beep_octets::Octets;
use beep_outbox::GiveError;
use case_lines::{Bad, put_number, put_word};

/// Gives each message of a text, `MSG:hello;MSG:`.
pub(crate) fn give_all(from: &mut Channel, messages: &str) -> Result<(), Bad> {
    for message in messages.split(';') {
        give(from, message)?;
    }
    Ok(())
}

/// Gives one message.
fn give(from: &mut Channel, message: &str) -> Result<(), Bad> {
    let Some((word, text)) = message.split_once(':') else {
        return Err(Bad::Field);
    };
    if from.number() == 0 {
        return Err(Bad::Field);
    }
    match word {
        "MSG" => ask(from, text.as_bytes()),
        "RPY" => reply(from, text.as_bytes()),
        "ERR" => refuse(from, text.as_bytes()),
        "ANS" => answer(from, text.as_bytes()),
        "NUL" => done(from),
        _ => Err(Bad::Field),
    }
}

fn ask(from: &mut Channel, octets: &[u8]) -> Result<(), Bad>
    requires { from.old.held.number ≢ 0 }
{
    match from.give_ask(octets) {
        Ok(_) => Ok(()),
        Err(_) => Err(Bad::Field),
    }
}

/// Gives a reply to a request that is owed one.
fn reply(from: &mut Channel, octets: &[u8]) -> Result<(), Bad>
    requires { from.old.held.number ≢ 0 }
{
    if from.first_owed().is_none() || from.begun_answers().is_some() {
        return Err(Bad::Field);
    }
    sent(from.give_reply(Kind::Rpy, octets))
}

fn refuse(from: &mut Channel, octets: &[u8]) -> Result<(), Bad>
    requires { from.old.held.number ≢ 0 }
{
    if from.first_owed().is_none() || from.begun_answers().is_some() {
        return Err(Bad::Field);
    }
    sent(from.give_reply(Kind::Err, octets))
}

fn answer(from: &mut Channel, octets: &[u8]) -> Result<(), Bad>
    requires { from.old.held.number ≢ 0 }
{
    if from.first_owed().is_none() || octets.is_empty() {
        return Err(Bad::Field);
    }
    sent(from.give_reply(Kind::Ans, octets))
}

fn done(from: &mut Channel) -> Result<(), Bad>
    requires { from.old.held.number ≢ 0 }
{
    if from.first_owed().is_none() {
        return Err(Bad::Field);
    }
    sent(from.give_reply(Kind::Nul, b""))
}

fn sent(answer: Result<(), GiveError>) -> Result<(), Bad> {
    match answer {
        Ok(()) => Ok(()),
        Err(_) => Err(Bad::Field),
    }
}

/// Why a request is refused.
pub(crate) fn put_refusal(error: AskError, out: &mut Octets) -> Result<(), Bad> {
    match error {
        AskError::Full { queued, limit } => {
            put_word("full", out)?;
            put_number(queued as u64, out)?;
            put_number(limit as u64, out)?;
        }
        AskError::Closing => put_word("closing", out)?,
        AskError::TooManyAsked => put_word("too many", out)?,
        AskError::NoMemory => return Err(Bad::NoMemory),
    }
    Ok(())
}
