//! What the session's own program gives on a channel above zero (RFC 3080, section 2.1).

use beep_session::beep_octets::Octets;
use beep_session::{Duty, Session};
use session_lines::{Answer, Stop, Words, of_ask, of_give_error};
use std::alloc::Global;

/// What the octets of messages are copied from.
static FILL: [u8; 64] = [65; 64];

/// Gives a message, where the words say so: `ask NUMBER LENGTH`, and of the reply to the oldest
/// request that the channel owes one `reply NUMBER LENGTH`, `refuse NUMBER LENGTH` and `answer
/// NUMBER LENGTH`, and `done NUMBER` for the NUL. Each octet is an `A`.
pub(crate) fn gives(
    alloc: Global,
    session: &mut Session,
    words: &Words<'_>,
) -> Result<Option<Answer>, Stop> {
    let octets = message(alloc, words)?;
    let octets = octets.as_slice();
    Ok(match words.act {
        "ask" => Some(ask(session, words.number, octets)),
        "reply" => Some(reply(session, words.number, octets)),
        "refuse" => Some(refuse(session, words.number, octets)),
        "answer" => Some(answer(session, words.number, octets)),
        "done" => Some(done(session, words.number)),
        _ => None,
    })
}

/// The message of the words' length, where they give one.
fn message(alloc: Global, words: &Words<'_>) -> Result<Octets, Stop> {
    let mut octets = Octets::new(alloc);
    if !matches!(words.act, "ask" | "reply" | "refuse" | "answer") {
        return Ok(octets);
    }
    for _ in 0..words.len / 64 {
        octets.extend(&FILL)?;
    }
    if let Some(rest) = FILL.get(..(words.len % 64) as usize) {
        octets.extend(rest)?;
    }
    Ok(octets)
}

fn ask(session: &mut Session, number: u32, octets: &[u8]) -> Answer {
    if session.zero_waits() {
        return Answer::usage();
    }
    match session.open_channel(number) {
        Some(mut channel) => of_ask(channel.ask(octets)),
        None => Answer::Word("NoChannel"),
    }
}

fn reply(session: &mut Session, number: u32, octets: &[u8]) -> Answer {
    if session.zero_waits() || session.is_over() || !session.live(number) {
        return Answer::usage();
    }
    match session.owed(number) {
        None => Answer::Word("NotOwed"),
        Some(Duty::Begun(_answering)) => Answer::Word("Answering"),
        Some(Duty::Fresh(owed)) => match owed.reply(octets) {
            Ok(()) => Answer::Word("ok"),
            Err((_owed, error)) => of_give_error(error),
        },
    }
}

fn refuse(session: &mut Session, number: u32, octets: &[u8]) -> Answer {
    if session.zero_waits() || session.is_over() || !session.live(number) {
        return Answer::usage();
    }
    match session.owed(number) {
        None => Answer::Word("NotOwed"),
        Some(Duty::Begun(_answering)) => Answer::Word("Answering"),
        Some(Duty::Fresh(owed)) => match owed.refuse(octets) {
            Ok(()) => Answer::Word("ok"),
            Err((_owed, error)) => of_give_error(error),
        },
    }
}

/// Gives one answer, and answers its number.
fn answer(session: &mut Session, number: u32, octets: &[u8]) -> Answer {
    if session.zero_waits() || session.is_over() || !session.live(number) || octets.is_empty() {
        return Answer::usage();
    }
    let given = match session.owed(number) {
        None => return Answer::Word("NotOwed"),
        Some(Duty::Fresh(owed)) => {
            let mut answering = owed.answers();
            answering.answer(octets)
        }
        Some(Duty::Begun(mut answering)) => answering.answer(octets),
    };
    match given {
        Ok(ansno) => Answer::One("ok", u64::from(ansno)),
        Err(error) => of_give_error(error),
    }
}

/// Ends the answers, also where there are none.
fn done(session: &mut Session, number: u32) -> Answer {
    if session.zero_waits() || session.is_over() || !session.live(number) {
        return Answer::usage();
    }
    let given = match session.owed(number) {
        None => return Answer::Word("NotOwed"),
        Some(Duty::Fresh(owed)) => owed.answers().done().is_ok(),
        Some(Duty::Begun(answering)) => answering.done().is_ok(),
    };
    if given {
        Answer::Word("ok")
    } else {
        Answer::no_memory()
    }
}
