//! What the session's own program asks on channel zero (RFC 3080, sections 2.3.1.2 and 2.3.1.3).

use crate::listing::listed;
use beep_session::Session;
use beep_session::beep_chars::Text;
use session_lines::{Answer, Stop, URI, Words, of_close, of_release, of_start};
use std::alloc::Global;

/// Does an act on channel zero, where the words are one: `start NUMBER` and `start NUMBER LENGTH`
/// with a URI of so many characters, `close NUMBER`, `release`.
pub(crate) fn acts(
    alloc: Global,
    session: &mut Session,
    words: &Words<'_>,
) -> Result<Option<Answer>, Stop> {
    match words.act {
        "start" => Ok(Some(start(alloc, session, words.number, words.len)?)),
        "close" => Ok(Some(close(session, words.number))),
        "release" => Ok(Some(release(session))),
        _ => Ok(None),
    }
}

fn start(alloc: Global, session: &mut Session, number: u32, len: u32) -> Result<Answer, Stop> {
    let uri = uri_of(alloc, len)?;
    if !uri.is_allowed() || !session.may_start(number) || session.zero_waits() {
        return Ok(Answer::usage());
    }
    let profiles = listed(alloc, &uri)?;
    Ok(of_start(session.start(number, &profiles)))
}

/// The URI that both ends offer, or one of so many characters.
fn uri_of(alloc: Global, len: u32) -> Result<Text, Stop> {
    if len == 0 {
        return Ok(Text::of(alloc, URI)?);
    }
    let mut uri = Text::new(alloc);
    for _ in 0..len {
        uri.push('u')?;
    }
    Ok(uri)
}

fn close(session: &mut Session, number: u32) -> Answer {
    if session.zero_waits() {
        return Answer::usage();
    }
    match session.open_channel(number) {
        Some(mut channel) => of_close(channel.try_close()),
        None => Answer::Word("NoChannel"),
    }
}

fn release(session: &mut Session) -> Answer {
    if session.zero_waits() {
        return Answer::usage();
    }
    of_release(session.release())
}
