//! What a session answers of itself.

use beep_session::{Duty, Session};
use session_lines::{Answer, Words};

/// What a session answers of itself, where the words ask it: `live NUMBER`, `over`, `may`,
/// `untaken` and `between` a yes or no, `left` a number.
pub(crate) fn looks(session: &Session, words: &Words<'_>) -> Option<Answer> {
    let is = match words.act {
        "left" => return Some(Answer::Number(session.left())),
        "live" => session.live(words.number),
        "over" => session.is_over(),
        "may" => session.may_emit(),
        "untaken" => session.has_untaken(),
        "between" => session.between_frames(),
        _ => return None,
    };
    Some(Answer::of_test(is))
}

/// Whether a channel is lent, where the words ask it: `open NUMBER` and `closing NUMBER` a yes or
/// no, `owed NUMBER` what is owed there.
pub(crate) fn lends(session: &mut Session, words: &Words<'_>) -> Option<Answer> {
    match words.act {
        "open" => Some(open(session, words.number)),
        "closing" => Some(closing(session, words.number)),
        "owed" => Some(owed(session, words.number)),
        _ => None,
    }
}

fn open(session: &mut Session, number: u32) -> Answer {
    if session.zero_waits() {
        return Answer::usage();
    }
    Answer::of_test(session.open_channel(number).is_some())
}

fn closing(session: &mut Session, number: u32) -> Answer {
    if session.zero_waits() {
        return Answer::usage();
    }
    Answer::of_test(session.closing_channel(number).is_some())
}

fn owed(session: &mut Session, number: u32) -> Answer {
    if session.zero_waits() || session.is_over() || !session.live(number) {
        return Answer::Word("NoChannel");
    }
    match session.owed(number) {
        None => Answer::Word("nothing"),
        Some(Duty::Fresh(_)) => Answer::Word("fresh"),
        Some(Duty::Begun(_)) => Answer::Word("begun"),
    }
}
