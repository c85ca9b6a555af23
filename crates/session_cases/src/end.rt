//! One end: its session, what it hears, and what it says.

use crate::acts::acts;
use crate::gives::gives;
use crate::hearing::{Ear, Read, hear};
use crate::looks::{lends, looks};
use crate::saying::{Said, note_said, note_whole, say};
use crate::takes::take;
use beep_session::beep_octets::Octets;
use beep_session::{MAX_PIECE, Session};
use session_lines::{Answer, Speech, Stop, Words};
use std::alloc::Global;

/// The most frames that go out in a row.
const FRAMES: usize = 4096;

/// A session, its peer that is played by hand, and what it sent that the other end hasn't heard.
#[derive(Drop)]
pub(crate) struct End {
    alloc: Global,
    session: Session,
    speech: Speech,
    ear: Ear,
    out: Octets,
    wire: Octets,
}

impl End {
    /// An end that has said nothing.
    pub(crate) fn of(alloc: Global, session: Session) -> End {
        End {
            alloc,
            session,
            speech: Speech::new(alloc),
            ear: Ear::new(),
            out: Octets::new(alloc),
            wire: Octets::new(alloc),
        }
    }

    /// Does what a line says, and notes what comes of it. What the peer says is heard at once, and
    /// after a `+` with what it says next, in one read.
    pub(crate) fn act(&mut self, line: &str, notes: &mut String) -> Result<(), Stop> {
        if let Some(line) = line.strip_prefix("+") {
            let puts = self.speech.puts(line)?;
            return note_done(puts, notes);
        }
        let words = Words::of(line);
        if let Some(answer) = self.answer(&words)? {
            return answer.note(notes);
        }
        self.passes(line, &words, notes)
    }

    /// What the session answers, where the words call it.
    fn answer(&mut self, words: &Words<'_>) -> Result<Option<Answer>, Stop> {
        if let Some(answer) = looks(&self.session, words) {
            return Ok(Some(answer));
        }
        if let Some(answer) = lends(&mut self.session, words) {
            return Ok(Some(answer));
        }
        if let Some(answer) = acts(self.alloc, &mut self.session, words)? {
            return Ok(Some(answer));
        }
        gives(self.alloc, &mut self.session, words)
    }

    /// `take NUMBER` takes from a channel; `say` is what goes out next, `say SIZE` with so many
    /// octets of payload at most, `whole` is all of it, and `all` all that goes out until nothing
    /// does; else the peer says the line.
    fn passes(&mut self, line: &str, words: &Words<'_>, notes: &mut String) -> Result<(), Stop> {
        match words.act {
            "take" => take(&mut self.session, words.number, notes),
            "say" if words.number == 0 => self.say(MAX_PIECE, notes),
            "say" => self.say(words.number, notes),
            "whole" => self.say_whole(notes),
            "all" => self.say_all(notes),
            _ => self.hears_line(line, notes),
        }
    }

    /// The peer says a line, and it is heard.
    fn hears_line(&mut self, line: &str, notes: &mut String) -> Result<(), Stop> {
        if self.speech.puts(line)? {
            self.hear(notes)
        } else {
            Answer::usage().note(notes)
        }
    }

    /// Hears all that the peer says, as one read.
    fn hear(&mut self, notes: &mut String) -> Result<(), Stop> {
        let octets = self.speech.octets();
        let read = Read {
            len: octets.len(),
            header: self.speech.header(),
        };
        hear(&mut self.session, octets, read, &mut self.ear, notes)?;
        self.speech.clear();
        Ok(())
    }

    /// Hears all that the other end sent.
    pub(crate) fn get(&mut self, other: &mut End, notes: &mut String) -> Result<(), Stop> {
        self.speech.put_octets(other.wire.as_slice())?;
        other.wire.clear();
        self.hear(notes)
    }

    /// Puts what goes out next on the wire.
    fn send(&mut self, most: u32) -> Result<Said, Stop> {
        let said = say(&mut self.session, most, &mut self.out)?;
        self.wire.extend(self.out.as_slice())?;
        Ok(said)
    }

    fn say(&mut self, most: u32, notes: &mut String) -> Result<(), Stop> {
        match self.send(most)? {
            Said::Something => note_said(self.out.as_slice(), notes),
            Said::Nothing => Answer::Word("nothing").note(notes),
            Said::Fault(answer) => answer.note(notes),
        }
    }

    fn say_whole(&mut self, notes: &mut String) -> Result<(), Stop> {
        match self.send(MAX_PIECE)? {
            Said::Something => note_whole(self.out.as_slice(), notes),
            Said::Nothing => Answer::Word("nothing").note(notes),
            Said::Fault(answer) => answer.note(notes),
        }
    }

    fn say_all(&mut self, notes: &mut String) -> Result<(), Stop> {
        for _ in 0..FRAMES {
            match self.send(MAX_PIECE)? {
                Said::Something => {}
                Said::Nothing => return note_done(true, notes),
                Said::Fault(answer) => return answer.note(notes),
            }
        }
        Answer::Word("no end of it").note(notes)
    }
}

/// A line was done, or is none.
fn note_done(done: bool, notes: &mut String) -> Result<(), Stop> {
    let answer = if done {
        Answer::Word("ok")
    } else {
        Answer::usage()
    };
    answer.note(notes)
}
