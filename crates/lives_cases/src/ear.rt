//! A session that hears, and what came of its octets so far.
ghost use Rattle.beep_hearing.specs.Answers.{IsReached, IsWaiting};

use beep_frame::Kind;
use beep_hearing::laws::a_new_ear_stands;
use beep_hearing::{Ear, Heard};
use beep_lives::Lives;
use beep_octets::NoMemory;
use beep_seq::INITIAL_WINDOW;
use std::alloc::Global;
use std::marker::Model;

/// A session that hears, and what came of its octets so far.
#[derive(Drop)]
pub(crate) struct Session {
    ear: Ear,
    lives: Lives,
    used: u64,
    last: Heard,
}

impl Model for Session {
    ghost use Rattle.std.specs.Prelude.{ℕ};
    ghost use Rattle.beep_hearing.specs.Answers.{IsReached};

    ghost Value = { ℕ };

    ghost view = { λ s. s.used };

    ghost invariant = { λ s. IsReached s.ear s.lives };
}

impl Session {
    pub(crate) fn new(alloc: Global) -> Result<Session, NoMemory> {
        let ear = Ear::new(alloc)?;
        let lives = Lives::new(alloc, INITIAL_WINDOW)?;
        a_new_ear_stands();
        Ok(Session {
            ear,
            lives,
            used: 0,
            last: Heard::More,
        })
    }

    /// Feeds a piece as long as octets are used.
    pub(crate) fn feed(&mut self, piece: &[u8]) {
        let mut at = 0usize;
        for _ in 0..=piece.len() {
            match piece.get(at..) {
                Some(rest) => at = at.saturating_add(self.feed_once(rest)),
                None => {}
            }
        }
    }

    fn feed_once(&mut self, piece: &[u8]) -> usize {
        let (count, heard) = feed_once(&mut self.ear, &mut self.lives, piece);
        self.used = self.used.saturating_add(count as u64);
        self.last = heard;
        count
    }

    /// The last answer.
    pub(crate) fn last(&self) -> Heard {
        self.last
    }

    /// How many octets were used.
    pub(crate) fn used(&self) -> u64 {
        self.used
    }

    /// How many of them since the last whole frame or SEQ.
    pub(crate) fn left(&self) -> u64 {
        self.ear.left()
    }
}

/// Feeds octets up to an answer. A message of channel zero passes at once, but for a RPY.
fn feed_once(ear: &mut Ear, lives: &mut Lives, piece: &[u8]) -> (usize, Heard)
    requires reached { IsReached ear.old lives.old }
    ensures reached { IsReached ear.new lives.new }
{
    let waited = ear.waiting().is_some();
    let (count, heard) = ear.feed(lives, piece);
    match heard {
        Heard::Zero(_) => {
            if !waited {
                pass(ear, lives);
            }
        }
        Heard::More | Heard::Arrived(_) | Heard::Broken(..) | Heard::NoMemory => {}
    }
    (count, heard)
}

/// Lets the message that waits pass where it is no RPY: it begins and ends no life.
fn pass(ear: &mut Ear, lives: &mut Lives)
    requires waits { IsWaiting ear.old lives.old }
    ensures reached { IsReached ear.new lives.new }
{
    let Some(head) = ear.waiting() else { return };
    match head.kind {
        Kind::Msg | Kind::Err => ear.pass_zero(lives),
        Kind::Rpy | Kind::Ans | Kind::Nul => {}
    }
}
