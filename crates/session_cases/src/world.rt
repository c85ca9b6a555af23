//! Two ends, A the initiator and B the listener, which hear each other, or a peer that is played by
//! hand.

use crate::end::End;
use beep_session::beep_chars::Text;
use beep_session::beep_decide::Offer;
use beep_session::beep_journal::Role;
use beep_session::beep_seq::{MAX_WINDOW, MIN_WINDOW};
use beep_session::{Limits, MAX_PIECE, Offers, Session, is_uri};
use session_lines::{Stop, URI};
use std::alloc::Global;

/// Two ends, and what came of the last line.
#[derive(Drop)]
pub(crate) struct World {
    a: End,
    b: End,
    notes: String,
}

impl World {
    /// Two ends with windows of this size, or of the least or the greatest, if that is nearer.
    pub(crate) fn new(alloc: Global, window: u32) -> Result<World, Stop> {
        let window = window.clamp(MIN_WINDOW, MAX_WINDOW);
        let a = session(alloc, Role::Initiator, window)?;
        let b = session(alloc, Role::Listener, window)?;
        Ok(World {
            a: End::of(alloc, a),
            b: End::of(alloc, b),
            notes: String::new(alloc),
        })
    }

    /// What came of the last line.
    pub(crate) fn notes(&self) -> &str {
        self.notes.as_str()
    }

    /// Does what a line says: of A after `A `, and else of B.
    pub(crate) fn line(&mut self, line: &str) -> Result<(), Stop> {
        self.notes.clear();
        match line.strip_prefix("A ") {
            Some("get") => self.a.get(&mut self.b, &mut self.notes),
            Some(line) => self.a.act(line, &mut self.notes),
            None => self.line_of_b(line.strip_prefix("B ").unwrap_or(line)),
        }
    }

    fn line_of_b(&mut self, line: &str) -> Result<(), Stop> {
        match line {
            "get" => self.b.get(&mut self.a, &mut self.notes),
            _ => self.b.act(line, &mut self.notes),
        }
    }
}

/// A session with this window, which offers one profile.
fn session(alloc: Global, role: Role, window: u32) -> Result<Session, Stop> {
    let uri = Text::of(alloc, URI)?;
    if !is_uri(&uri) || window < MIN_WINDOW || MAX_WINDOW < window {
        return Err(Stop::NoSession);
    }
    let mut offers = Offers::new(alloc);
    offers.push(Offer { uri, tuning: false })?;
    let limits = Limits {
        window,
        piece: MAX_PIECE,
    };
    Ok(Session::new(alloc, role, offers, limits)?)
}
