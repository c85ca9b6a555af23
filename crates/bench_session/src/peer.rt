//! Sessions that are made for a run.

use crate::stop::Stop;
use beep_session::beep_chars::Text;
use beep_session::beep_decide::Offer;
use beep_session::beep_journal::Role;
use beep_session::beep_seq::{MAX_WINDOW, MIN_WINDOW};
use beep_session::{Limits, MAX_PIECE, Offers, Session, is_uri, one_profile};
use std::alloc::Global;

/// The profile that each end offers.
const URI: &str = "http://beep.example/bench";

/// A session that offers one profile.
pub(crate) fn a_peer(alloc: Global, role: Role, limits: Limits) -> Result<Session, Stop> {
    let uri = Text::of(alloc, URI)?;
    if !is_uri(&uri) || limits.window < MIN_WINDOW || MAX_WINDOW < limits.window {
        return Err(Stop::Words);
    }
    if limits.piece == 0 || MAX_PIECE < limits.piece {
        return Err(Stop::Words);
    }
    let mut offers = Offers::new(alloc);
    offers.push(Offer { uri, tuning: false })?;
    Ok(Session::new(alloc, role, offers, limits)?)
}

/// Asks for a channel of this number. True where the session doesn't refuse.
pub(crate) fn start(alloc: Global, session: &mut Session, number: u32) -> Result<bool, Stop> {
    let uri = Text::of(alloc, URI)?;
    if !is_uri(&uri) || !session.may_start(number) || session.zero_waits() {
        return Err(Stop::Refused);
    }
    let profiles = one_profile(alloc, &uri)?;
    Ok(session.start(number, &profiles).is_ok())
}
