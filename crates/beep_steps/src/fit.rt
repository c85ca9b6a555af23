//! What an end takes of its settings.
ghost use Rattle.std.specs.Prelude.{◌≡◌, ◌↔◌, true};
ghost use Rattle.beep_steps.specs.Ends.{AreFit, reads_of, limits_of};

use beep_link::Reads;
use beep_session::beep_seq::{MAX_WINDOW, MIN_WINDOW};
use beep_session::beep_settings::Settings;
use beep_session::{Limits, MAX_PIECE, is_uri};

/// Whether a session can be held with these settings.
pub fn are_fit(settings: &Settings) -> bool
    ensures { (result ≡ true) ↔ AreFit settings.now }
{
    MIN_WINDOW <= settings.window
        && settings.window <= MAX_WINDOW
        && 0 < settings.piece
        && settings.piece <= MAX_PIECE
        && is_uri(&settings.raw_uri)
}

/// What is read of a link at most.
pub fn reads_of(settings: &Settings) -> Reads
    ensures { result ≡ reads_of settings.now }
{
    Reads {
        octets: settings.octets,
        idle: settings.idle,
    }
}

/// What a session is bound by.
pub fn limits_of(settings: &Settings) -> Limits
    ensures { result ≡ limits_of settings.now }
{
    Limits {
        window: settings.window,
        piece: settings.piece,
    }
}
