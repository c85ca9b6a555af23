//! What is told of a session.

use beep_listener::Ended;
use beep_listener::beep_settings::Settings;
use beep_listener::beep_wires::{Account, Wires};
use beep_listener::prof_raw::Entries;

/// Tells of the session that was held on a link and ended so, and of its lines, unless the settings
/// keep that quiet.
pub fn tell_session<W: Wires>(wires: &W, link: u32, settings: &Settings, ended: Ended, lines: u64) {
    if settings.quiet {
        return;
    }
    wires.tell(
        link,
        Account {
            lines,
            status: ended.status(),
        },
    );
}

/// How many of the lines that were to be sent the peer has taken for certain: all, where the session
/// was released, and otherwise none is known of.
pub fn taken_lines(ended: Ended, lines: &Entries) -> u64 {
    match ended {
        Ended::Released => lines.len() as u64,
        Ended::Broken(..)
        | Ended::WriteFault
        | Ended::WireFault
        | Ended::NoMemory
        | Ended::Refused(_)
        | Ended::Cut(_)
        | Ended::Idle(_)
        | Ended::Spent(_) => 0,
    }
}
