//! What a feed answers.
ghost use Rattle.std.specs.Prelude.{◌≡◌};

use beep_giving::beep_frame::Rule;
use beep_giving::beep_hearing::Heard;

/// What came of the octets of a feed.
#[derive(Clone, Copy, Debug)]
pub enum Event {
    /// All were used.
    More,
    /// A frame of this channel, above zero, has arrived.
    Arrived(u32),
    /// A whole message of channel zero has arrived, and waits until it is settled.
    Zero,
    /// The session is released. No octet is used.
    Released,
    /// This rule was broken at this octet, counted from 0.
    Broken(Rule, u64),
    /// Out of memory. The octets before the count were used; the others may be fed again.
    NoMemory,
}

impl Event {
    ghost use Rattle.beep_session.specs.Events.{event_of};

    /// The event of what was heard.
    pub(crate) fn of(heard: Heard) -> Event
        ensures { result ≡ event_of heard }
    {
        match heard {
            Heard::More => Event::More,
            Heard::Arrived(number) => Event::Arrived(number),
            Heard::Zero(_) => Event::Zero,
            Heard::Broken(rule, place) => Event::Broken(rule, place),
            Heard::NoMemory => Event::NoMemory,
        }
    }
}
