//! How an end ends.

use beep_frame::Rule;

/// What an end itself is stopped by, as it uses octets.
#[derive(Clone, Copy, Debug, PartialEq, Eq)]
pub enum Stop {
    /// The session was released.
    Released,
    /// The peer broke this rule at this octet, counted from 0.
    Broken(Rule, u64),
    /// A write of the output failed.
    WriteFault,
    /// Memory ran out.
    NoMemory,
    /// The peer refused what was asked, with this code.
    Refused(u16),
}

/// What ended the session over a link.
#[derive(Clone, Copy, Debug, PartialEq, Eq)]
pub enum Ended {
    /// It was released.
    Released,
    /// The peer broke this rule at this octet, counted from 0.
    Broken(Rule, u64),
    /// A write of the output failed.
    WriteFault,
    /// A read or a write of the link failed.
    WireFault,
    /// Memory ran out.
    NoMemory,
    /// The peer refused what was asked, with this code.
    Refused(u16),
    /// The link ended, with so many octets of an unfinished frame.
    Cut(u64),
    /// So many reads in a row were quiet.
    Idle(u32),
    /// So many octets were read, and one more read was needed.
    Spent(u64),
}

impl Ended {
    ghost use Rattle.std.specs.Prelude.{◌≡◌};
    ghost use Rattle.beep_link.specs.Causes.{ended_by};
    ghost use Rattle.beep_link.specs.Status.{ended_status};

    /// What ends where an end is stopped by this.
    pub(crate) fn of(stop: Stop) -> Ended
        ensures { result ≡ ended_by stop }
    {
        match stop {
            Stop::Released => Ended::Released,
            Stop::Broken(rule, place) => Ended::Broken(rule, place),
            Stop::WriteFault => Ended::WriteFault,
            Stop::NoMemory => Ended::NoMemory,
            Stop::Refused(code) => Ended::Refused(code),
        }
    }

    /// The exit status that stands for it (docs/COMMANDS.md).
    pub fn status(self) -> u8
        ensures { result ≡ ended_status self }
    {
        match self {
            Ended::Released => 0,
            Ended::Broken(..) => 3,
            Ended::WriteFault => 5,
            Ended::WireFault => 6,
            Ended::NoMemory => 7,
            Ended::Refused(_) => 8,
            Ended::Cut(_) => 9,
            Ended::Idle(_) => 10,
            Ended::Spent(_) => 11,
        }
    }
}
