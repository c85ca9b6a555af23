//! How much may still be read of a link.
ghost use Rattle.std.specs.Prelude.{◌≡◌, ◌<◌, ◌≤◌, ◌+◌, ◌-◌, IfSome, IfNone};
ghost use Rattle.beep_link.specs.Causes.{IsSpent};

use crate::ended::Ended;

/// What is read of a link at most.
#[derive(Clone, Copy, Debug, PartialEq, Eq)]
pub struct Reads {
    /// How many octets in all.
    pub octets: u32,
    /// How many quiet reads, one after another.
    pub idle: u32,
}

/// How many octets may still be read, and how many of the latest reads were quiet.
#[derive(Clone, Copy, Debug)]
pub struct Left {
    /// How many octets may still be read.
    pub octets: u32,
    /// How many of the latest reads, one after another, were quiet.
    pub quiets: u32,
}

impl Left {
    /// What may be read of a link of which nothing was.
    pub fn of(reads: Reads) -> Left
        ensures { result ≡ record { octets = reads.octets; quiets = 0 } }
    {
        Left {
            octets: reads.octets,
            quiets: 0,
        }
    }

    /// Why nothing more is read, if so.
    pub(crate) fn is_spent(self, reads: Reads) -> Option<Ended>
        ensures some { IfSome result (λ ended. IsSpent ended reads self) }
        ensures none { IfNone result ((0 < self.octets) × (self.quiets < reads.idle)) }
    {
        if self.octets == 0 {
            return Some(Ended::Spent(u64::from(reads.octets)));
        }
        if reads.idle <= self.quiets {
            return Some(Ended::Idle(reads.idle));
        }
        None
    }
}
