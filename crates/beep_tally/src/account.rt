//! What was given and taken in one life, as counts.
ghost use Rattle.std.specs.Prelude.{◌≡◌};
ghost use Rattle.beep_tally.specs.Accounts.{stage_at, staged_at, is_live_at, counted, given_by, taken_by};

use beep_schedule::End;

/// Octets and ends of messages, modulo 2^64.
#[derive(Clone, Copy, Debug, PartialEq, Eq)]
pub struct Count {
    /// The octets of messages.
    pub octets: u64,
    /// The messages that have ended.
    pub ends: u64,
}

/// What one end gave in a life, and what the other took of it.
#[derive(Clone, Copy, Debug, PartialEq, Eq)]
pub struct Flow {
    /// What was given.
    pub given: Count,
    /// What was taken.
    pub taken: Count,
}

/// Where a life stands at an end.
#[derive(Clone, Copy, Debug, PartialEq, Eq)]
pub enum Stage {
    /// It hasn't begun there.
    Before,
    /// It is live there.
    Live,
    /// It has ended there.
    Over,
}

/// One life of a channel: the k-th of a number at A and the k-th at B are one.
#[derive(Clone, Copy, Debug, PartialEq, Eq)]
pub struct Account {
    /// The number of the channel.
    pub number: u32,
    /// Which of its lives, from 1, modulo 2^64.
    pub life: u64,
    /// Where it stands at A.
    pub at_a: Stage,
    /// Where it stands at B.
    pub at_b: Stage,
    /// What A gave.
    pub from_a: Flow,
    /// What B gave.
    pub from_b: Flow,
}

impl Count {
    /// So many octets more, and an end more or none.
    pub(crate) fn plus(self, octets: u64, ended: bool) -> Count
        ensures { result ≡ counted octets ended self }
    {
        Count {
            octets: self.octets.wrapping_add(octets),
            ends: self.ends.wrapping_add(u64::from(ended)),
        }
    }
}

impl Account {
    /// Where the life stands at an end.
    pub(crate) fn stage(&self, at: End) -> Stage
        ensures { result ≡ stage_at at self.now }
    {
        match at {
            End::A => self.at_a,
            End::B => self.at_b,
        }
    }

    /// Whether it is the live life of a number at an end.
    pub(crate) fn is_live(&self, at: End, number: u32) -> bool
        ensures { result ≡ is_live_at at number self.now }
    {
        self.number == number && matches!(self.stage(at), Stage::Live)
    }

    /// With this stage at an end.
    pub(crate) fn staged(self, at: End, stage: Stage) -> Account
        ensures { result ≡ staged_at at stage self }
    {
        match at {
            End::A => Account {
                at_a: stage,
                ..self
            },
            End::B => Account {
                at_b: stage,
                ..self
            },
        }
    }

    /// With a message of so many octets given by an end.
    pub(crate) fn given(self, by: End, octets: u64) -> Account
        ensures { result ≡ given_by by octets self }
    {
        match by {
            End::A => Account {
                from_a: Flow {
                    given: self.from_a.given.plus(octets, true),
                    taken: self.from_a.taken,
                },
                ..self
            },
            End::B => Account {
                from_b: Flow {
                    given: self.from_b.given.plus(octets, true),
                    taken: self.from_b.taken,
                },
                ..self
            },
        }
    }

    /// With so many octets taken by an end of what the other gave, and an end of a message or none.
    pub(crate) fn taken(self, by: End, octets: u64, ended: bool) -> Account
        ensures { result ≡ taken_by by octets ended self }
    {
        match by {
            End::A => Account {
                from_b: Flow {
                    given: self.from_b.given,
                    taken: self.from_b.taken.plus(octets, ended),
                },
                ..self
            },
            End::B => Account {
                from_a: Flow {
                    given: self.from_a.given,
                    taken: self.from_a.taken.plus(octets, ended),
                },
                ..self
            },
        }
    }
}
