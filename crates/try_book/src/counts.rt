//! What happened in schedules.

/// What happened in schedules, at both ends.
#[derive(Clone, Copy, Debug)]
pub struct Counts {
    /// Schedules, and their acts.
    pub schedules: u64,
    pub acts: u64,
    /// Messages that were given and wholly taken.
    pub given: u64,
    pub taken: u64,
    /// Lives that began and ended, at each end.
    pub begun: u64,
    pub ended: u64,
    /// Replies to own closes whose life had ended, and releases.
    pub stale: u64,
    pub released: u64,
    /// Items of journals that were judged.
    pub items: u64,
}

impl Counts {
    pub fn new() -> Counts {
        Counts {
            schedules: 0,
            acts: 0,
            given: 0,
            taken: 0,
            begun: 0,
            ended: 0,
            stale: 0,
            released: 0,
            items: 0,
        }
    }

    /// Whether each of these happened.
    pub fn has_each(&self) -> bool {
        self.given > 0
            && self.taken > 0
            && self.begun > 0
            && self.ended > 0
            && self.stale > 0
            && self.released > 0
            && self.items > 0
    }

    /// These and others join.
    pub fn add(&mut self, more: &Counts) {
        self.schedules = self.schedules.saturating_add(more.schedules);
        self.acts = self.acts.saturating_add(more.acts);
        self.given = self.given.saturating_add(more.given);
        self.taken = self.taken.saturating_add(more.taken);
        self.begun = self.begun.saturating_add(more.begun);
        self.ended = self.ended.saturating_add(more.ended);
        self.stale = self.stale.saturating_add(more.stale);
        self.released = self.released.saturating_add(more.released);
        self.items = self.items.saturating_add(more.items);
    }
}
