//! What links are made, read and written by.
ghost use Rattle.std.specs.Prelude.{◌≡◌, ◌<◌, ◌≤◌, ℕ, Option, true, false, List, length, IfOk, OnOk, OnErr};
ghost use Rattle.std.specs.Borrow.{GName};
ghost use Rattle.beep_wires.specs.Counts.{next_count};
ghost use Rattle.beep_wires.specs.Log.{Event, Logs, Enters, IsPart};

use crate::failed::Failed;

/// What a read of a link gave.
#[derive(Clone, Copy, Debug, PartialEq, Eq)]
pub enum Got {
    /// So many octets, at least one.
    Bytes(usize),
    /// Nothing in the time that a read waits. A later read may give some.
    Quiet,
    /// The peer's octets have ended, and nothing comes any more.
    End,
}

/// Why no link was given. A later call may succeed.
#[derive(Clone, Copy, Debug, PartialEq, Eq)]
pub enum WireError {
    /// The accept or the dial failed.
    Failed,
    /// Out of memory: what the call would open or note finds no room.
    NoMemory,
}

/// What is told of a session when its link is let go.
#[derive(Clone, Copy, Debug, PartialEq, Eq)]
pub struct Account {
    /// How many lines were written, or how many of those that were sent the peer acknowledged.
    pub lines: u64,
    /// The exit status that stands for what ended it.
    pub status: u8,
}

/// Links, numbered from 0 in the order in which they were given. One that ended or failed stays
/// open until it is shut.
pub trait Wires {
    ghost use Rattle.beep_wires.specs.Links.{Link, Counts, Asked, accept as accept_of, dial as dial_of, IsFresh, SameBeside, LeavesLinks, open_among, asked_by, Asks, given_after, Faults};
    ghost use Rattle.beep_wires.specs.Got.{GotWithin, read_entries, write_entries, gives_end, Quiets};

    /// What is known of each link, by its number.
    ghost state: { Self → ℕ → Link };

    /// How many links were given, and the counts that belong to none.
    ghost counts: { Self → Counts };

    /// The accepts and dials that gave a link or failed, the latest first, where they are known.
    ghost asked: { Self → Option (List Asked) };

    /// The logs of all links in one, the latest first, where it is known.
    ghost story: { Self → Option (List Event) };

    /// The reference that the calls are passed on to, if they are.
    ghost lent: { Self → Option GName };

    /// Waits for a peer on this port of this address, and gives the link to it.
    fn accept(&mut self, bind: &str, port: u16) -> Result<u32, WireError>
        ensures number { IfOk result (λ link. link ≡ (counts self.old).given) }
        ensures fresh { IfOk result (λ link. IsFresh (state self.new link)) }
        ensures others { LeavesLinks result (state self.old) (state self.new) }
        ensures asks { Asks (asked self.old) (asked self.new) (asked_by
            (accept_of bind.now port) (open_among (state self.old) (counts self.old).given)
            result) }
        ensures given { (counts self.new).given ≡ given_after (counts self.old).given result }
        ensures failed { Faults result (counts self.old).accepts (counts self.new).accepts }
        ensures dials { (counts self.new).dials ≡ (counts self.old).dials }
        ensures quiets { (counts self.new).quiets ≡ (counts self.old).quiets }
        ensures same_story { story self.new ≡ story self.old }
        ensures same_lent { lent self.new ≡ lent self.old };

    /// Asks a host for a link on this port.
    fn dial(&mut self, host: &str, port: u16) -> Result<u32, WireError>
        ensures number { IfOk result (λ link. link ≡ (counts self.old).given) }
        ensures fresh { IfOk result (λ link. IsFresh (state self.new link)) }
        ensures others { LeavesLinks result (state self.old) (state self.new) }
        ensures asks { Asks (asked self.old) (asked self.new) (asked_by
            (dial_of host.now port) (open_among (state self.old) (counts self.old).given)
            result) }
        ensures given { (counts self.new).given ≡ given_after (counts self.old).given result }
        ensures failed { Faults result (counts self.old).dials (counts self.new).dials }
        ensures accepts { (counts self.new).accepts ≡ (counts self.old).accepts }
        ensures quiets { (counts self.new).quiets ≡ (counts self.old).quiets }
        ensures same_story { story self.new ≡ story self.old }
        ensures same_lent { lent self.new ≡ lent self.old };

    /// Reads a link, of which no call has failed, into the front of `buf`.
    fn read(&mut self, link: u32, buf: &mut [u8]) -> Result<Got, Failed>
        requires room { 0 < length buf.old }
        requires alive { (state self.old link).is_open ≡ true }
        requires going { (state self.old link).has_ended ≡ false }
        requires unfailed { (state self.old link).faults ≡ 0 }
        ensures within { GotWithin result buf.new }
        ensures logged { Logs (state self.old link).log (state self.new link).log
            (read_entries result buf.new) }
        ensures entered { Enters link (story self.old) (story self.new)
            (read_entries result buf.new) }
        ensures still_open { (state self.new link).is_open ≡ true }
        ensures end { (state self.new link).has_ended ≡ gives_end result }
        ensures failed { OnErr result ((state self.new link).faults ≡ 1) }
        ensures unfailed { OnOk result
            ((state self.new link).faults ≡ (state self.old link).faults) }
        ensures kept { (state self.old link).faults ≤ (state self.new link).faults }
        ensures counted { (state self.new link).reads ≡ next_count (state self.old link).reads }
        ensures others { SameBeside link (state self.old) (state self.new) }
        ensures quiets { Quiets result (counts self.old).quiets (counts self.new).quiets }
        ensures counts { counts self.new
            ≡ record (counts self.old) { quiets = (counts self.new).quiets } }
        ensures same_asked { asked self.new ≡ asked self.old }
        ensures same_lent { lent self.new ≡ lent self.old };

    /// Writes the front of `bytes` on a link of which no call has failed, and answers how many
    /// octets. Taking none is a fault.
    fn write(&mut self, link: u32, bytes: &[u8]) -> Result<usize, Failed>
        requires some { 0 < length bytes.now }
        requires alive { (state self.old link).is_open ≡ true }
        requires unfailed { (state self.old link).faults ≡ 0 }
        ensures within { IfOk result (λ n. (0 < n) × (n ≤ length bytes.now)) }
        ensures logged { Logs (state self.old link).log (state self.new link).log
            (write_entries result bytes.now) }
        ensures entered { Enters link (story self.old) (story self.new)
            (write_entries result bytes.now) }
        ensures still_open { (state self.new link).is_open ≡ true }
        ensures end { (state self.new link).has_ended ≡ (state self.old link).has_ended }
        ensures failed { OnErr result ((state self.new link).faults ≡ 1) }
        ensures unfailed { OnOk result
            ((state self.new link).faults ≡ (state self.old link).faults) }
        ensures kept { (state self.old link).faults ≤ (state self.new link).faults }
        ensures counted { (state self.new link).reads ≡ (state self.old link).reads }
        ensures others { SameBeside link (state self.old) (state self.new) }
        ensures same_counts { counts self.new ≡ counts self.old }
        ensures same_asked { asked self.new ≡ asked self.old }
        ensures same_lent { lent self.new ≡ lent self.old };

    /// Tells of the session that was held on a link, to whom it may concern: nothing depends on it.
    fn tell(&self, link: u32, account: Account);

    /// Lets a link go. It is neither read nor written any more.
    fn shut(&mut self, link: u32)
        requires alive { (state self.old link).is_open ≡ true }
        ensures shut { state self.new link ≡ record (state self.old link) { is_open = false } }
        ensures others { SameBeside link (state self.old) (state self.new) }
        ensures same_counts { counts self.new ≡ counts self.old }
        ensures same_asked { asked self.new ≡ asked self.old }
        ensures same_story { story self.new ≡ story self.old }
        ensures same_lent { lent self.new ≡ lent self.old };

    /// The log of each link is its part of the logs of all.
    ghost in_story: { (wires : Self) (link : ℕ)
        → IsPart link (story wires) (state wires link).log };
}
