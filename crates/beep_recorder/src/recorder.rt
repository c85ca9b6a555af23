//! Links that are passed on, and the log of one of them.
ghost use Rattle.std.specs.Prelude.{◌≡◌, ◌<◌, ℕ, List, [], Option, Some, None, true, false, OnOk, OnErr};
ghost use Rattle.beep_record.specs.Record.{IsOrdered};
ghost use Rattle.beep_recorder.specs.Kept.{IsUnread, IsGiven, EndsWith, IsLogOf, IsKnown};
ghost use Rattle.beep_recorder.specs.Ordered.{is_ordered};

use crate::keep::{first_given, is_recorded, keep_read, keep_write};
use crate::known::Known;
use beep_octets::{NoMemory, Octets};
use beep_record::{Log, LogEntries, Role, write_record};
use beep_wires::{Account, Failed, Got, WireError, Wires};
use std::alloc::Global;
use std::marker::{Brand, PhantomData};

/// Passes each call on to these links, and keeps the log of one of them: of the first that an
/// accept or a dial through it gave.
#[derive(Drop)]
pub struct Recorder<'w, W: Wires, K: Known = Brand> {
    wires: &'w mut W,
    alloc: Global,
    log: Log,
    link: Option<u32>,
    short: bool,
    of: PhantomData<K>,
    ghost ordered: { is_ordered log.entries ≡ true },
    ghost unread: { IsUnread short link log.entries },
    ghost given: { IsGiven short (W.counts wires.now).given link },
    ghost ended: { EndsWith short (W.state wires.now) link log.entries },
    ghost logged: { IsLogOf short (W.state wires.now) link log.entries },
    ghost known: { IsKnown K.known short link (W.counts wires.now).given log.role },
}

impl<'w, W: Wires> Recorder<'w, W> {
    /// A recorder of the end of this role, which has kept nothing. It takes no memory.
    pub fn new(alloc: Global, wires: &'w mut W, role: Role) -> Recorder<'w, W>
        ensures same_reference { result.wires.ghost_name ≡ wires.entry.ghost_name }
        ensures same { result.wires.now ≡ wires.entry.now }
        ensures log { result.log ≡ record { role = role; entries = [] } }
        ensures link { result.link ≡ None }
        ensures whole { result.short ≡ false }
    {
        Recorder::<'w, W, Brand>::known(alloc, wires, role)
    }
}

impl<'w, W: Wires, K: Known> Recorder<'w, W, K> {
    /// The same, where it is known in proofs what is recorded, whatever calls go through it: the
    /// next link that is given, of this end.
    pub fn known(alloc: Global, wires: &'w mut W, role: Role) -> Recorder<'w, W, K>
        requires known { IsKnown K.known false None (W.counts wires.old).given role }
        ensures same_reference { result.wires.ghost_name ≡ wires.entry.ghost_name }
        ensures same { result.wires.now ≡ wires.entry.now }
        ensures log { result.log ≡ record { role = role; entries = [] } }
        ensures link { result.link ≡ None }
        ensures whole { result.short ≡ false }
    {
        Recorder {
            wires,
            alloc,
            log: Log {
                role,
                entries: LogEntries::new(alloc),
            },
            link: None,
            short: false,
            of: PhantomData,
        }
    }

    ghost use Rattle.beep_wires.specs.Log.{Entry as LinkEntry};
    ghost use Rattle.beep_record.specs.Written.{Writes};
    ghost use Rattle.beep_recorder.specs.Said.{log_said};
    ghost use Rattle.beep_recorder.specs.Kept.{Records, RecordsKnown};

    /// The log that was kept. It is the whole one where [`Recorder::short`] is false.
    pub fn log(&self) -> &Log
        ensures value { result.now ≡ self.now.log }
        ensures ordered { IsOrdered result.now.entries }
        ensures logged { (n : ℕ) (entries : List LinkEntry) → self.now.short ≡ false
            → self.now.link ≡ Some n → (W.state self.now.wires.now n).log ≡ Some entries
            → result.now.entries ≡ log_said entries }
    {
        &self.log
    }

    /// The link whose log is kept, once one was given.
    pub fn link(&self) -> Option<u32>
        ensures { result ≡ self.now.link }
    {
        self.link
    }

    /// Whether an entry found no room. From then on nothing is kept.
    pub fn short(&self) -> bool
        ensures { result ≡ self.now.short }
    {
        self.short
    }

    /// Gives the links back, and drops the log.
    pub fn into_wires(self) -> &'w mut W
        ensures same_reference { result.ghost_name ≡ self.entry.wires.ghost_name }
        ensures same { result.now ≡ self.entry.wires.now }
    {
        let Recorder { wires, .. } = self;
        wires
    }

    /// Appends the record of the log that was kept, which is the link's. Where an entry found no
    /// room there is none.
    pub fn put_record(&self, out: &mut Octets) -> Result<(), NoMemory>
        ensures kept { OnOk result (Writes self.now.log.role self.now.log.entries
            out.old.octets out.new.octets) }
        ensures unread { self.now.link ≡ None → OnOk result (self.now.log.entries ≡ []) }
        ensures appended { OnOk result (Records (W.state self.now.wires.now) self.now.link
            self.now.log.role out.old.octets out.new.octets) }
        ensures known { OnOk result (RecordsKnown K.known (W.state self.now.wires.now)
            (W.counts self.now.wires.now).given out.old.octets out.new.octets) }
        ensures err { OnErr result (out.new.octets ≡ out.old.octets) }
    {
        if self.short {
            return Err(NoMemory);
        }
        write_record(self.log(), out)
    }
}

impl<'w, W: Wires, K: Known> Wires for Recorder<'w, W, K> {
    ghost state = { λ r. W.state r.wires.now };

    ghost counts = { λ r. W.counts r.wires.now };

    ghost asked = { λ r. W.asked r.wires.now };

    ghost story = { λ r. W.story r.wires.now };

    ghost lent = { λ r. Some r.wires.ghost_name };

    ghost in_story = { λ r link. W.in_story r.wires.now link };

    fn accept(&mut self, bind: &str, port: u16) -> Result<u32, WireError> {
        let was_short = self.short;
        self.short = true;
        let answer = self.wires.accept(bind, port);
        self.link = first_given(self.link, answer);
        self.short = was_short;
        answer
    }

    fn dial(&mut self, host: &str, port: u16) -> Result<u32, WireError> {
        let was_short = self.short;
        self.short = true;
        let answer = self.wires.dial(host, port);
        self.link = first_given(self.link, answer);
        self.short = was_short;
        answer
    }

    fn read(&mut self, link: u32, buf: &mut [u8]) -> Result<Got, Failed> {
        if !is_recorded(self.short, self.link, link) {
            return self.wires.read(link, buf);
        }
        self.short = true;
        let answer = self.wires.read(link, buf);
        self.short = !keep_read(&mut self.log.entries, self.alloc, answer, buf);
        answer
    }

    fn write(&mut self, link: u32, bytes: &[u8]) -> Result<usize, Failed> {
        if !is_recorded(self.short, self.link, link) {
            return self.wires.write(link, bytes);
        }
        self.short = true;
        let answer = self.wires.write(link, bytes);
        self.short = !keep_write(&mut self.log.entries, self.alloc, answer, bytes);
        answer
    }

    fn tell(&self, link: u32, account: Account) {
        self.wires.tell(link, account);
    }

    fn shut(&mut self, link: u32) {
        self.wires.shut(link);
    }
}
