//! A case: what is run, and what is wanted.

use beep_cmd::beep_octets::Octets;
use std::alloc::Global;

/// How the calls of a case are made, and which fail.
#[derive(Clone, Copy)]
pub(crate) struct Plan {
    pub(crate) read_piece: usize,
    pub(crate) write_piece: usize,
    pub(crate) room: usize,
    pub(crate) failing_read: Option<u64>,
    pub(crate) failing_write: Option<u64>,
    pub(crate) failing_link: Option<u64>,
    pub(crate) is_record: bool,
    pub(crate) in_pieces: bool,
    pub(crate) in_cuts: bool,
}

/// What a case gives to the call.
#[derive(Drop)]
pub(crate) struct Given {
    /// The words of each run.
    pub(crate) words: Vec<String>,
    pub(crate) input: Octets,
    /// The sizes of the first reads, and how many octets they have together.
    pub(crate) sizes: Vec<usize>,
    pub(crate) sized: usize,
    /// What the peer of each link says.
    pub(crate) links: Vec<String>,
}

/// What is to be said on a link.
#[derive(Drop)]
pub(crate) struct Said {
    pub(crate) link: u32,
    pub(crate) octets: Octets,
}

/// A text that is to stand so many times in the output.
#[derive(Drop)]
pub(crate) struct Times {
    pub(crate) count: u64,
    pub(crate) text: Octets,
}

/// What is wanted of a case. The output is compared as a whole where `times` is empty.
#[derive(Drop)]
pub(crate) struct Wanted {
    pub(crate) status: u64,
    pub(crate) output: Octets,
    pub(crate) times: Vec<Times>,
    pub(crate) reads: Option<u64>,
    pub(crate) said: Vec<Said>,
}

/// A case. `at` is the number of its first line, and 0 before that came.
#[derive(Drop)]
pub(crate) struct Case {
    pub(crate) at: u64,
    pub(crate) plan: Plan,
    pub(crate) given: Given,
    pub(crate) wanted: Wanted,
}

/// The room of a sink, which is more than a run writes.
const ROOM: usize = 1048576;

/// More than a read or a write has.
const WHOLE: usize = 4294967296;

/// Whole reads and writes, of which none fails.
const PLAIN: Plan = Plan {
    read_piece: WHOLE,
    write_piece: WHOLE,
    room: ROOM,
    failing_read: None,
    failing_write: None,
    failing_link: None,
    is_record: false,
    in_pieces: false,
    in_cuts: false,
};

impl Case {
    pub(crate) fn new(alloc: Global) -> Case {
        Case {
            at: 0,
            plan: PLAIN,
            given: Given::new(alloc),
            wanted: Wanted::new(alloc),
        }
    }

    /// Whether it says what is run.
    pub(crate) fn is_run(&self) -> bool {
        self.plan.is_record || !self.given.words.is_empty()
    }
}

impl Given {
    fn new(alloc: Global) -> Given {
        Given {
            words: Vec::new(alloc),
            input: Octets::new(alloc),
            sizes: Vec::new(alloc),
            sized: 0,
            links: Vec::new(alloc),
        }
    }
}

impl Wanted {
    fn new(alloc: Global) -> Wanted {
        Wanted {
            status: 0,
            output: Octets::new(alloc),
            times: Vec::new(alloc),
            reads: None,
            said: Vec::new(alloc),
        }
    }
}
