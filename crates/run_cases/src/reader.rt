//! The source that a case's input is read from.
ghost use Rattle.std.specs.Prelude.{◌≡◌, None, false};

use beep_cmd::beep_wires::{Failed, Source, next_count};

/// A source that gives octets in reads of planned sizes, and fails at one call, if it is to.
#[derive(Drop)]
pub(crate) struct Reader<'a> {
    left: &'a [u8],
    sizes: &'a [usize],
    piece: usize,
    failing: Option<u64>,
    ended: bool,
    faults: u64,
    reads: u64,
}

impl<'a> Reader<'a> {
    /// A source of these octets. The first reads give at most as many as `sizes` says, those after
    /// them at most `piece`.
    pub(crate) fn new(
        left: &'a [u8],
        sizes: &'a [usize],
        piece: usize,
        failing: Option<u64>,
    ) -> Reader<'a>
        ensures { result.ended ≡ false }
    {
        Reader {
            left,
            sizes,
            piece,
            failing,
            ended: false,
            faults: 0,
            reads: 0,
        }
    }

    /// How many reads were made.
    pub(crate) fn reads(&self) -> u64 {
        self.reads
    }

    /// How many octets the next read gives at most.
    fn most(&mut self) -> usize
        ensures { self.new ≡ record self.old { sizes = self.new.sizes } }
    {
        match self.sizes.split_first() {
            Some((first, rest)) => {
                self.sizes = rest;
                *first
            }
            None => self.piece,
        }
    }
}

impl Source for Reader<'_> {
    ghost state = { λ s. record {
      left = None;
      ended = s.ended;
      faults = s.faults;
      reads = s.reads;
    } };

    fn read(&mut self, buf: &mut [u8]) -> Result<usize, Failed> {
        let call = self.reads;
        self.reads = next_count(call);
        if self.failing == Some(call) {
            self.faults = next_count(self.faults);
            return Err(Failed);
        }
        let n = self.most().min(self.left.len()).min(buf.len());
        let (front, rest) = self.left.split_at(n);
        buf[..n].copy_from_slice(front);
        self.left = rest;
        self.ended = n == 0;
        Ok(n)
    }
}
