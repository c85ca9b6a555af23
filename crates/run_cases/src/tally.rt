//! The runs of a case, counted.

use crate::case::Case;
use crate::records::record_of;
use crate::run::{Way, run_once};
use crate::stop::Stop;

/// How many runs were made, and how many came out otherwise.
#[derive(Drop)]
pub(crate) struct Tally {
    pub(crate) runs: u64,
    pub(crate) wrong: u64,
}

impl Tally {
    pub(crate) fn new() -> Tally {
        Tally { runs: 0, wrong: 0 }
    }

    /// Runs a case in each of its ways.
    pub(crate) fn try_case(&mut self, rt: &HostRuntime, case: &Case) -> Result<(), Stop> {
        if case.plan.is_record {
            self.try_records(rt, case)?;
        }
        for words in case.given.words.iter() {
            self.try_words(rt, case, words.as_str())?;
        }
        Ok(())
    }

    /// The record of the lines, as it is and in lines of one octet, of either end.
    fn try_records(&mut self, rt: &HostRuntime, case: &Case) -> Result<(), Stop> {
        self.try_record(rt, case, "listener", false)?;
        self.try_record(rt, case, "listener", true)?;
        self.try_record(rt, case, "initiator", false)?;
        self.try_record(rt, case, "initiator", true)
    }

    fn try_record(
        &mut self,
        rt: &HostRuntime,
        case: &Case,
        role: &str,
        in_octets: bool,
    ) -> Result<(), Stop> {
        let record = record_of(rt.alloc(), role, case.given.input.as_slice(), in_octets)?;
        let way = Way {
            words: "replay",
            input: record.as_slice(),
            sizes: &[],
            read_piece: case.plan.read_piece,
            write_piece: case.plan.write_piece,
        };
        self.try_way(rt, case, way)
    }

    /// These words, in the reads and writes that the case asks for.
    fn try_words(&mut self, rt: &HostRuntime, case: &Case, words: &str) -> Result<(), Stop> {
        let way = Way {
            words,
            input: case.given.input.as_slice(),
            sizes: case.given.sizes.as_slice(),
            read_piece: case.plan.read_piece,
            write_piece: case.plan.write_piece,
        };
        if case.plan.in_cuts {
            return self.try_cuts(rt, case, way);
        }
        self.try_way(rt, case, way)?;
        if case.plan.in_pieces {
            self.try_way(rt, case, in_pieces(way))?;
        }
        Ok(())
    }

    /// Two reads, cut at each place.
    fn try_cuts(&mut self, rt: &HostRuntime, case: &Case, way: Way<'_>) -> Result<(), Stop> {
        for size in 1..way.input.len() {
            self.try_cut(rt, case, way, size)?;
        }
        Ok(())
    }

    fn try_cut(
        &mut self,
        rt: &HostRuntime,
        case: &Case,
        way: Way<'_>,
        size: usize,
    ) -> Result<(), Stop> {
        let sizes = [size];
        let cut = Way {
            words: way.words,
            input: way.input,
            sizes: &sizes,
            read_piece: way.read_piece,
            write_piece: way.write_piece,
        };
        self.try_way(rt, case, cut)
    }

    /// Runs a case once, and prints what came out otherwise.
    fn try_way(&mut self, rt: &HostRuntime, case: &Case, way: Way<'_>) -> Result<(), Stop> {
        let notes = run_once(rt.alloc(), case, way)?;
        self.runs = self.runs.saturating_add(1);
        if !notes.is_empty() {
            self.wrong = self.wrong.saturating_add(1);
            tell(rt, case.at, notes.as_str())?;
        }
        Ok(())
    }
}

/// The same in reads and writes of one octet.
fn in_pieces(way: Way<'_>) -> Way<'_> {
    Way {
        words: way.words,
        input: way.input,
        sizes: &[],
        read_piece: 1,
        write_piece: 1,
    }
}

fn tell(rt: &HostRuntime, at: u64, notes: &str) -> Result<(), Stop> {
    println!(rt; "line {at}:{notes}")?;
    Ok(())
}
