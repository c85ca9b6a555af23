//! The command `show`: the frames of its input, a line each, and what channel zero says.
ghost use Rattle.std.specs.Prelude.{◌≡◌, ◌+◌, ◌≤◌, Bool, false, length};
ghost use Rattle.beep_frame.specs.Fed.{Fed, nothing_fed};
ghost use Rattle.beep_wires.specs.States.{SourceState, SinkState};
ghost use Rattle.beep_show.specs.Listing.{Reads};
ghost use Rattle.beep_show.specs.Passing.{Passes, Goes};
ghost use Rattle.beep_show.specs.Show.{Shown, run_of, run_by};
ghost use Rattle.beep_words.specs.declared.command.ShowSettings.{ShowSettings as settings_type};
ghost use Rattle.beep_words.specs.declared.options.TheConstants.{MAX_SETTING};

use crate::ending::{Ending, append_last};
use crate::listing::{Listed, Lister, PIECE};
use crate::status;
use beep_octets::NoMemory;
use beep_wires::{Failed, Sink, Source, write_all};
use beep_words::ShowSettings;
use std::alloc::Global;

/// Runs `show`. Without elements it takes all its memory before the first read.
pub fn show<I: Source, O: Sink>(
    alloc: Global,
    settings: ShowSettings,
    input: &mut I,
    output: &mut O,
) -> u8
    requires going { (I.state input.old).ended ≡ false }
    ensures shown { let run = run_by I.state O.state input.old output.old input.new output.new in
        Shown settings result run }
    ensures no_memory { result ≡ 7 → settings.elements ≡ false
        → (input.new ≡ input.old) × (output.new ≡ output.old) }
    ensures reads { (I.state input.new).reads ≤ (I.state input.old).reads + (settings.octets + 1) }
{
    match Lister::new(alloc, settings.elements) {
        Ok(mut lister) => {
            let ending = list_input(&mut lister, settings.octets, input, output);
            finish(&mut lister, ending, output)
        }
        Err(NoMemory) => status::NO_MEMORY,
    }
}

/// Writes the last line of an ending, and answers the status.
fn finish<O: Sink>(lister: &mut Lister, ending: Ending, output: &mut O) -> u8
    ensures finishes { (settings : settings_type) (from to : SourceState) (before : SinkState)
        → settings.octets ≤ MAX_SETTING → before.faults ≤ (O.state output.old).faults
        → Goes ending settings lister.old from to before (O.state output.old)
        → Shown settings result (run_of from to before (O.state output.new)) }
    ensures answers { result ≡ 7 → ending ≡ Ending.NoMemory }
{
    if let Ending::WriteFault = ending {
        return status::WRITE_FAULT;
    }
    if let Ending::NoMemory = ending {
        return status::NO_MEMORY;
    }
    let left = lister.decoder.left();
    let status = append_last(&mut lister.out, ending, lister.frames, left);
    match write_all(output, lister.out.as_slice()) {
        Ok(()) => status,
        Err(Failed) => status::WRITE_FAULT,
    }
}

/// Lists the input's frames, up to what ends the reading. It writes the lines of each read.
pub(crate) fn list_input<I: Source, O: Sink>(
    lister: &mut Lister,
    octets: u32,
    input: &mut I,
    output: &mut O,
) -> Ending
    requires going { (I.state input.old).ended ≡ false }
    ensures goes { (elements : Bool) → Reads elements lister.old nothing_fed
        → Goes result (record { elements = elements; octets = octets }) lister.new
        (I.state input.old) (I.state input.new) (O.state output.old) (O.state output.new) }
    ensures reads { (I.state input.new).reads ≤ (I.state input.old).reads + (octets + 1) }
    ensures kept { (O.state output.old).faults ≤ (O.state output.new).faults }
{
    let mut buf = [0; PIECE];
    let most = octets as usize;
    let mut left = most;
    while left > 0 {
        let room = left.min(PIECE);
        match input.read(&mut buf[..room]) {
            Ok(0) => return Ending::Ended((most - left) as u64),
            Ok(n) => {
                left -= n;
                if let Some(ending) = pass(lister, &buf[..n], output) {
                    return ending;
                }
            }
            Err(Failed) => return Ending::ReadFault,
        }
    }
    Ending::Spent(octets)
}

/// Lists a piece and writes its lines. It answers what ends the reading, if anything does.
fn pass<O: Sink>(lister: &mut Lister, piece: &[u8], output: &mut O) -> Option<Ending>
    ensures passes { (elements : Bool) (fed : Fed) → Reads elements lister.old fed
        → length piece.now ≤ PIECE → Passes result elements lister.new fed.octets fed.frames
        piece.now (O.state output.old) (O.state output.new) }
    ensures kept { (O.state output.old).faults ≤ (O.state output.new).faults }
{
    let listed = lister.list(piece);
    let written = write_all(output, lister.out.as_slice());
    lister.out.clear();
    match (listed, written) {
        (Listed::NoMemory, _) => Some(Ending::NoMemory),
        (_, Err(Failed)) => Some(Ending::WriteFault),
        (Listed::Broken(rule, place), Ok(())) => Some(Ending::Broken(rule, place)),
        (Listed::Whole, Ok(())) => None,
    }
}
