//! A sink that is handed on as any sink, and what is known of its output afterwards.
ghost use Rattle.std.specs.Prelude.{◌≡◌, List, ℕ, Some, OnOk};
ghost use Rattle.std.specs.Io.KnownBytes.{Appends};
ghost use Rattle.beep_lines.specs.Counting.{Start, line_count};

use super::CountedSink;
use crate::counting::Counting;
use beep_octets::NoMemory;
use beep_wires::{Failed, Fails, MemSink, Sink, write_all};
use std::marker::Brand;

/// Writes all of `bytes`, and tells how many lines were written.
fn write_lines<O: Sink>(output: &mut O, bytes: &[u8], lines: &mut u64) -> Result<(), Failed>
    ensures appended { OnOk result
        (Appends (O.state output.old).written (O.state output.new).written bytes.now) }
    ensures counted { (before text : List ℕ) → (O.state output.old).written ≡ Some before
        → Appends (Some before) (O.state output.new).written text
        → lines.new ≡ line_count text }
{
    let sink = CountedSink::new(output);
    let (written, sink) = write_through::<O, Brand>(sink, bytes);
    *lines = sink.lines();
    let _output = sink.into_output();
    written
}

/// The same through a sink that counts, where it is known in proofs what it counts.
fn write_through<'o, O: Sink, K: Counting>(
    sink: CountedSink<'o, O>,
    bytes: &[u8],
) -> (Result<(), Failed>, CountedSink<'o, O>)
    requires known { K.known ≡ Some (record {
      output = sink.output.ghost_name;
      written = (O.state sink.output.now).written;
    }) }
    ensures same_reference { result.1.output.ghost_name ≡ sink.entry.output.ghost_name }
    ensures appended { OnOk result.0 (Appends (O.state sink.entry.output.now).written
        (O.state result.1.output.now).written bytes.now) }
    ensures counted { (before text : List ℕ) → (O.state sink.entry.output.now).written ≡ Some before
        → Appends (Some before) (O.state result.1.output.now).written text
        → result.1.lines ≡ line_count text }
{
    let mut counted = sink.known::<K>();
    let written = write_all(&mut counted, bytes);
    (written, counted.plain())
}

// The LF octets of what was written, also where the sink takes one octet or fails.
#[test]
fn the_lines_that_were_written_are_counted(rt: HostRuntime) -> Result<(), NoMemory> {
    let alloc = rt.alloc();
    let rows = [(8, 8, 2), (8, 1, 2), (4, 8, 1), (1, 1, 0), (0, 1, 0)];
    for (room, piece, wanted) in rows {
        let mut output = MemSink::new(alloc, room, piece, Fails::new(alloc))?;
        let mut lines = 7;
        let _ = write_lines(&mut output, b"ab\n\\n\nc", &mut lines);
        assert_eq!(rt; lines, wanted);
    }
    Ok(())
}
