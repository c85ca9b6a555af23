//! A sink that counts the lines that are written through it.
ghost use Rattle.std.specs.Prelude.{◌≡◌, ◌+◌, ◌<◌, min, take, length};
ghost use Rattle.beep_wires.specs.declared.count.TheConstants.{COUNT_MAX};
ghost use Rattle.beep_lines.specs.Counting.{Begins, Counts, IsOutput, lines_in};

#[cfg(test)]
mod tests;

use crate::counting::Counting;
use beep_wires::{Failed, Sink};
use memchr::memchr_iter;
use std::marker::{Brand, PhantomData};

/// Passes each write on to this output, and counts the LF octets that it took. The count stays at
/// the greatest one of 64 bits.
#[derive(Drop)]
pub struct CountedSink<'o, O: Sink, K: Counting = Brand> {
    output: &'o mut O,
    lines: u64,
    of: PhantomData<K>,
    ghost same: { IsOutput K.known output.ghost_name },
    ghost counted: { Counts K.known (O.state output.now).written lines },
}

impl<'o, O: Sink> CountedSink<'o, O> {
    /// A sink that passes on to this output, and has counted nothing. It takes no memory.
    pub fn new(output: &'o mut O) -> CountedSink<'o, O>
        ensures same_reference { result.output.ghost_name ≡ output.entry.ghost_name }
        ensures same { result.output.now ≡ output.entry.now }
        ensures none { result.lines ≡ 0 }
    {
        CountedSink {
            output,
            lines: 0,
            of: PhantomData,
        }
    }

    /// The same, which counts from here on, where it is known in proofs which output that is and
    /// what was written to it, whatever calls go through it.
    pub fn known<K: Counting>(self) -> CountedSink<'o, O, K>
        requires known { Begins K.known self.output.ghost_name (O.state self.output.now).written }
        ensures same_reference { result.output.ghost_name ≡ self.entry.output.ghost_name }
        ensures same { result.output.now ≡ self.entry.output.now }
        ensures none { result.lines ≡ 0 }
    {
        let CountedSink { output, .. } = self;
        CountedSink {
            output,
            lines: 0,
            of: PhantomData,
        }
    }
}

impl<'o, O: Sink, K: Counting> CountedSink<'o, O, K> {
    ghost use Rattle.beep_lines.specs.Counting.{IsCount};

    /// How many lines were written since it counts, by their LF octets.
    pub fn lines(&self) -> u64
        ensures value { result ≡ self.now.lines }
        ensures counted { IsCount K.known (O.state self.now.output.now).written result }
    {
        self.lines
    }

    /// The same, of which nothing more is known than what stands here.
    pub fn plain(self) -> CountedSink<'o, O>
        ensures same_reference { result.output.ghost_name ≡ self.entry.output.ghost_name }
        ensures same { result.output.now ≡ self.entry.output.now }
        ensures value { result.lines ≡ self.entry.lines }
        ensures known { IsOutput K.known result.output.ghost_name }
        ensures counted { IsCount K.known (O.state result.output.now).written result.lines }
    {
        let CountedSink { output, lines, .. } = self;
        CountedSink {
            output,
            lines,
            of: PhantomData,
        }
    }

    /// Gives the output back.
    pub fn into_output(self) -> &'o mut O
        ensures same_reference { result.ghost_name ≡ self.entry.output.ghost_name }
        ensures same { result.now ≡ self.entry.output.now }
        ensures known { IsOutput K.known result.ghost_name }
    {
        let CountedSink { output, .. } = self;
        output
    }
}

impl<'o, O: Sink, K: Counting> Sink for CountedSink<'o, O, K> {
    ghost state = { λ s. O.state s.output.now };

    fn write(&mut self, bytes: &[u8]) -> Result<usize, Failed> {
        let taken = self.output.write(bytes)?;
        self.lines = lines_after(self.lines, &bytes[..taken]);
        Ok(taken)
    }
}

/// The count after these octets, which stays at its greatest value.
fn lines_after(lines: u64, octets: &[u8]) -> u64
    ensures { result ≡ min (lines + lines_in octets.now) COUNT_MAX }
{
    lines.saturating_add(memchr_iter(b'\n', octets).count() as u64)
}
