//! The lines that are to be written to the output.
ghost use Rattle.std.specs.Prelude.{◌≡◌, ◌≤◌, ◌++◌, ◌∷◌, [], IfErr, IfOk, OnErr, OnOk};
ghost use Rattle.beep_wires.specs.Counts.{Rose};
ghost use Rattle.beep_link.specs.Causes.{Grows};
ghost use Rattle.beep_link.specs.declared.ended.Stop.{Stop as StopValue};
ghost use Rattle.prof_raw.specs.Line.{line_of};
ghost use Rattle.beep_lines.specs.Lines.{GathersAll, GathersSome, lines_of};
ghost use Rattle.beep_lines.specs.Stops.{IsOfOutput};

use beep_link::{BUFFER, Stop};
use beep_mime::body;
use beep_octets::{NoMemory, Octets};
use beep_wires::{Failed, Sink, write_all};
use prof_raw::{ENTRY_MAX, line_room, next_entry, plain_entry, write_line};
use std::alloc::Global;

/// Lines that are gathered until they are written.
#[derive(Drop)]
pub struct Lines {
    octets: Octets,
}

impl Lines {
    /// None, with room for a buffer of them and one of the longest more.
    pub fn new(alloc: Global) -> Result<Lines, NoMemory>
        ensures { IfOk result (λ lines. lines.octets.octets ≡ []) }
    {
        let mut octets = Octets::new(alloc);
        octets.reserve(BUFFER + line_room(ENTRY_MAX + 1))?;
        Ok(Lines { octets })
    }

    /// Adds the line of each entry of a message, after its MIME header. Where they find no room,
    /// those before are written.
    #[inline(always)]
    pub fn put<O: Sink>(&mut self, message: &[u8], output: &mut O) -> Result<(), Stop>
        ensures ok { OnOk result (GathersAll (O.state output.old).written
            (O.state output.new).written self.old.octets.octets
            (lines_of message.now) self.new.octets.octets) }
        ensures err { OnErr result (GathersSome (O.state output.old).written
            (O.state output.new).written self.old.octets.octets
            (lines_of message.now) self.new.octets.octets) }
        ensures grew { Grows (O.state output.old).written (O.state output.new).written }
        ensures failed { IfErr result (λ stop. stop ≡ StopValue.WriteFault
            → Rose (O.state output.old).faults (O.state output.new).faults) }
        ensures stopped { IfErr result (λ stop. IsOfOutput stop) }
        ensures kept { (O.state output.old).faults ≤ (O.state output.new).faults }
    {
        let body = body(message);
        if let Some(entry) = plain_entry(body) {
            return self.put_plain(entry, output);
        }
        let mut at = 0;
        while let Some(place) = next_entry(body, at) {
            self.put_entry(&body[place.start..place.end], output)?;
            at = place.end;
        }
        Ok(())
    }

    /// Adds an entry and the LF that ends its line. Where they find no room, the lines before are
    /// written.
    #[inline(always)]
    fn put_plain<O: Sink>(&mut self, entry: &[u8], output: &mut O) -> Result<(), Stop>
        ensures ok { OnOk result (GathersAll (O.state output.old).written
            (O.state output.new).written self.old.octets.octets
            (entry.now ++ 10 ∷ []) self.new.octets.octets) }
        ensures err { OnErr result (GathersSome (O.state output.old).written
            (O.state output.new).written self.old.octets.octets
            (entry.now ++ 10 ∷ []) self.new.octets.octets) }
        ensures grew { Grows (O.state output.old).written (O.state output.new).written }
        ensures failed { IfErr result (λ stop. stop ≡ StopValue.WriteFault
            → Rose (O.state output.old).faults (O.state output.new).faults) }
        ensures stopped { IfErr result (λ stop. IsOfOutput stop) }
        ensures kept { (O.state output.old).faults ≤ (O.state output.new).faults }
    {
        self.make_room(entry.len() + 1, output)?;
        self.octets.extend_spare(entry);
        self.octets.push_spare(b'\n');
        Ok(())
    }

    /// Adds the line of an entry. Where it finds no room, those before are written.
    fn put_entry<O: Sink>(&mut self, entry: &[u8], output: &mut O) -> Result<(), Stop>
        ensures ok { OnOk result (GathersAll (O.state output.old).written
            (O.state output.new).written self.old.octets.octets
            (line_of entry.now) self.new.octets.octets) }
        ensures err { OnErr result (GathersSome (O.state output.old).written
            (O.state output.new).written self.old.octets.octets
            (line_of entry.now) self.new.octets.octets) }
        ensures grew { Grows (O.state output.old).written (O.state output.new).written }
        ensures failed { IfErr result (λ stop. stop ≡ StopValue.WriteFault
            → Rose (O.state output.old).faults (O.state output.new).faults) }
        ensures stopped { IfErr result (λ stop. IsOfOutput stop) }
        ensures kept { (O.state output.old).faults ≤ (O.state output.new).faults }
    {
        let room = line_room(entry.len());
        self.make_room(room, output)?;
        write_line(entry, &mut self.octets);
        Ok(())
    }

    /// Makes room for so many octets: where it isn't there, the lines so far are written. It takes
    /// memory only where that isn't enough.
    fn make_room<O: Sink>(&mut self, room: usize, output: &mut O) -> Result<(), Stop>
        ensures ok { OnOk result (GathersAll (O.state output.old).written
            (O.state output.new).written self.old.octets.octets [] self.new.octets.octets) }
        ensures room { OnOk result (room ≤ self.new.octets.spare) }
        ensures err { OnErr result (GathersSome (O.state output.old).written
            (O.state output.new).written self.old.octets.octets [] self.new.octets.octets) }
        ensures grew { Grows (O.state output.old).written (O.state output.new).written }
        ensures failed { IfErr result (λ stop. stop ≡ StopValue.WriteFault
            → Rose (O.state output.old).faults (O.state output.new).faults) }
        ensures stopped { IfErr result (λ stop. IsOfOutput stop) }
        ensures kept { (O.state output.old).faults ≤ (O.state output.new).faults }
    {
        if room <= self.octets.spare() {
            return Ok(());
        }
        self.flush(output)?;
        match self.octets.reserve(room) {
            Ok(()) => Ok(()),
            Err(NoMemory) => Err(Stop::NoMemory),
        }
    }

    /// Writes all lines.
    pub fn flush<O: Sink>(&mut self, output: &mut O) -> Result<(), Stop>
        ensures ok { OnOk result (GathersAll (O.state output.old).written
            (O.state output.new).written self.old.octets.octets []
            self.new.octets.octets) }
        ensures err { OnErr result (GathersSome (O.state output.old).written
            (O.state output.new).written self.old.octets.octets []
            self.new.octets.octets) }
        ensures empty { self.new.octets.octets ≡ [] }
        ensures grew { Grows (O.state output.old).written (O.state output.new).written }
        ensures failed { IfErr result (λ stop. stop ≡ StopValue.WriteFault
            → Rose (O.state output.old).faults (O.state output.new).faults) }
        ensures stopped { IfErr result (λ stop. stop ≡ StopValue.WriteFault) }
        ensures kept { (O.state output.old).faults ≤ (O.state output.new).faults }
    {
        let written = write_all(output, self.octets.as_slice());
        self.octets.clear();
        match written {
            Ok(()) => Ok(()),
            Err(Failed) => Err(Stop::WriteFault),
        }
    }
}
