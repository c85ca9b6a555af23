//! What octets are read from.
ghost use Rattle.std.specs.Prelude.{◌≡◌, ◌<◌, ◌≤◌, false, length, OnErr};
ghost use Rattle.std.specs.Io.{ReadsAtMost};
ghost use Rattle.std.specs.Io.KnownBytes.{ReadConsumes};
ghost use Rattle.beep_wires.specs.Counts.{next_count, Rose};
ghost use Rattle.beep_wires.specs.Ended.{is_end};
ghost use Rattle.beep_wires.specs.States.{SourceState};

use crate::failed::Failed;

/// What octets are read from, until it has ended.
pub trait Source {
    /// Its octets, where they are known, and what came of the calls so far.
    ghost state: { Self → SourceState };

    /// Reads into the front of `buf`, and answers how many octets. 0 is the end of the input.
    fn read(&mut self, buf: &mut [u8]) -> Result<usize, Failed>
        requires room { 0 < length buf.old }
        requires going { (state self.old).ended ≡ false }
        ensures within { ReadsAtMost result buf.new }
        ensures octets { ReadConsumes (state self.old).left (state self.new).left result buf.new }
        ensures end { (state self.new).ended ≡ is_end result }
        ensures failed { OnErr result (Rose (state self.old).faults (state self.new).faults) }
        ensures kept { (state self.old).faults ≤ (state self.new).faults }
        ensures counted { (state self.new).reads ≡ next_count (state self.old).reads };
}
