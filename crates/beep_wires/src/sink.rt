//! What octets are written to.
ghost use Rattle.std.specs.Prelude.{◌<◌, ◌≤◌, length, IfOk, OnErr};
ghost use Rattle.std.specs.Io.KnownBytes.{WriteAppends};
ghost use Rattle.beep_wires.specs.Counts.{Rose};
ghost use Rattle.beep_wires.specs.States.{SinkState};

use crate::failed::Failed;

/// What octets are written to.
pub trait Sink {
    /// The octets that were written, where they are known, and how many calls failed.
    ghost state: { Self → SinkState };

    /// Writes the front of `bytes`, and answers how many octets. Taking none is a fault.
    fn write(&mut self, bytes: &[u8]) -> Result<usize, Failed>
        requires { 0 < length bytes.now }
        ensures within { IfOk result (λ n. (0 < n) × (n ≤ length bytes.now)) }
        ensures octets { WriteAppends (state self.old).written (state self.new).written
            result bytes.now }
        ensures failed { OnErr result (Rose (state self.old).faults (state self.new).faults) }
        ensures kept { (state self.old).faults ≤ (state self.new).faults };
}
