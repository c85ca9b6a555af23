//! A sink that keeps nothing.
ghost use Rattle.std.specs.Prelude.{◌≡◌, ◌<◌, ◌≤◌, None, Ok, length, IfOk, OnErr};
ghost use Rattle.std.specs.Io.KnownBytes.{WriteAppends};
ghost use Rattle.beep_wires.specs.Counts.{Rose};

use crate::failed::Failed;
use crate::sink::Sink;

/// A sink that takes each piece whole, and keeps nothing of it.
#[derive(Clone, Copy, Debug)]
pub struct NullSink;

impl Sink for NullSink {
    ghost state = { λ _. record { written = None; faults = 0 } };

    fn write(&mut self, bytes: &[u8]) -> Result<usize, Failed>
        requires { 0 < length bytes.now }
        ensures whole { result ≡ Ok (length bytes.now) }
        ensures within { IfOk result (λ n. (0 < n) × (n ≤ length bytes.now)) }
        ensures octets { WriteAppends None None result bytes.now }
        ensures failed { OnErr result (Rose 0 0) }
        ensures kept { 0 ≤ 0 }
    {
        Ok(bytes.len())
    }
}
