//! Writing a whole piece.
ghost use Rattle.std.specs.Prelude.{◌≡◌, ◌≤◌, length, OnOk, OnErr, IsOk};
ghost use Rattle.std.specs.Io.KnownBytes.{Appends};
ghost use Rattle.beep_wires.specs.Counts.{Rose};
ghost use Rattle.beep_wires.specs.Transfer.{AppendsPrefix};

use crate::failed::Failed;
use crate::sink::Sink;

/// Writes all of `bytes`, by as many calls of `write` as that takes, and none where it is empty.
pub fn write_all<S: Sink>(sink: &mut S, bytes: &[u8]) -> Result<(), Failed>
    ensures appended { OnOk result
        (Appends (S.state sink.old).written (S.state sink.new).written bytes.now) }
    ensures prefix { OnErr result
        (AppendsPrefix (S.state sink.old).written (S.state sink.new).written bytes.now) }
    ensures failed { OnErr result (Rose (S.state sink.old).faults (S.state sink.new).faults) }
    ensures empty { length bytes.now ≡ 0 → IsOk result × (sink.new ≡ sink.old) }
    ensures kept { (S.state sink.old).faults ≤ (S.state sink.new).faults }
{
    let mut at = 0;
    while at < bytes.len() {
        match sink.write(&bytes[at..]) {
            Ok(n) => at += n,
            Err(failed) => return Err(failed),
        }
    }
    Ok(())
}
