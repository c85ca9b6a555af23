//! An end of a link that says what it is made to say, and claims nothing.
ghost use Rattle.std.specs.Prelude.{◌≡◌, ◌≤◌, ℕ, List, true, IfErr, OnOk};
ghost use Rattle.beep_wires.specs.Counts.{Rose};
ghost use Rattle.beep_wires.specs.Log.{Entry};
ghost use Rattle.beep_link.specs.Causes.{Grows, WithText};
ghost use Rattle.beep_link.specs.declared.ended.Stop.{Stop as StopValue};

use beep_link::{End, Stop};
use beep_octets::{NoMemory, Octets};
use beep_wires::Sink;

/// An end that says `hello` and then one `hello` more for each read, until it hears a full stop.
#[derive(Drop)]
pub(crate) struct Echo {
    pub(crate) due: u32,
    pub(crate) is_over: bool,
}

impl End for Echo {
    ghost Terms = { Unit {0} };

    ghost terms = { λ _. tt };

    ghost stands = { λ _ _ _ _. Unit {0} };

    ghost tells = { λ _ _ _ _. Unit {0} };

    ghost goes = { λ _. Unit {0} };

    ghost rests = { λ _. Unit {0} };

    ghost writes = { λ _ _ _ _ _ _. tt };

    ghost quiets = { λ _ _ _ _. tt };

    ghost closes = { λ _ _ _ _. tt };

    ghost stops = { λ _ _ _ _ _ _ _. tt };

    ghost spends = { λ _ _ _ _ _ _ _ _. tt };

    fn gather(&mut self, out: &mut Octets) -> Result<bool, NoMemory> {
        if self.due == 0 {
            return Ok(false);
        }
        out.extend(b"hello")?;
        self.due -= 1;
        Ok(true)
    }

    fn hear<O: Sink>(&mut self, bytes: &[u8], _output: &mut O) -> Result<(), Stop>
        ensures heard { (log : List Entry) (text : List ℕ) → Unit {0} → OnOk result
            (WithText (O.state _output.old).written (O.state _output.new).written
            (λ _. Unit {0})) }
        ensures stopped { (log : List Entry) (text : List ℕ) → Unit {0} → IfErr result
            (λ _. WithText (O.state _output.old).written (O.state _output.new).written
            (λ _. Unit {0})) }
        ensures grew { Grows (O.state _output.old).written (O.state _output.new).written }
        ensures failed { IfErr result (λ stop. stop ≡ StopValue.WriteFault
            → Rose (O.state _output.old).faults (O.state _output.new).faults) }
        ensures kept { (O.state _output.old).faults ≤ (O.state _output.new).faults }
    {
        for octet in bytes {
            if *octet == b'.' {
                return Err(Stop::Released);
            }
        }
        self.due = 1;
        Ok(())
    }

    fn over(&self) -> Option<Stop> {
        if self.is_over {
            return Some(Stop::Released);
        }
        None
    }

    fn left(&self) -> u64 {
        7
    }
}
