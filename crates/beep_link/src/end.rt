//! What the turns over a link want of an end.
ghost use Rattle.std.specs.Prelude.{◌≡◌, ◌≢◌, ◌≤◌, ◌++◌, ◌∷◌, [], false, ℕ, List, IfErr, IfNone, IfOk, IfSome, OnOk};
ghost use Rattle.beep_wires.specs.Counts.{Rose};
ghost use Rattle.beep_wires.specs.Log.{Entry, read as came, wrote, quiet, ended as over};
ghost use Rattle.beep_link.specs.Causes.{ended_by, Grows, IsOfFaults, IsOfReads, WithText};
ghost use Rattle.beep_link.specs.declared.ended.Ended.{Ended as EndedValue};
ghost use Rattle.beep_link.specs.declared.ended.Stop.{Stop as StopValue};
ghost use Rattle.beep_link.specs.declared.end.TheConstants.{FRAME_ROOM};

use crate::ended::Stop;
use beep_octets::{NoMemory, Octets};
use beep_wires::Sink;

/// The room that one frame wants among what is gathered: a payload of 4,096 octets, a header and a
/// trailer.
pub const FRAME_ROOM: usize = 4163;

/// An end of a session, which a link is read and written for.
pub trait End {
    /// What the end holds itself to, whatever comes.
    ghost Terms: { Type 0 };

    ghost terms: { Self → Self.Terms };

    /// It stands for the log of its link, the latest first, once these octets are written too, and
    /// for the text that it wrote to its output.
    ghost stands: { Self → List Entry → List ℕ → List ℕ → Type 0 };

    /// What a log shows where the session of an end with these terms has ended so, and what the
    /// text is then that was written to the output.
    ghost tells: { Self.Terms → EndedValue → List Entry → List ℕ → Type 0 };

    /// What holds of it where its session isn't over.
    ghost goes: { Self → Type 0 };

    /// What holds of it where it has nothing more to say by itself.
    ghost rests: { Self → Type 0 };

    /// Appends what is due now, as far as there is room, and answers whether more may be. Where
    /// none may be it rests.
    fn gather(&mut self, out: &mut Octets) -> Result<bool, NoMemory>
        requires room { FRAME_ROOM ≤ out.old.spare }
        ensures said { (log : List Entry) (text : List ℕ)
            → Self.stands self.old log out.old.octets text
            → OnOk result (Self.stands self.new log out.new.octets text) }
        ensures rested { (log : List Entry) (text : List ℕ)
            → Self.stands self.old log out.old.octets text
            → IfOk result (λ more. more ≡ false → Self.rests self.new) }
        ensures terms { Self.terms self.new ≡ Self.terms self.old };

    /// Uses all of these octets, unless it is stopped, and writes what it has to tell.
    fn hear<O: Sink>(&mut self, bytes: &[u8], output: &mut O) -> Result<(), Stop>
        ensures heard { (log : List Entry) (text : List ℕ) → Self.stands self.old log [] text
            → OnOk result (WithText (O.state output.old).written (O.state output.new).written
            (λ more. Self.stands self.new (came bytes.now ∷ log) [] (text ++ more))) }
        ensures stopped { (log : List Entry) (text : List ℕ) → Self.stands self.old log [] text
            → IfErr result (λ stop. WithText (O.state output.old).written
            (O.state output.new).written (λ more. Self.tells (Self.terms self.old)
            (ended_by stop) (came bytes.now ∷ log) (text ++ more))) }
        ensures grew { Grows (O.state output.old).written (O.state output.new).written }
        ensures failed { IfErr result (λ stop. stop ≡ StopValue.WriteFault
            → Rose (O.state output.old).faults (O.state output.new).faults) }
        ensures terms { Self.terms self.new ≡ Self.terms self.old }
        ensures kept { (O.state output.old).faults ≤ (O.state output.new).faults };

    /// What its session was stopped by, where that is over.
    fn over(&self) -> Option<Stop>
        ensures over { (log : List Entry) (text : List ℕ) → Self.stands self.now log [] text
            → IfSome result (λ stop.
            Self.tells (Self.terms self.now) (ended_by stop) log text) }
        ensures unfailed { IfSome result (λ stop. stop ≢ StopValue.WriteFault) }
        ensures going { IfNone result (Self.goes self.now) };

    /// How many octets came of a frame that isn't whole.
    fn left(&self) -> u64
        ensures cut { (log : List Entry) (text : List ℕ) → Self.goes self.now
            → Self.stands self.now log [] text
            → Self.tells (Self.terms self.now) (EndedValue.Cut result) log text };

    /// What is written goes from what is to be written to the log, in pieces of any size.
    ghost writes: { (end : Self) (log : List Entry) (front octets text : List ℕ)
        → Self.stands end log (front ++ octets) text
        → Self.stands end (wrote front ∷ log) octets text };

    /// A quiet read and the link's end leave what it stands for.
    ghost quiets: { (end : Self) (log : List Entry) (text : List ℕ)
        → Self.stands end log [] text → Self.stands end (quiet ∷ log) [] text };

    ghost closes: { (end : Self) (log : List Entry) (text : List ℕ)
        → Self.stands end log [] text → Self.stands end (over ∷ log) [] text };

    /// It may be stopped at any place because memory ran out and by a fault of the link.
    ghost stops: { (end : Self) (log : List Entry) (octets text : List ℕ) (ended : EndedValue)
        → IsOfFaults ended → Self.stands end log octets text
        → Self.tells (Self.terms end) ended log text };

    /// While its session isn't over it may be stopped by the settings, once all is written and it
    /// rests.
    ghost spends: { (end : Self) (log : List Entry) (text : List ℕ) (ended : EndedValue)
        → IsOfReads ended → Self.goes end → Self.rests end → Self.stands end log [] text
        → Self.tells (Self.terms end) ended log text };
}
