//! What one side of a link has spelled.

use beep_frame::{Decoder, MAX_PAYLOAD, Step};
use beep_octets::NoMemory;
use std::alloc::Global;

/// The frames of one side.
#[derive(Drop)]
pub(crate) struct Wire {
    pub(crate) decoder: Decoder,
    /// The octets that came, modulo 2^64.
    pub(crate) used: u64,
    /// The frames and SEQs that passed, modulo 2^128.
    pub(crate) frames: u128,
}

impl Wire {
    ghost use Rattle.std.specs.Prelude.{◌≡◌, [], None, IfOk};
    ghost use Rattle.beep_history.specs.declared.journal.Side.{Side};
    ghost use Rattle.beep_journal.specs.Journal.{no_past};
    ghost use Rattle.beep_record.specs.Following.{IsSide};
    ghost use Rattle.std.specs.Prelude.{◌⊎◌, ◌+◌, ◌<◌, ◌≤◌, length, true, IsTrue};
    ghost use Rattle.beep_frame.specs.Fed.{Fed};
    ghost use Rattle.beep_frame.specs.declared.step.Step.{Step as step_type};
    ghost use Rattle.beep_frame.specs.Decoding.{WasFed};
    ghost use Rattle.beep_frame.specs.Decodes.{Decodes, is_broken};
    ghost use Rattle.beep_frame.specs.Modulo.{modulo_2_64};

    /// A side of which no octet came.
    pub(crate) fn new(alloc: Global) -> Result<Wire, NoMemory>
        ensures { IfOk result (λ wire. (side : Side) → IsSide side wire None no_past) }
    {
        Ok(Wire {
            decoder: Decoder::new(alloc, MAX_PAYLOAD)?,
            used: 0,
            frames: 0,
        })
    }

    /// Takes octets up to the next step, and answers how many, and the step.
    pub(crate) fn feed(&mut self, octets: &[u8]) -> (usize, Step)
        ensures within { result.0 ≤ length octets.now }
        ensures decodes { (fed : Fed) → WasFed self.old.decoder fed
            → Decodes result.1 self.new.decoder fed octets.now result.0 }
        ensures progress { 0 < length octets.now → (0 < result.0) ⊎ IsTrue (is_broken result.1) }
        ensures frame { result.1 ≡ step_type.Frame → self.new.decoder.whole ≡ true }
        ensures used { self.new.used ≡ modulo_2_64 (self.old.used + result.0) }
        ensures max { self.new.decoder.tracker.max ≡ self.old.decoder.tracker.max }
        ensures frames { self.new.frames ≡ self.old.frames }
    {
        let (count, step) = self.decoder.feed(octets);
        self.used = self.used.wrapping_add(count as u64);
        (count, step)
    }
}
