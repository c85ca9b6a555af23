//! What is kept of a message of channel zero as it arrives.
//!
//! All of its octets are kept, until there are more than can be read: from then on none are.
ghost use Rattle.std.specs.Prelude.{◌≡◌, ◌≤◌, ℕ, List, [], length, IfOk};
ghost use Rattle.beep_standing.specs.beep_text.specs.declared.limits.TheConstants.{MAX_TEXT};

use beep_standing::beep_octets::{NoMemory, Octets};
use beep_standing::beep_text::MAX_TEXT;
use std::alloc::Global;
use std::marker::Model;

/// The octets so far of a message of channel zero, `MAX_TEXT` at most. Of a longer message none are
/// kept.
#[derive(Drop)]
pub struct ZeroText {
    octets: Octets,
    long: bool,
}

impl Model for ZeroText {
    ghost use Rattle.std.specs.Prelude.{◌≤◌, length};
    ghost use Rattle.beep_standing.specs.beep_text.specs.declared.limits.TheConstants.{MAX_TEXT};
    ghost use Rattle.beep_hearing.specs.Gathered.{Gathered};

    ghost Value = { Gathered };

    ghost view = { λ t. record {
      octets = t.octets.octets;
      long = t.long;
      spare = t.octets.spare;
    } };

    ghost invariant = { λ t. length t.octets.octets ≤ MAX_TEXT };
}

impl ZeroText {
    ghost use Rattle.beep_hearing.specs.Hears.{IsText};
    ghost use Rattle.beep_hearing.specs.Left.{Gathers};

    /// The text of a message of which nothing has come, with room for as much as is ever kept.
    pub(crate) fn new(alloc: Global) -> Result<ZeroText, NoMemory>
        ensures { IfOk result (λ text. IsText text []) }
    {
        let mut octets = Octets::new(alloc);
        octets.reserve(MAX_TEXT)?;
        Ok(ZeroText {
            octets,
            long: false,
        })
    }

    /// The octets that are kept.
    pub(crate) fn as_slice(&self) -> &[u8]
        ensures value { result.now ≡ self.now.octets }
        ensures few { length result.now ≤ MAX_TEXT }
    {
        self.octets.as_slice()
    }

    /// The octets of one more frame of the message.
    pub(crate) fn gather(&mut self, payload: &[u8])
        ensures { Gathers self.old self.new payload.now }
    {
        if self.long {
            return;
        }
        if MAX_TEXT.saturating_sub(self.octets.len()) < payload.len() {
            self.octets.clear();
            self.long = true;
            return;
        }
        self.octets.extend_within(payload);
    }

    /// The next message begins.
    pub(crate) fn clear(&mut self)
        ensures { (octets : List ℕ) → IsText self.old octets → IsText self.new [] }
    {
        self.octets.clear();
        self.long = false;
    }
}
