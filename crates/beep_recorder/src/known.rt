//! What is known of a recorder in proofs, by its type.
ghost use Rattle.std.specs.Prelude.{Option, None};
ghost use Rattle.beep_recorder.specs.Kept.{Recording};

use std::marker::Brand;

/// What a recorder records, whatever calls go through it, for proofs alone. Nothing is kept of it
/// when the program runs.
pub trait Known {
    /// The link that is recorded, by its number, and the end at which it is; or nothing is known.
    ghost known: { Option Recording };
}

impl Known for Brand {
    ghost known = { None };
}
