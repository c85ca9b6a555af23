//! What is known of a counted output in proofs, by its type.
ghost use Rattle.std.specs.Prelude.{Option, None};
ghost use Rattle.beep_lines.specs.Counting.{Start};

use std::marker::Brand;

/// From where a sink counts, whatever calls go through it, for proofs alone. Nothing is kept of it
/// when the program runs.
pub trait Counting {
    /// The output and what was written to it before; or nothing is known.
    ghost known: { Option Start };
}

impl Counting for Brand {
    ghost known = { None };
}
