//! What a recorded session shows.
ghost use Rattle.std.specs.Prelude.{◌≡◌};
ghost use Rattle.beep_record.specs.Verdicts.{verdict_by};

use beep_frame::Rule;
use beep_history::Side;

/// What a recorded session shows. The place counts the octets of its direction from 0, modulo 2^64.
#[derive(Clone, Copy, Debug, PartialEq, Eq)]
pub enum Verdict {
    /// No rule was broken.
    Fine,
    /// The peer broke this rule first, at this octet of those that were read.
    Broken(Rule, u64),
    /// The end that kept the record broke this rule first, at this octet of those that it wrote.
    Written(Rule, u64),
}

/// The verdict where a side broke a rule at this place, or none.
pub(crate) fn verdict_by(side: Side, rule: Option<Rule>, place: u64) -> Verdict
    ensures { result ≡ verdict_by side rule place }
{
    match (rule, side) {
        (None, _) => Verdict::Fine,
        (Some(rule), Side::Received) => Verdict::Broken(rule, place),
        (Some(rule), Side::Sent) => Verdict::Written(rule, place),
    }
}
