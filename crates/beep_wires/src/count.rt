//! Counts that stay at their greatest value.
ghost use Rattle.std.specs.Prelude.{◌≡◌};
ghost use Rattle.beep_wires.specs.Counts.{next_count};

/// The greatest value of a count of calls or of faults, where it stays: the last of 64 bits.
pub const COUNT_MAX: u64 = 18446744073709551615;

/// The count after one more call.
pub fn next_count(count: u64) -> u64
    ensures { result ≡ next_count count }
{
    count.saturating_add(1)
}
