//! The first of some flags that is set.
ghost use Rattle.std.specs.Prelude.{◌≡◌};
ghost use Rattle.std.specs.List.{list_any, position};

/// The place of the first flag that is set, counted from 0. Where none is set no flag is looked at
/// by itself.
pub fn first(flags: &[bool]) -> Option<usize>
    ensures { result ≡ position (λ flag. flag) flags.now }
{
    if !is_any_set(flags) {
        return None;
    }
    flags.iter().position(|flag| *flag)
}

/// Whether a flag is set. All are put together, many at a time.
fn is_any_set(flags: &[bool]) -> bool
    ensures { result ≡ list_any (λ flag. flag) flags.now }
{
    let mut any = false;
    for flag in flags {
        any |= *flag;
    }
    any
}
