//! Whether an end waited only where nothing was due, by plain look-back over the log of its link
//! (RFC 3080, section 2.6.1; RFC 3081, section 3.1).
//!
//! No session runs this: it is the definitions in code, slow, so that they can be tried on
//! examples.
ghost use Rattle.std.specs.Prelude.{◌≡◌, ◌↔◌, true, IfOk};
ghost use Rattle.beep_journal.specs.Log.{flat};
ghost use Rattle.beep_script.specs.Prompt.{IsIdle, IsPrompt};
ghost use Rattle.beep_talk.specs.Plan.{HasAllowedUris};
ghost use Rattle.beep_talk.specs.Plain.{plain_plan};
ghost use Rattle.beep_shown.specs.Shown.{log_in};

use crate::shown::Shown;
use beep_octets::NoMemory;
use beep_record::Entry;
use beep_script::is_settled;
use beep_script::laws::nothing_is_due_exactly_where_the_test_says;
use beep_talk::Plan;
use std::alloc::Global;

/// Whether nothing of a script is due after a log, unless its session is over. The entries are in
/// the order of the latest first.
pub fn is_idle(alloc: Global, plan: &Plan, log: &[Entry]) -> Result<bool, NoMemory>
    requires uris { HasAllowedUris (plain_plan plan.now) }
    ensures { IfOk result (λ is. (is ≡ true)
        ↔ IsIdle (plain_plan plan.now) (flat (log_in log.now))) }
{
    let session = Shown::of(alloc, log)?;
    if session.is_over(alloc)? {
        return Ok(true);
    }
    nothing_is_due_exactly_where_the_test_says();
    is_settled(alloc, plan, session.journal())
}

/// Whether nothing was due wherever an end read, or found its link quiet or ended. The entries are
/// in the order of the latest first.
pub fn is_prompt(alloc: Global, plan: &Plan, log: &[Entry]) -> Result<bool, NoMemory>
    requires uris { HasAllowedUris (plain_plan plan.now) }
    ensures { IfOk result (λ is. (is ≡ true)
        ↔ IsPrompt (plain_plan plan.now) (log_in log.now)) }
{
    match log {
        [] => Ok(true),
        [Entry::Wrote(_), before @ ..] => is_prompt(alloc, plan, before),
        [Entry::Read(_) | Entry::Quiet | Entry::Ended, before @ ..] => {
            Ok(is_idle(alloc, plan, before)? && is_prompt(alloc, plan, before)?)
        }
    }
}
