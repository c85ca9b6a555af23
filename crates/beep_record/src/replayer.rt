//! What replaying a record keeps.

use crate::verdict::Verdict;
use crate::wire::Wire;
use beep_judge::Judge;

/// Both sides of a session, its judge, and what is known of it.
#[derive(Drop)]
pub(crate) struct Replayer {
    pub(crate) received: Wire,
    pub(crate) sent: Wire,
    pub(crate) judge: Judge,
    pub(crate) verdict: Verdict,
}
