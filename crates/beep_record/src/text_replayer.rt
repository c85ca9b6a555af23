//! What replaying a text keeps.

use crate::reader::Reader;
use crate::replayer::Replayer;
use beep_octets::Octets;

/// A reader that keeps no entry, the session of those that it has read, and the report of that.
#[derive(Drop)]
pub(crate) struct TextReplayer {
    pub(crate) reader: Reader,
    pub(crate) replayer: Replayer,
    pub(crate) out: Octets,
}
