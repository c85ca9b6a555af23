//! Reading a record.
ghost use Rattle.std.specs.Prelude.{◌≡◌, IfOk, IfErr};
ghost use Rattle.beep_record.specs.Machine.{may_end};
ghost use Rattle.beep_record.specs.Record.{Says};
ghost use Rattle.beep_record.specs.Refused.{Refuses};

use crate::log::Log;
use crate::mode::Mode;
use crate::reader::Reader;
use std::alloc::Global;
use thiserror::Error;

/// Why a text isn't read as a record.
#[derive(Clone, Copy, Debug, PartialEq, Eq, Error)]
pub enum RecordError {
    /// No record has the octets before this place and the one there, or the text ends too soon.
    #[error("bad record at {0}")]
    BadRecord(u64),
    /// Out of memory; a later call may succeed.
    #[error("out of memory")]
    NoMemory,
}

/// The log that a record says. It goes over the octets once, and takes memory for what the log
/// holds.
pub fn read_record(alloc: Global, text: &[u8]) -> Result<Log, RecordError>
    ensures value { IfOk result (λ log. Says text.now log.role log.entries) }
    ensures refused { IfErr result (λ error. Refuses text.now error) }
{
    let mut reader = Reader::new(alloc);
    let mut i = 0;
    while i < text.len() {
        match reader.take(&text[i..]) {
            Ok(0) => return Err(RecordError::BadRecord(i as u64)),
            Ok(count) => i += count,
            Err(_) => return Err(RecordError::NoMemory),
        }
    }
    if !may_end(reader.mode) {
        return Err(RecordError::BadRecord(text.len() as u64));
    }
    Ok(Log {
        role: reader.role,
        entries: reader.entries,
    })
}

/// Whether a text may end here.
pub(crate) fn may_end(mode: Mode) -> bool
    ensures { result ≡ may_end mode }
{
    matches!(mode, Mode::Start | Mode::Over(_))
}
