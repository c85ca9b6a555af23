//! The moments of channel zero that begin and end lives (RFC 3080, sections 2.3.1.2 and 2.3.1.3).

use beep_history::Side;

/// A moment of channel zero. A close is named by its side and its position.
#[derive(Clone, Copy, Debug, PartialEq, Eq)]
pub enum LifeEvent {
    /// A whole close of a number came.
    CloseCame(Side, usize, u32),
    /// A start of a number was granted.
    StartGranted(u32),
    /// The close of a number was granted.
    CloseGranted(Side, usize, u32),
}
