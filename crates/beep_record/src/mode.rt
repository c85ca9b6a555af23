//! Where in a record a reader stands.
//!
//! ```text
//! First -> Start -> Line -> Piece -> Start
//!            |  \-> Quiet, Ended --> Start
//!            \---> Status -> Code -> Digits -> Over
//! ```

use beep_history::Side;
use beep_journal::Role;

/// Where in the text of an octet the reader stands.
#[derive(Clone, Copy, Debug)]
pub(crate) enum Part {
    /// Before it.
    Fresh,
    /// After `\`.
    Slash,
    /// After `\` and the first digit, which stands for this.
    High(u8),
}

/// Where in a record the reader stands.
#[derive(Clone, Copy, Debug)]
pub(crate) enum Mode {
    /// After so many octets of the first line, which may be that of this role.
    First(Role, u8),
    /// Before a line.
    Start,
    /// After the letter of a piece.
    Line(Side),
    /// In a piece.
    Piece(Side, Part),
    /// After `Q`.
    Quiet,
    /// After `E`.
    Ended,
    /// After `S`.
    Status,
    /// Before the digits of a status.
    Code,
    /// After digits of a status, which stand for this.
    Digits(u8),
    /// After the line of this status.
    Over(u8),
}
