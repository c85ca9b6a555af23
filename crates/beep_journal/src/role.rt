//! The role of an end (RFC 3080, section 2.1).

/// Which end of a link an end is.
#[derive(Clone, Copy, Debug, PartialEq, Eq)]
pub enum Role {
    /// It opened the link.
    Initiator,
    /// It accepted the link.
    Listener,
}
