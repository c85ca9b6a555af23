//! What an end of a link is to do, and by which settings.

use beep_chars::Text;
use beep_decide::Offer;
use beep_lawful::Terms;
use prof_raw::Entries;

/// What an end is to do with syslog lines (RFC 3195, section 3).
#[derive(Clone, Copy, Debug, PartialEq, Eq)]
pub enum Command {
    /// To send lines on a channel that it starts.
    Send,
    /// To ask for lines on each channel that the peer starts.
    Listen,
}

/// What an end is to do, and by which settings.
#[derive(Debug, Drop)]
pub struct Plan {
    /// What it is to do.
    pub command: Command,
    /// Its role and its limits.
    pub terms: Terms,
    /// The profiles that it offers, in order.
    pub offers: Vec<Offer>,
    /// The URI of the profile RAW.
    pub raw_uri: Text,
    /// The lines that it is to send.
    pub lines: Entries,
}
