//! A profile: what a channel may be started with (RFC 3080, section 2.3.1.2).

use beep_chars::Text;
use beep_octets::Octets;

/// How the content of a profile is written.
#[derive(Clone, Copy, Debug, PartialEq, Eq)]
pub enum Encoding {
    /// As characters and elements.
    Plain,
    /// In Base64.
    Base64,
    /// In a way that isn't known here.
    Other,
}

/// A URI and what comes with it.
#[derive(Debug, Drop)]
pub struct Profile {
    /// What names the profile.
    pub uri: Text,
    /// How the content came, which has no say in how it is written.
    pub encoding: Encoding,
    /// The octets that the content stands for.
    pub content: Octets,
    /// Whether the content could be had, which is then empty where it couldn't.
    pub readable: bool,
}
