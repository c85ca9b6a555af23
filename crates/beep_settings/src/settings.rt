//! What a caller sets for an end.
ghost use Rattle.std.specs.Prelude.{◌≡◌, IfOk};
ghost use Rattle.beep_settings.specs.Defaults.{default_settings};

use beep_chars::Text;
use beep_octets::NoMemory;
use beep_seq::INITIAL_WINDOW;
use std::alloc::Global;

/// The host that is dialled where nothing else is set.
pub const HOST: &str = "localhost";

/// The address on which links are accepted where nothing else is set: each IPv4 address of the host.
pub const BIND: &str = "0.0.0.0";

/// The URI of the profile RAW where nothing else is set (RFC 3195, section 6.2).
pub const RAW_URI: &str = "http://xml.resource.org/profiles/syslog/RAW";

/// The port where nothing else is set, that of syslog over BEEP (RFC 3195, section 9.2).
pub const PORT: u16 = 601;

/// The most octets of payload in one frame where nothing else is set.
pub const PIECE: u32 = 1024;

/// How many quiet reads in a row end a session where nothing else is set: an hour, where a read
/// waits a tenth of a second.
pub const IDLE: u32 = 36000;

/// How many octets are read of a link at most where nothing else is set, a gibibyte.
pub const OCTETS: u32 = 1073741824;

/// How many links are accepted where nothing else is set.
pub const SESSIONS: u32 = 1;

/// What the options of `send` and `listen` say. Each end looks at those that concern it.
#[derive(Debug, Drop)]
pub struct Settings {
    /// The host that is dialled, 1 to 253 octets.
    pub host: Text,
    /// The IPv4 or IPv6 address on which links are accepted, at most 45 octets.
    pub bind: Text,
    /// The port that is dialled, or on which links are accepted, from 1.
    pub port: u16,
    /// The URI of the profile RAW, 1 to 255 printable characters of ASCII.
    pub raw_uri: Text,
    /// The own window of each channel, in octets, 4,096 to 65,536; where nothing is set, the one
    /// with which a channel begins.
    pub window: u32,
    /// The most octets of payload in one frame that is sent, 1 to 4,096.
    pub piece: u32,
    /// How many quiet reads in a row end the session, from 1.
    pub idle: u32,
    /// How many octets are read of one link at most, from 1.
    pub octets: u32,
    /// How many links are accepted one after another, from 1.
    pub sessions: u32,
    /// Whether the record of the one link is written in place of other output.
    pub recording: bool,
    /// Whether nothing is told of a session that ended.
    pub quiet: bool,
}

impl Settings {
    /// What holds where nothing is set.
    pub fn new(alloc: Global) -> Result<Settings, NoMemory>
        ensures { IfOk result (λ settings. settings ≡ default_settings) }
    {
        Ok(Settings {
            host: Text::of(alloc, HOST)?,
            bind: Text::of(alloc, BIND)?,
            port: PORT,
            raw_uri: Text::of(alloc, RAW_URI)?,
            window: INITIAL_WINDOW,
            piece: PIECE,
            idle: IDLE,
            octets: OCTETS,
            sessions: SESSIONS,
            recording: false,
            quiet: false,
        })
    }
}
