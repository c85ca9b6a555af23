//! The values of the elements of channel zero (RFC 3080, section 2.3.1).

use crate::profile::Profile;
use crate::profiles::Profiles;
use beep_chars::Text;

/// What a message of channel zero says.
#[derive(Debug, Drop)]
pub enum Mgmt {
    /// The first reply of each peer, with the profiles that it offers.
    Greeting {
        features: Option<Text>,
        localize: Option<Text>,
        profiles: Profiles,
    },
    /// A request for a channel with one of these profiles.
    Start {
        number: u32,
        server: Option<Text>,
        profiles: Profiles,
    },
    /// The profile that a channel was started with.
    Chosen {
        profile: Profile,
    },
    /// A request to close a channel, or the session by the number 0.
    Close {
        number: u32,
        code: u16,
        note: Text,
    },
    /// That a request to close is met.
    Okay,
    /// Why a request isn't met.
    Fault {
        code: u16,
        note: Text,
    },
}
