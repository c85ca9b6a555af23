//! What refuses an end, by what was settled (RFC 3080, sections 2.3.1.1 to 2.3.1.3).
ghost use Rattle.std.specs.Prelude.{◌≡◌};
ghost use Rattle.beep_steps.specs.Refusing.{denial_of};

use beep_session::Settled;

/// The code of an error by which an own request was answered, where it was.
pub fn denial(settled: &Settled) -> Option<u16>
    ensures { result ≡ denial_of settled.now }
{
    match settled {
        Settled::Denied(code) | Settled::NotBegun { code, .. } | Settled::NotClosed { code, .. } =>
            Some(*code),
        Settled::Stale(code) => *code,
        Settled::Greeted
        | Settled::Begun { .. }
        | Settled::PeerStarts { .. }
        | Settled::PeerRefused { .. }
        | Settled::PeerCloses { .. }
        | Settled::Closed { .. }
        | Settled::Released => None,
    }
}
