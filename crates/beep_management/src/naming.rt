//! Whether a close names a live life.
ghost use Rattle.std.specs.Prelude.{◌≡◌};
ghost use Rattle.beep_asked.specs.Kept.{names_one};
ghost use Rattle.beep_asked.specs.Request.{kept_of};
ghost use Rattle.beep_management.specs.Moved.{is_live_in};

use beep_asked::Request;
use beep_asked::beep_lives::Lives;
use beep_asked::beep_mgmt::Mgmt;

/// Whether a request is a close of a number above 0 that is live.
pub(crate) fn names_live(request: &Request, lives: &Lives) -> bool
    ensures { result ≡ names_one (is_live_in lives.now) (kept_of request.now).said }
{
    match &request.said {
        Some(Mgmt::Close { number, .. }) => 0 < *number && lives.is_live(*number),
        Some(
            Mgmt::Greeting { .. }
            | Mgmt::Start { .. }
            | Mgmt::Chosen { .. }
            | Mgmt::Okay
            | Mgmt::Fault { .. },
        )
        | None => false,
    }
}
