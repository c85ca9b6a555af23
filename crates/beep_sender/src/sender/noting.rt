//! What a sender notes of a frame that goes out, and of a message that was settled.
ghost use Rattle.std.specs.Prelude.{◌≡◌, ◌==◌, ◌&&◌, ◌||◌, IfErr, IfOk, Ok};
ghost use Rattle.beep_steps.specs.beep_frame.specs.Frame.{is_nul as is_nul_kind};
ghost use Rattle.beep_steps.specs.beep_speaking.specs.declared.emit.Emit.{Emit as EmitValue};
ghost use Rattle.beep_steps.specs.beep_link.specs.declared.ended.Stop.{Stop as StopValue};
ghost use Rattle.beep_steps.specs.Refusing.{closed_so, closing_by};

use super::{CHANNEL, CLOSE};
use beep_steps::beep_frame::{Head, Kind};
use beep_steps::beep_link::Stop;
use beep_steps::beep_octets::NoMemory;
use beep_steps::beep_session::Settled;

/// Whether the close of the channel has begun, or begins with this frame.
pub(super) fn is_closing_by(is_closing: bool, head: &Head) -> bool
    ensures { result ≡ closing_by (EmitValue.Data head.now) is_closing }
{
    is_closing || (head.channel == 0 && head.kind.is_msg() && head.msgno == CLOSE)
}

/// Whether a frame ends the lines.
pub(super) fn ends_lines(head: &Head) -> bool
    ensures { result ≡ (head.now.channel == 1 && is_nul_kind head.now.kind) }
{
    head.channel == CHANNEL && is_nul(head.kind)
}

fn is_nul(kind: Kind) -> bool
    ensures { result ≡ is_nul_kind kind }
{
    match kind {
        Kind::Nul => true,
        Kind::Msg | Kind::Rpy | Kind::Err | Kind::Ans => false,
    }
}

/// The code with which the peer closes the channel or the session, where the own close hasn't
/// begun.
pub(super) fn closed_early(is_closing: bool, settled: &Settled) -> Option<u16>
    ensures { result ≡ closed_so is_closing settled.now }
{
    match settled {
        Settled::PeerCloses { number, code } => if !is_closing && *number <= CHANNEL {
            Some(*code)
        } else {
            None
        },
        Settled::Greeted
        | Settled::Denied(_)
        | Settled::Begun { .. }
        | Settled::NotBegun { .. }
        | Settled::PeerStarts { .. }
        | Settled::PeerRefused { .. }
        | Settled::Closed { .. }
        | Settled::NotClosed { .. }
        | Settled::Stale(_)
        | Settled::Released => None,
    }
}

/// What stops a session that is out of memory.
pub(super) fn stopped(asked: Result<(), NoMemory>) -> Result<(), Stop>
    ensures err { IfErr result (λ stop. stop ≡ StopValue.NoMemory) }
    ensures ok { IfOk result (λ unit. asked ≡ Ok unit) }
{
    match asked {
        Ok(()) => Ok(()),
        Err(NoMemory) => Err(Stop::NoMemory),
    }
}
