//! What a sender takes of a frame that arrives: all of it, and it uses none.
ghost use Rattle.std.specs.Prelude.{◌≡◌, ◌<◌, List, length};
ghost use Rattle.beep_steps.specs.beep_session.specs.beep_octets.specs.Numbers.{numbers_32};
ghost use Rattle.beep_steps.specs.beep_journal.specs.Log.{Moment};
ghost use Rattle.beep_steps.specs.beep_talk.specs.Plan.{PlainPlan};
ghost use Rattle.beep_sender.specs.Asking.{TakesFrame};
ghost use Rattle.beep_steps.specs.Desking.{DesksWithin};
ghost use Rattle.beep_steps.specs.Logs.{AreTaken, StaysOn};
ghost use Rattle.beep_steps.specs.Scripting.{KeepsScripting, ScriptedOn};
ghost use Rattle.beep_steps.specs.Sending.{KeepsSending, Progress};

use beep_steps::beep_session::Session;
use beep_steps::take_part;

/// Takes all that has arrived on a channel. A frame is one part of a message, or several.
pub(super) fn take_all(session: &mut Session, number: u32, buf: &mut [u8])
    requires some { 0 < length buf.old }
    requires fits { length buf.old < numbers_32 }
    ensures stays { StaysOn session.old session.new }
    ensures sending { (plan : PlainPlan) (p : Progress)
        → KeepsSending plan p p session.old session.new }
    ensures scripted { (plan : PlainPlan) (p : Progress)
        → KeepsScripting plan p p session.old session.new }
    ensures asking { (plan : PlainPlan) (p : Progress) (log : List Moment)
        → ScriptedOn plan p session.old log
        → DesksWithin plan session.old log → DesksWithin plan session.new log }
    ensures taken { (log : List Moment) → TakesFrame number 0 session.old log
        → AreTaken session.new }
    ensures length { length buf.new ≡ length buf.old }
{
    for _ in 0..u32::MAX {
        let Some(_part) = take_part(session, number, buf) else {
            return;
        };
    }
}
