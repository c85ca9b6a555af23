//! What a sender stands for with more lines, as facts: each function does nothing, and its contract
//! is the fact.
ghost use Rattle.std.specs.Prelude.{◌≡◌, ℕ, List, []};
ghost use Rattle.beep_steps.specs.beep_history.specs.Journal.{Item};
ghost use Rattle.beep_steps.specs.beep_journal.specs.Log.{Moment};
ghost use Rattle.beep_steps.specs.beep_session.specs.Session.{Held};
ghost use Rattle.beep_steps.specs.beep_talk.specs.declared.plan.Command.{Command};
ghost use Rattle.beep_steps.specs.beep_talk.specs.Plan.{PlainPlan};
ghost use Rattle.beep_steps.specs.beep_script.specs.Desk.{desk};
ghost use Rattle.beep_steps.specs.beep_replies.specs.Replies.{KeepsAbove};
ghost use Rattle.beep_steps.specs.Desking.{DesksOn, DesksWaiting, DesksWithin};
ghost use Rattle.beep_steps.specs.Scripting.{ScriptedOn, ScriptedWaiting};
ghost use Rattle.beep_steps.specs.Sending.{Progress};
ghost use Rattle.beep_growing.specs.Growing.{with_more, AnswersPart, EndsNoReply, FollowsOn, FollowsWaiting, FollowsWithin, IsUnended};

/// A sender that kept its script above channel zero with the lines so far kept it with more lines
/// too, while the end of its lines isn't given: between two steps, and while a message of channel
/// zero waits.
pub fn a_script_goes_on_with_more_lines()
    ensures on { (more : List (List ℕ)) (plan : PlainPlan) (progress : Progress) (session : Held)
        (log : List Moment) (scripted : ScriptedOn plan progress session log)
        → IsUnended plan progress scripted.sends.on.journal scripted.sends.on.given
        → ScriptedOn (with_more more plan) progress session log }
    ensures waiting { (more : List (List ℕ)) (plan : PlainPlan) (progress : Progress)
        (session : Held) (log : List Moment)
        (scripted : ScriptedWaiting plan progress session log)
        → IsUnended plan progress scripted.sends.on.journal scripted.sends.on.given
        → ScriptedWaiting (with_more more plan) progress session log }
{}

/// What a sender's script lists and owes on channel zero is the same with more lines, while no
/// reply of its has ended above channel zero, and what it sent there is the beginning of its
/// script.
pub fn more_lines_change_nothing_that_is_listed()
    ensures { (more : List (List ℕ)) (plan : PlainPlan) (journal : List Item)
        → plan.command ≡ Command.Send → KeepsAbove plan journal → EndsNoReply journal
        → desk (with_more more plan) journal ≡ desk plan journal }
{}

/// So what a sender gave and prepared on channel zero is what its script lists and owes there with
/// more lines too: between two steps, within one, and while a message of channel zero waits.
pub fn a_desk_goes_on_with_more_lines()
    ensures on { (more : List (List ℕ)) (plan : PlainPlan) (progress : Progress) (session : Held)
        (log : List Moment) (scripted : ScriptedOn plan progress session log)
        → IsUnended plan progress scripted.sends.on.journal scripted.sends.on.given
        → DesksOn plan session log → DesksOn (with_more more plan) session log }
    ensures within { (more : List (List ℕ)) (plan : PlainPlan) (progress : Progress)
        (session : Held) (log : List Moment) (scripted : ScriptedOn plan progress session log)
        → IsUnended plan progress scripted.sends.on.journal scripted.sends.on.given
        → DesksWithin plan session log → DesksWithin (with_more more plan) session log }
    ensures waiting { (more : List (List ℕ)) (plan : PlainPlan) (progress : Progress)
        (session : Held) (log : List Moment)
        (scripted : ScriptedWaiting plan progress session log)
        → IsUnended plan progress scripted.sends.on.journal scripted.sends.on.given
        → DesksWaiting plan session log → DesksWaiting (with_more more plan) session log }
{}

/// A sender that offers nothing has sent the end of no reply above channel zero, where it answered
/// as many lines as the place of the next says, and no NUL went.
pub fn a_sender_that_gave_no_nul_has_ended_no_reply()
    ensures on { (plan : PlainPlan) (progress : Progress) (session : Held) (log : List Moment)
        (scripted : ScriptedOn plan progress session log) → DesksOn plan session log
        → plan.offers ≡ []
        → AnswersPart plan progress scripted.sends.on.journal scripted.sends.on.given
        → IsUnended plan progress scripted.sends.on.journal scripted.sends.on.given }
    ensures within { (plan : PlainPlan) (progress : Progress) (session : Held)
        (log : List Moment) (scripted : ScriptedOn plan progress session log)
        → DesksWithin plan session log → plan.offers ≡ []
        → AnswersPart plan progress scripted.sends.on.journal scripted.sends.on.given
        → IsUnended plan progress scripted.sends.on.journal scripted.sends.on.given }
{}

/// What a sender is while the end of its lines isn't given it is with more lines too, so that it
/// may go on with more again.
pub fn a_sender_goes_on_with_more_lines()
    ensures on { (more : List (List ℕ)) (plan : PlainPlan) (progress : Progress) (session : Held)
        (log : List Moment) → FollowsOn plan progress session log
        → FollowsOn (with_more more plan) progress session log }
    ensures within { (more : List (List ℕ)) (plan : PlainPlan) (progress : Progress)
        (session : Held) (log : List Moment) → FollowsWithin plan progress session log
        → FollowsWithin (with_more more plan) progress session log }
    ensures waiting { (more : List (List ℕ)) (plan : PlainPlan) (progress : Progress)
        (session : Held) (log : List Moment) → FollowsWaiting plan progress session log
        → FollowsWaiting (with_more more plan) progress session log }
{}
