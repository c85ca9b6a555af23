//! What an end says first on channel zero, and what it has listed and not given yet, as facts: each
//! function does nothing, and its contract is the fact.
ghost use Rattle.std.specs.Prelude.{◌≡◌, ◌∷◌, [], ℕ, List, true, false};
ghost use Rattle.beep_session.specs.beep_answering.specs.Sent.{is_uri};
ghost use Rattle.beep_session.specs.beep_journal.specs.Log.{Moment};
ghost use Rattle.beep_session.specs.Session.{Held};
ghost use Rattle.beep_desk.specs.beep_script.specs.Requested.{SenderTexts};
ghost use Rattle.beep_desk.specs.beep_talk.specs.Plan.{PlainPlan};
ghost use Rattle.beep_steps.specs.Desking.{DesksOn, IsGreetingRead};
ghost use Rattle.beep_steps.specs.Listed.{GivenOrWaitsOn};
ghost use Rattle.beep_steps.specs.Logs.{AreTaken};
ghost use Rattle.beep_steps.specs.Scripting.{ScriptedOn};
ghost use Rattle.beep_steps.specs.Sending.{Progress};
ghost use Rattle.beep_steps.specs.Serving.{ServesOn};
ghost use Rattle.beep_steps.specs.Speaking.{Notes, SpeaksOn};

use beep_session::beep_mgmt::laws::the_value_said_is_that_of_the_message;

/// Each message that a sender asks on channel zero is read as what it says, where its URI may be
/// offered (RFC 3080, section 2.3.1).
pub fn what_a_sender_asks_is_read()
    ensures { (uri : List ℕ) → is_uri uri ≡ true → SenderTexts uri }
{
    the_value_said_is_that_of_the_message();
}

/// The greeting of a listener that offers one profile is read as what it says, where its URI may be
/// offered (RFC 3080, section 2.3.1.1).
pub fn what_a_listener_greets_with_is_read()
    ensures { (uri : List ℕ) → is_uri uri ≡ true
        → IsGreetingRead (record { uri = uri; tuning = false } ∷ []) }
{
    the_value_said_is_that_of_the_message();
}

/// The greeting of a sender, which offers nothing, is read as what it says (RFC 3080, section
/// 2.3.1.1).
pub fn what_a_sender_greets_with_is_read()
    ensures { IsGreetingRead [] }
{
    the_value_said_is_that_of_the_message();
}

/// Between two steps all that a listener has to say is given, but the replies to the requests that
/// it owes, which wait in their order (RFC 3195, section 3).
pub fn what_a_listener_lists_is_given_or_waits()
    ensures { (plan : PlainPlan) (notes : Notes) (session : Held) (log : List Moment)
        → ServesOn plan session log → SpeaksOn plan notes session log → DesksOn plan session log
        → AreTaken session → GivenOrWaitsOn plan 0 session log }
{}

/// Between two steps all that a sender has to say is given, but the replies to the requests that
/// it owes, which wait in their order: of the first one the answers from the next line on, and
/// their end (RFC 3195, section 3.1).
pub fn what_a_sender_lists_is_given_or_waits()
    ensures { (plan : PlainPlan) (p : Progress) (session : Held) (log : List Moment)
        → plan.offers ≡ [] → ScriptedOn plan p session log → DesksOn plan session log
        → AreTaken session → GivenOrWaitsOn plan p.next session log }
{}
