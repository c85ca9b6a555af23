//! What the table of answers means, as facts that hold of whatever stands and is asked: each
//! function does nothing, and its contract is the fact.
ghost use Rattle.std.specs.Prelude.{◌≡◌, ℕ, true, List, Option, Some};
ghost use Rattle.beep_frame.specs.declared.kind.Kind.{Kind};
ghost use Rattle.beep_mgmt.specs.Form.{Form, PlainProfile, start};
ghost use Rattle.beep_journal.specs.Zero.{has_form};
ghost use Rattle.beep_decide.specs.Decide.{PlainStanding, refuse, choose, grant_close, decide, answer_of};
ghost use Rattle.beep_decide.specs.Laws.{IsFirstOffered};

/// A start is granted with the offer of the first profile, in its order, that is offered, where
/// that offer isn't tuning.
pub fn a_start_is_granted_what_it_lists()
    ensures { (standing : PlainStanding) (number place : ℕ) (server : Option (List ℕ))
        (listed : List PlainProfile)
        → decide standing (Some (start number server listed)) ≡ choose place
        → IsFirstOffered standing.offers listed place }
{}

/// An answer has the form that its request asks for: the peer finds no broken rule in it.
pub fn an_answer_has_the_form_of_its_request()
    ensures refused { (standing : PlainStanding) (position code : ℕ) (request : Option Form)
        → decide standing request ≡ refuse code
        → has_form Kind.Err position request (answer_of standing (refuse code)) ≡ true }
    ensures chosen { (standing : PlainStanding) (position place : ℕ) (request : Option Form)
        → decide standing request ≡ choose place
        → has_form Kind.Rpy position request (answer_of standing (choose place)) ≡ true }
    ensures closed { (standing : PlainStanding) (position : ℕ) (request : Option Form)
        → decide standing request ≡ grant_close
        → has_form Kind.Rpy position request (answer_of standing grant_close) ≡ true }
{}
