//! Laws above the definitions of specs/. The functions do nothing: what they ensure is the law.
ghost use Rattle.std.specs.Prelude.{◌≡◌, ◌↔◌, ℕ, List, Some};
ghost use Rattle.beep_text.specs.Tree.{Tree};
ghost use Rattle.beep_text.specs.Lawful.{IsElement};
ghost use Rattle.beep_text.specs.Elements.{IsBody, Stops};
ghost use Rattle.beep_text.specs.Said.{element_said};
ghost use Rattle.beep_text.specs.Canonical.{element_text};

/// A body says one element.
pub fn a_body_says_one_element()
    ensures { (body : List ℕ) (e f : Tree) → IsBody body e → IsBody body f → e ≡ f }
{}

/// What a body says is an element that can be built: its names, texts and depth are lawful.
pub fn a_body_says_a_lawful_element()
    ensures { (body : List ℕ) (e : Tree) → IsBody body e → IsElement e }
{}

/// The function from bodies to elements gives exactly the element that a body says.
pub fn the_element_said_is_that_of_the_body()
    ensures { (body : List ℕ) (e : Tree) → (element_said body ≡ Some e) ↔ IsBody body e }
{}

/// A text that says no element stops at one place.
pub fn a_text_stops_at_one_place()
    ensures { (body : List ℕ) (p q : ℕ) → Stops body p → Stops body q → p ≡ q }
{}

/// A text that says an element stops nowhere.
pub fn a_body_stops_nowhere()
    ensures { (body : List ℕ) (e : Tree) (q : ℕ) → IsBody body e → ¬ (Stops body q) }
{}

/// What is read in the canonical text of an element is written as that text again.
pub fn canonical_text_is_written_again()
    ensures { (e f : Tree) → IsElement e → IsBody (element_text e) f
        → element_text f ≡ element_text e }
{}
