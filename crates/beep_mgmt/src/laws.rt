//! Laws above the definitions of specs/. The functions only call laws of `beep_text`: what they
//! ensure is the law.
ghost use Rattle.std.specs.Prelude.{◌≡◌, ◌↔◌, ◌≤◌, ℕ, List, length, Some};
ghost use Rattle.beep_text.specs.declared.limits.TheConstants.{MAX_TEXT};
ghost use Rattle.beep_mgmt.specs.declared.read.MgmtError.{MgmtError};
ghost use Rattle.beep_mgmt.specs.Form.{Form};
ghost use Rattle.beep_mgmt.specs.Message.{Says, RefusesMessage, message_said};

use beep_text::laws::{
    a_body_says_one_element, a_body_stops_nowhere, the_element_said_is_that_of_the_body,
};

/// A message says one value.
pub fn a_message_says_one_value()
    ensures { (payload : List ℕ) (f g : Form) → Says payload f → Says payload g → f ≡ g }
{
    a_body_says_one_element();
}

/// A message that says a value and isn't too long is read, out of memory apart.
pub fn a_message_that_says_a_value_is_read()
    ensures { (payload : List ℕ) (form : Form) (error : MgmtError)
        → Says payload form → length payload ≤ MAX_TEXT → RefusesMessage payload error
        → error ≡ MgmtError.NoMemory }
{
    a_body_says_one_element();
    a_body_stops_nowhere();
}

/// The function from messages to values gives exactly the value that a message says, up to the
/// most octets that are read.
pub fn the_value_said_is_that_of_the_message()
    ensures { (payload : List ℕ) (form : Form)
        → (message_said payload ≡ Some form) ↔ ((length payload ≤ MAX_TEXT) × Says payload form) }
{
    the_element_said_is_that_of_the_body();
}
