//! The texts that go with reply codes (RFC 3080, section 8).
ghost use Rattle.std.specs.Prelude.{◌≡◌, true, chars};
ghost use Rattle.std.specs.List.{list_all};
ghost use Rattle.beep_chars.specs.Characters.{is_allowed};
ghost use Rattle.beep_decide.specs.Decide.{note_of};

use beep_mgmt::{
    ABORTED, BAD_PARAMETERS, BAD_SYNTAX, BUSY, INVALID, NOT_AUTHORIZED, NOT_IMPLEMENTED, NOT_TAKEN,
};

/// The text that goes with a code, or none.
pub fn note_of(code: u16) -> &'static str
    ensures value { chars result.now ≡ note_of code }
    ensures allowed { list_all is_allowed (note_of code) ≡ true }
{
    match code {
        BUSY | NOT_TAKEN => "requested action not taken",
        ABORTED => "requested action aborted",
        BAD_SYNTAX => "general syntax error",
        BAD_PARAMETERS => "syntax error in parameters",
        NOT_IMPLEMENTED => "parameter not implemented",
        NOT_AUTHORIZED => "action not authorized for user",
        INVALID => "parameter invalid",
        _ => "",
    }
}
