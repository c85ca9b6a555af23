//! A request of channel zero that waits for its reply (RFC 3080, section 2.3.1).
ghost use Rattle.std.specs.Prelude.{◌≡◌, None, true, false, option_map};
ghost use Rattle.beep_standing.specs.beep_mgmt.specs.Form.{form_of};

use beep_standing::beep_frame::Kind;
use beep_standing::beep_journal::has_form;
use beep_standing::beep_mgmt::Mgmt;

/// A whole request: what it says, where it could be read; whether it is the implied one; and
/// whether it is a close of a number above 0 whose life is live.
#[derive(Debug, Drop)]
pub struct Request {
    pub said: Option<Mgmt>,
    pub implied: bool,
    pub names: bool,
}

impl Request {
    ghost use Rattle.beep_decide.specs.Asks.{is_close_of};
    ghost use Rattle.beep_asked.specs.Kept.{closes_one, clear_one, fits};
    ghost use Rattle.beep_asked.specs.Request.{kept_of};

    /// The request that the greeting answers; no frame carried it (RFC 3080, section 2.3.1.1).
    pub(crate) fn implied() -> Request
        ensures { result ≡ record { said = None; implied = true; names = false } }
    {
        Request {
            said: None,
            implied: true,
            names: false,
        }
    }

    /// Whether it is a close of this number.
    pub(crate) fn is_close_of(&self, number: u32) -> bool
        ensures { result ≡ is_close_of number (kept_of self.now).said }
    {
        match &self.said {
            Some(Mgmt::Close { number: of, .. }) => *of == number,
            Some(
                Mgmt::Greeting { .. }
                | Mgmt::Start { .. }
                | Mgmt::Chosen { .. }
                | Mgmt::Okay
                | Mgmt::Fault { .. },
            )
            | None => false,
        }
    }

    /// Whether it is a close of 0, or one of this number whose life is live.
    pub(crate) fn closes(&self, number: u32) -> bool
        ensures { result ≡ closes_one number (kept_of self.now) }
    {
        self.is_close_of(number) && (number == 0 || self.names)
    }

    /// Whether a whole reply of this kind, which says this, has the form that it asks for.
    pub(crate) fn fits(&self, kind: Kind, said: &Option<Mgmt>) -> bool
        ensures { result ≡ fits kind (option_map form_of said.now) (kept_of self.now) }
    {
        has_form(kind, self.implied, self.said.as_ref(), said.as_ref())
    }

    /// The life of this number has ended: where it is a close of the number, it names none.
    pub(crate) fn clear(&mut self, number: u32)
        ensures { kept_of self.new ≡ clear_one number (kept_of self.old) }
    {
        if self.is_close_of(number) {
            self.names = false;
        }
    }
}
