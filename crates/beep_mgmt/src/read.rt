//! Reading a message of channel zero (RFC 3080, section 2.3.1).
ghost use Rattle.std.specs.Prelude.{◌≡◌, ◌≢◌, ◌<◌, length, IfOk, IfErr, IsTrue, Some, None, Err};
ghost use Rattle.beep_text.specs.declared.limits.TheConstants.{MAX_TEXT};
ghost use Rattle.beep_mgmt.specs.Form.{form_of};
ghost use Rattle.beep_mgmt.specs.Message.{Says, RefusesMessage, message_said};
ghost use Rattle.beep_mgmt.specs.Parts.{error_of};
ghost use Rattle.beep_mgmt.specs.Written.{is_writable};

use crate::canonical::canonical_said;
use crate::form::form_said;
use crate::laws::{a_message_that_says_a_value_is_read, the_value_said_is_that_of_the_message};
use crate::mgmt::Mgmt;
use beep_mime::body;
use beep_text::{MAX_TEXT, TextError, read_element};
use std::alloc::Global;
use thiserror::Error;

/// Why a payload isn't read. The places count octets of the body from 0.
#[derive(Clone, Copy, Debug, PartialEq, Eq, Error)]
pub enum MgmtError {
    /// No octets can follow those before this place, or the body ends too soon.
    #[error("malformed at {0}")]
    Malformed(u32),
    /// The same inside a reference, which begins at this place.
    #[error("bad reference at {0}")]
    Entity(u32),
    /// The payload has more octets than are read.
    #[error("too long")]
    TooLong,
    /// The body says an element that has no meaning on channel zero.
    #[error("not an element of channel zero")]
    Shape,
    /// Out of memory; a later call may succeed.
    #[error("out of memory")]
    NoMemory,
}

/// The value that a payload says. It goes over the octets a few times, and once where they are the
/// text that is written of one of the commonest values.
pub fn read_mgmt(alloc: Global, payload: &[u8]) -> Result<Mgmt, MgmtError>
    ensures value { IfOk result (λ m. Says payload.now (form_of m)) }
    ensures writable { IfOk result (λ m. IsTrue (is_writable (form_of m))) }
    ensures refused { IfErr result (λ error. RefusesMessage payload.now error) }
    ensures too_long { MAX_TEXT < length payload.now → result ≡ Err MgmtError.TooLong }
    // The same by the function from messages to values.
    ensures said { IfOk result (λ m. message_said payload.now ≡ Some (form_of m)) }
    ensures unsaid { IfErr result (λ error. error ≢ MgmtError.NoMemory
        → message_said payload.now ≡ None) }
{
    the_value_said_is_that_of_the_message();
    a_message_that_says_a_value_is_read();
    read_value(alloc, payload)
}

fn read_value(alloc: Global, payload: &[u8]) -> Result<Mgmt, MgmtError>
    ensures value { IfOk result (λ m. Says payload.now (form_of m)) }
    ensures writable { IfOk result (λ m. IsTrue (is_writable (form_of m))) }
    ensures refused { IfErr result (λ error. RefusesMessage payload.now error) }
    ensures too_long { MAX_TEXT < length payload.now → result ≡ Err MgmtError.TooLong }
{
    if payload.len() > MAX_TEXT {
        return Err(MgmtError::TooLong);
    }
    match canonical_said(alloc, payload) {
        Ok(Some(mgmt)) => Ok(mgmt),
        Ok(None) => read_tree(alloc, payload),
        Err(_) => Err(MgmtError::NoMemory),
    }
}

/// The value of the body's element, which is read as a tree.
fn read_tree(alloc: Global, payload: &[u8]) -> Result<Mgmt, MgmtError>
    ensures value { IfOk result (λ m. Says payload.now (form_of m)) }
    ensures writable { IfOk result (λ m. IsTrue (is_writable (form_of m))) }
    ensures refused { IfErr result (λ error. RefusesMessage payload.now error) }
{
    let element = match read_element(alloc, body(payload)) {
        Ok(element) => element,
        Err(error) => return Err(error_of(error)),
    };
    match form_said(alloc, &element) {
        Ok(Some(mgmt)) => Ok(mgmt),
        Ok(None) => Err(MgmtError::Shape),
        Err(_) => Err(MgmtError::NoMemory),
    }
}

/// The same refusal of a message.
fn error_of(error: TextError) -> MgmtError
    ensures { result ≡ error_of error }
{
    match error {
        TextError::Malformed(place) => MgmtError::Malformed(place),
        TextError::Entity(place) => MgmtError::Entity(place),
        TextError::TooLong => MgmtError::TooLong,
        TextError::NoMemory => MgmtError::NoMemory,
    }
}
