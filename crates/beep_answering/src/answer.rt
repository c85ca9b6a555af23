//! The messages of channel zero that this end sends (RFC 3080, section 2.3.1).
ghost use Rattle.std.specs.Prelude.{◌≡◌, ◌≤◌, true, length, map, chars, IsTrue, IfOk};
ghost use Rattle.std.specs.List.{list_all};
ghost use Rattle.beep_management.specs.beep_mgmt.specs.declared.limits.TheConstants.{MAX_CODE};
ghost use Rattle.beep_management.specs.beep_text.specs.declared.limits.TheConstants.{MAX_TEXT};
ghost use Rattle.beep_management.specs.beep_mgmt.specs.Form.{form_of, plain_profile, chosen, okay};
ghost use Rattle.beep_management.specs.beep_mgmt.specs.Written.{is_writable, comes_back};
ghost use Rattle.beep_management.specs.beep_mgmt.specs.Message.{message_text};
ghost use Rattle.beep_management.specs.beep_decide.specs.Plain.{plain_offer};
ghost use Rattle.beep_answering.specs.Sent.{is_uri, plain_listed, greeting_of, refusal_of, closing_of, IsMessage};
ghost use Rattle.beep_answering.specs.declared.offers.TheConstants.{MAX_OFFERS};

use beep_management::beep_chars::Text;
use beep_management::beep_decide::{Offer, note_of};
use beep_management::beep_mgmt::laws::the_value_said_is_that_of_the_message;
use beep_management::beep_mgmt::{Encoding, Mgmt, Profile, Profiles, SUCCESS, write_mgmt};
use beep_management::beep_octets::{NoMemory, Octets};
use std::alloc::Global;

/// The greeting of an end with these offers.
pub fn greeting_text(alloc: Global, offers: &[Offer]) -> Result<Octets, NoMemory>
    requires few { length offers.now ≤ MAX_OFFERS }
    requires uris { list_all (λ offer. is_uri offer.uri) offers.now ≡ true }
    ensures { IfOk result (λ octets.
        IsMessage octets.octets (greeting_of (map plain_offer offers.now))) }
{
    let mut profiles = Profiles::new(alloc);
    for offer in offers {
        profiles.push(listed(alloc, offer)?)?;
    }
    message_of(
        alloc,
        &Mgmt::Greeting {
            features: None,
            localize: None,
            profiles,
        },
    )
}

/// A refusal with this code, and the text that goes with it.
pub(crate) fn refusal_text(alloc: Global, code: u16) -> Result<Octets, NoMemory>
    requires code { code ≤ MAX_CODE }
    ensures { IfOk result (λ octets. IsMessage octets.octets (refusal_of code)) }
{
    let note = Text::of(alloc, note_of(code))?;
    message_of(alloc, &Mgmt::Fault { code, note })
}

/// The choice of an offer.
pub(crate) fn choice_text(alloc: Global, offer: &Offer) -> Result<Octets, NoMemory>
    requires uri { is_uri offer.now.uri ≡ true }
    ensures { IfOk result (λ octets.
        IsMessage octets.octets (chosen (plain_listed (plain_offer offer.now)))) }
{
    let profile = listed(alloc, offer)?;
    message_of(alloc, &Mgmt::Chosen { profile })
}

/// The grant of a close.
pub(crate) fn okay_text(alloc: Global) -> Result<Octets, NoMemory>
    ensures { IfOk result (λ octets. IsMessage octets.octets okay) }
{
    message_of(alloc, &Mgmt::Okay)
}

/// A close of a number, as this end sends it: code 200 and no text.
pub fn close_of(alloc: Global, number: u32) -> Mgmt
    ensures { form_of result ≡ closing_of number }
{
    Mgmt::Close {
        number,
        code: SUCCESS,
        note: Text::new(alloc),
    }
}

/// The octets of such a close as a message: its MIME header and its element.
pub fn close_text(alloc: Global, number: u32) -> Result<Octets, NoMemory>
    ensures { IfOk result (λ octets. IsMessage octets.octets (closing_of number)) }
{
    message_of(alloc, &close_of(alloc, number))
}

/// The octets of a value as a message: its MIME header and its element.
pub fn message_of(alloc: Global, value: &Mgmt) -> Result<Octets, NoMemory>
    requires writable { IsTrue (is_writable (form_of value.now)) }
    ensures text { IfOk result (λ octets. octets.octets ≡ message_text (form_of value.now)) }
    ensures says { IfOk result (λ octets. IsTrue (comes_back (form_of value.now))
        → length octets.octets ≤ MAX_TEXT → IsMessage octets.octets (form_of value.now)) }
{
    the_value_said_is_that_of_the_message();
    let mut octets = Octets::new(alloc);
    write_mgmt(value, &mut octets)?;
    Ok(octets)
}

/// An offer as it is listed: its URI, and no content.
fn listed(alloc: Global, offer: &Offer) -> Result<Profile, NoMemory>
    ensures { IfOk result (λ profile.
        plain_profile profile ≡ plain_listed (plain_offer offer.now)) }
{
    Ok(Profile {
        uri: offer.uri.copy()?,
        encoding: Encoding::Plain,
        content: Octets::new(alloc),
        readable: true,
    })
}
