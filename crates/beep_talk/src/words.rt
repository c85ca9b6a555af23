//! What a message of channel zero says, with its octets.
ghost use Rattle.std.specs.Prelude.{◌≡◌, ◌≤◌, ◌++◌, [], ◌∷◌, None, OnOk, map, true, chars, IfOk, IsTrue};
ghost use Rattle.std.specs.List.{list_all};
ghost use Rattle.beep_chars.specs.Characters.{is_allowed};
ghost use Rattle.beep_mgmt.specs.declared.limits.TheConstants.{MAX_CODE};
ghost use Rattle.beep_mgmt.specs.Form.{form_of, plain_profile, greeting, start, chosen, close, fault};
ghost use Rattle.beep_decide.specs.Decide.{note_of};
ghost use Rattle.beep_decide.specs.Plain.{plain_offer};
ghost use Rattle.beep_mgmt.specs.Message.{message_text};
ghost use Rattle.beep_mgmt.specs.Written.{is_uri_allowed, is_writable};
ghost use Rattle.beep_talk.specs.AtZero.{profile_of};

use beep_chars::Text;
use beep_decide::{Offer, note_of};
use beep_mgmt::{Encoding, Mgmt, Profile, Profiles, SUCCESS, write_mgmt};
use beep_octets::{NoMemory, Octets};
use std::alloc::Global;
use std::marker::Model;

/// What a message of channel zero says, and its octets.
#[derive(Drop)]
pub struct Words {
    form: Mgmt,
    text: Octets,
}

impl Model for Words {
    ghost use Rattle.std.specs.Prelude.{◌≡◌};
    ghost use Rattle.beep_mgmt.specs.Form.{Form, form_of};
    ghost use Rattle.beep_mgmt.specs.Message.{message_text};

    ghost Value = { Form };

    ghost view = { λ w. form_of w.form };

    ghost invariant = { λ w. w.text.octets ≡ message_text (form_of w.form) };
}

impl Words {
    /// What this says, which can be written.
    pub fn new(alloc: Global, form: Mgmt) -> Result<Words, NoMemory>
        requires writable { IsTrue (is_writable (form_of form)) }
        ensures { IfOk result (λ words. words ≡ form_of form) }
    {
        let mut text = Octets::new(alloc);
        write_mgmt(&form, &mut text)?;
        Ok(Words { form, text })
    }

    /// A refusal with this code, of three digits, and the text that goes with it.
    pub fn refusal(alloc: Global, code: u16) -> Result<Words, NoMemory>
        requires code { code ≤ MAX_CODE }
        ensures { IfOk result (λ words. words ≡ fault code (note_of code)) }
    {
        let note = Text::of(alloc, note_of(code))?;
        Words::new(alloc, Mgmt::Fault { code, note })
    }

    /// The greeting of an end with these offers.
    pub fn greeting(alloc: Global, offers: &[Offer]) -> Result<Words, NoMemory>
        requires uris { list_all (λ offer. list_all is_allowed offer.uri)
            (map plain_offer offers.now) ≡ true }
        ensures { IfOk result (λ words. words ≡ greeting None None
            (map (λ offer. profile_of offer.uri) (map plain_offer offers.now))) }
    {
        let mut profiles = Profiles::new(alloc);
        put_offered(alloc, offers, &mut profiles)?;
        Words::new(
            alloc,
            Mgmt::Greeting {
                features: None,
                localize: None,
                profiles,
            },
        )
    }

    /// A start of a channel with the profile of a URI.
    pub fn start(alloc: Global, number: u32, uri: Text) -> Result<Words, NoMemory>
        requires uri { list_all is_allowed uri ≡ true }
        ensures { IfOk result (λ words. words ≡ start number None (profile_of uri ∷ [])) }
    {
        let mut profiles = Profiles::new(alloc);
        profiles.push(profile_of(alloc, uri))?;
        Words::new(
            alloc,
            Mgmt::Start {
                number,
                server: None,
                profiles,
            },
        )
    }

    /// A close of a channel, or at 0 of the session, with code 200 and no text.
    pub fn close(alloc: Global, number: u32) -> Result<Words, NoMemory>
        ensures { IfOk result (λ words. words ≡ close number 200 []) }
    {
        let note = Text::new(alloc);
        Words::new(
            alloc,
            Mgmt::Close {
                number,
                code: SUCCESS,
                note,
            },
        )
    }

    /// The choice of the profile of a URI.
    pub fn chosen(alloc: Global, uri: Text) -> Result<Words, NoMemory>
        requires uri { list_all is_allowed uri ≡ true }
        ensures { IfOk result (λ words. words ≡ chosen (profile_of uri)) }
    {
        let profile = profile_of(alloc, uri);
        Words::new(alloc, Mgmt::Chosen { profile })
    }

    /// What the message says.
    pub fn form(&self) -> &Mgmt
        ensures { form_of result.now ≡ self.now }
    {
        &self.form
    }

    /// The octets of the message that says it.
    pub fn text(&self) -> &[u8]
        ensures { result.now ≡ message_text self.now }
    {
        self.text.as_slice()
    }
}

/// A profile as it is listed: its URI, and no content.
fn profile_of(alloc: Global, uri: Text) -> Profile
    ensures { plain_profile result ≡ profile_of uri }
{
    Profile {
        uri,
        encoding: Encoding::Plain,
        content: Octets::new(alloc),
        readable: true,
    }
}

/// Appends the profiles of offers.
fn put_offered(alloc: Global, offers: &[Offer], profiles: &mut Profiles) -> Result<(), NoMemory>
    requires uris { list_all (λ offer. list_all is_allowed offer.uri)
        (map plain_offer offers.now) ≡ true }
    ensures value { OnOk result (map plain_profile profiles.new ≡ map plain_profile profiles.old
        ++ map (λ offer. profile_of offer.uri) (map plain_offer offers.now)) }
    ensures allowed { OnOk result (list_all is_uri_allowed (map plain_profile profiles.old) ≡ true
        → list_all is_uri_allowed (map plain_profile profiles.new) ≡ true) }
{
    match offers {
        [] => Ok(()),
        [offer, others @ ..] => {
            profiles.push(profile_of(alloc, offer.uri.copy()?))?;
            put_offered(alloc, others, profiles)
        }
    }
}
