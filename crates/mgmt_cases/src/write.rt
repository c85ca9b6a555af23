//! What is written of a value.
ghost use Rattle.std.specs.Prelude.{◌≡◌, codes, IfOk};

use crate::read::put_error;
use beep_chars::Text;
use beep_mgmt::{Encoding, Mgmt, Profile, Profiles, read_mgmt, write_mgmt, write_mgmt_element};
use beep_octets::{NoMemory, Octets};
use case_lines::{Bad, Fields, begin, octets_of, put_number};
use std::alloc::Global;

/// A payload: how many octets the message has that is written of what it says, and these.
pub(crate) fn whole(alloc: Global, fields: &mut Fields<'_>, out: &mut Octets) -> Result<(), Bad> {
    let payload = octets_of(alloc, fields.next()?)?;
    let mut message = Octets::new(alloc);
    match read_mgmt(alloc, payload.as_slice()) {
        Ok(m) => write_mgmt(&m, &mut message)?,
        Err(error) => return put_error(error, out),
    }
    put_number(message.len() as u64, out)?;
    begin(out)?;
    out.extend(message.as_slice())?;
    Ok(())
}

/// A content: the element of a profile of it, whatever that says of how it came.
pub(crate) fn profile(alloc: Global, fields: &mut Fields<'_>, out: &mut Octets) -> Result<(), Bad> {
    let octets = octets_of(alloc, fields.next()?)?;
    let profile = profile_of(alloc, octets)?;
    write_mgmt_element(&Mgmt::Chosen { profile }, out)?;
    Ok(())
}

/// A profile of the URI `urn:x`.
fn profile_of(alloc: Global, content: Octets) -> Result<Profile, NoMemory>
    ensures { IfOk result (λ p. p.uri ≡ codes "urn:x") }
{
    let uri = Text::of_word(alloc, "urn:x")?;
    Ok(Profile {
        uri,
        encoding: Encoding::Other,
        content,
        readable: false,
    })
}

/// A start of the greatest number with one profile: its element.
pub(crate) fn start(alloc: Global, out: &mut Octets) -> Result<(), Bad> {
    let mut profiles = Profiles::new(alloc);
    profiles.push(profile_of(alloc, Octets::new(alloc))?)?;
    let server = Some(Text::of_word(alloc, "a.b")?);
    let m = Mgmt::Start {
        number: 4294967295,
        server,
        profiles,
    };
    write_mgmt_element(&m, out)?;
    Ok(())
}

/// A fault of code 7 without a text: its element.
pub(crate) fn fault(alloc: Global, out: &mut Octets) -> Result<(), Bad> {
    let m = Mgmt::Fault {
        code: 7,
        note: Text::new(alloc),
    };
    write_mgmt_element(&m, out)?;
    Ok(())
}
