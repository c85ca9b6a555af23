//! The one message that is written of a value (RFC 3080, section 2.3.1).
ghost use Rattle.std.specs.Prelude.{◌≡◌, ◌+◌, ◌≤◌, ◌++◌, Some, length, IsTrue, OnOk, OnErr};
ghost use Rattle.beep_text.specs.Elements.{IsBody};
ghost use Rattle.beep_text.specs.Canonical.{element_text};
ghost use Rattle.beep_mgmt.specs.Form.{form_of};
ghost use Rattle.beep_mgmt.specs.Said.{form_said};
ghost use Rattle.beep_mgmt.specs.Written.{element_as, is_writable, comes_back};
ghost use Rattle.beep_mgmt.specs.Message.{Says, message_text};

use crate::build::element_as;
use crate::mgmt::Mgmt;
use crate::sized::is_sized;
use beep_mime::write_header;
use beep_octets::{NoMemory, Octets};
use beep_text::write_element;

/// Appends the canonical message of a value: its MIME header, its element, and CR LF.
pub fn write_mgmt(m: &Mgmt, out: &mut Octets) -> Result<(), NoMemory>
    requires writable { IsTrue (is_writable (form_of m.now)) }
    ensures appended { OnOk result (out.new.octets
        ≡ out.old.octets ++ message_text (form_of m.now)) }
    ensures back { OnOk result (IsTrue (comes_back (form_of m.now))
        → Says (message_text (form_of m.now)) (form_of m.now)) }
    ensures err { OnErr result (out.new.octets ≡ out.old.octets) }
    ensures room { out.old.spare ≤ out.new.spare + length (message_text (form_of m.now)) }
{
    let mut text = Octets::new(out.alloc());
    write_header(&mut text)?;
    write_mgmt_element(m, &mut text)?;
    text.extend(b"\r\n")?;
    out.extend(text.as_slice())
}

/// Appends the canonical element of a value alone.
pub fn write_mgmt_element(m: &Mgmt, out: &mut Octets) -> Result<(), NoMemory>
    requires writable { IsTrue (is_writable (form_of m.now)) }
    ensures appended { OnOk result (out.new.octets
        ≡ out.old.octets ++ element_text (element_as (form_of m.now))) }
    ensures back { IsTrue (comes_back (form_of m.now))
        → form_said (element_as (form_of m.now)) ≡ Some (form_of m.now) }
    ensures body { OnOk result (IsBody
        (element_text (element_as (form_of m.now))) (element_as (form_of m.now))) }
    ensures err { OnErr result (out.new.octets ≡ out.old.octets) }
    ensures room { out.old.spare
        ≤ out.new.spare + length (element_text (element_as (form_of m.now))) }
{
    is_sized(m);
    let element = element_as(out.alloc(), m)?;
    write_element(&element, out)
}
