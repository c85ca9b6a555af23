//! The MIME header of the messages that are written (RFC 3080, section 2.2).
ghost use Rattle.std.specs.Prelude.{◌≡◌, ◌+◌, ◌≤◌, ◌++◌, length, OnOk, OnErr};
ghost use Rattle.beep_mime.specs.Split.{mime_header};

use beep_octets::{NoMemory, Octets};

/// Appends the header of a message whose body is an element, up to the body.
pub fn write_header(out: &mut Octets) -> Result<(), NoMemory>
    ensures appended { OnOk result (out.new.octets ≡ out.old.octets ++ mime_header) }
    ensures err { OnErr result (out.new.octets ≡ out.old.octets) }
    ensures room { out.old.spare ≤ out.new.spare + length mime_header }
{
    out.extend(b"Content-Type: application/beep+xml\r\n\r\n")
}
