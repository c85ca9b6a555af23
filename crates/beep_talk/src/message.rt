//! Messages of a script.
ghost use Rattle.std.specs.Prelude.{◌≡◌, [], ◌∷◌, ◌++◌, map, OnOk, IfOk};
ghost use Rattle.beep_talk.specs.Plain.{plain_message, plain_messages};
ghost use Rattle.beep_talk.specs.Talk.{message_of};

use beep_frame::{Kind, Tag};
use beep_octets::{NoMemory, Octets};

/// A message: what its octets are marked with, and its octets.
#[derive(Debug, Drop)]
pub struct Message {
    /// What each octet and the end are marked with.
    pub tag: Tag,
    /// Its octets, without those of frames.
    pub content: Octets,
}

/// A message of this kind to the request at a position, or as that request.
pub(crate) fn message_of(kind: Kind, position: usize, ansno: u32, content: Octets) -> Message
    ensures { plain_message result ≡ message_of kind position ansno content.octets }
{
    Message {
        tag: Tag {
            kind,
            request: position as u64,
            ansno,
        },
        content,
    }
}

/// Puts a message after the others.
pub fn put_last<T: Drop>(list: &mut Vec<T>, item: T) -> Result<(), NoMemory>
    ensures ok { OnOk result (list.new.items ≡ list.old.items ++ item ∷ []) }
{
    match list.push(item) {
        Ok(()) => Ok(()),
        Err(_) => Err(NoMemory),
    }
}
