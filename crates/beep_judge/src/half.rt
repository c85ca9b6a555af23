//! What is kept of one side of a session: its frame under way, and what it says on channel zero.
ghost use Rattle.std.specs.Prelude.{◌≡◌, ◌∷◌, ◌+◌, ◌-◌, ◌++◌, [], Some, None, IfOk, OnOk, OnErr, true, false, length, take};
ghost use Rattle.beep_text.specs.declared.limits.TheConstants.{MAX_TEXT};

use beep_frame::Head;
use beep_mgmt::Mgmt;
use beep_octets::{NoMemory, Octets};
use beep_text::MAX_TEXT;
use std::alloc::Global;
use std::collections::VecDeque;

/// A frame whose header ended and whose trailer didn't, with the stamp of the life in which it
/// began.
#[derive(Clone, Copy)]
pub(crate) struct Frame {
    pub(crate) head: Head,
    pub(crate) stamp: u64,
}

/// A whole request of channel zero that waits for its reply: what it says, where it could be read;
/// whether it is the
/// implied one; and of a close the stamp of the life that was live as it came, 0 where none was.
#[derive(Drop)]
pub(crate) struct Request {
    pub(crate) said: Option<Mgmt>,
    pub(crate) implied: bool,
    pub(crate) stamp: u64,
}

/// One side. `text` has the octets so far of its message of channel zero under way, at most one
/// more than is read, and
/// `asked` its whole requests of channel zero that wait, the latest first.
#[derive(Drop)]
pub(crate) struct Half {
    pub(crate) under_way: Option<Frame>,
    pub(crate) heard: bool,
    pub(crate) text: Octets,
    pub(crate) asked: VecDeque<Request>,
}

impl Half {
    /// A side on which nothing has happened.
    pub(crate) fn new(alloc: Global) -> Result<Half, NoMemory>
        ensures under_way { IfOk result (λ half. half.under_way ≡ None) }
        ensures heard { IfOk result (λ half. half.heard ≡ false) }
        ensures text { IfOk result (λ half. half.text.octets ≡ []) }
        ensures asked { IfOk result (λ half. half.asked.items
            ≡ record { said = None; implied = true; stamp = 0 } ∷ []) }
    {
        let mut asked = VecDeque::new(alloc);
        push_request(
            &mut asked,
            Request {
                said: None,
                implied: true,
                stamp: 0,
            },
        )?;
        Ok(Half {
            under_way: None,
            heard: false,
            text: Octets::new(alloc),
            asked,
        })
    }

    /// Keeps the octets of a frame of channel zero that isn't the last of its message.
    pub(crate) fn gather(&mut self, payload: &[u8]) -> Result<(), NoMemory>
        ensures text { OnOk result (self.new.text.octets
            ≡ self.old.text.octets
            ++ take (MAX_TEXT + 1 - length self.old.text.octets) payload.now) }
        ensures err { OnErr result (self.new.text.octets ≡ self.old.text.octets) }
        ensures under_way { self.new.under_way ≡ self.old.under_way }
        ensures heard { self.new.heard ≡ self.old.heard }
        ensures asked { self.new.asked ≡ self.old.asked }
    {
        let room = (MAX_TEXT + 1).saturating_sub(self.text.len());
        let piece = if payload.len() < room {
            payload
        } else {
            &payload[..room]
        };
        self.text.extend(piece)
    }
}

/// Puts a request before the others.
pub(crate) fn push_request(asked: &mut VecDeque<Request>, request: Request) -> Result<(), NoMemory>
    ensures ok { OnOk result (asked.new.items ≡ request ∷ asked.old.items) }
    ensures err { OnErr result (asked.new.items ≡ asked.old.items) }
{
    match asked.push_front(request) {
        Ok(()) => Ok(()),
        Err(_) => Err(NoMemory),
    }
}
