//! What channel zero says, as it comes frame by frame (RFC 3080, section 2.3.1).
ghost use Rattle.std.specs.Prelude.{◌≡◌, ◌≢◌, ◌≤◌, ◌++◌, ℕ, List, [], length, codes, IfOk, OnOk};
ghost use Rattle.beep_text.specs.declared.limits.TheConstants.{MAX_TEXT};
ghost use Rattle.beep_frame.specs.Frame.{framed};
ghost use Rattle.beep_show.specs.Zero.{HoldsZero, FollowsZero, AppendsLine, AppendsMessage};

use beep_frame::Head;
use beep_mgmt::laws::a_message_that_says_a_value_is_read;
use beep_mgmt::{MgmtError, read_mgmt, write_mgmt_element};
use beep_octets::{NoMemory, Octets};
use beep_text::MAX_TEXT;
use std::alloc::Global;

/// The message of channel zero under way: its payloads since its last complete data frame.
#[derive(Drop)]
pub(crate) struct Zero {
    /// The payloads, where they are no longer than is read.
    pub(crate) payload: Octets,
    /// Whether they are longer than is read.
    pub(crate) long: bool,
}

impl Zero {
    /// A message of which nothing came. It takes room for the longest that is read.
    pub(crate) fn new(alloc: Global) -> Result<Zero, NoMemory>
        ensures { IfOk result (λ zero. HoldsZero zero []) }
    {
        let mut payload = Octets::new(alloc);
        payload.reserve(MAX_TEXT)?;
        Ok(Zero {
            payload,
            long: false,
        })
    }

    /// Follows a data frame, and appends the line of the message that it completes.
    pub(crate) fn follow(
        &mut self,
        head: Head,
        payload: &[u8],
        line: &mut Octets,
    ) -> Result<(), NoMemory>
        ensures { OnOk result ((before : List ℕ) → HoldsZero self.old before
            → FollowsZero before (framed head payload.now) self.new line.old line.new) }
    {
        if head.channel != 0 {
            return Ok(());
        }
        self.add(payload);
        if head.more {
            return Ok(());
        }
        self.append_line(line)?;
        self.clear();
        Ok(())
    }

    fn add(&mut self, octets: &[u8])
        ensures { (before : List ℕ) → HoldsZero self.old before
            → HoldsZero self.new (before ++ octets.now) }
    {
        if self.long || octets.len() > MAX_TEXT.saturating_sub(self.payload.len()) {
            self.long = true;
            return;
        }
        self.payload.extend_within(octets);
    }

    fn clear(&mut self)
        ensures { (before : List ℕ) → HoldsZero self.old before → HoldsZero self.new [] }
    {
        self.payload.clear();
        self.long = false;
    }

    fn append_line(&self, line: &mut Octets) -> Result<(), NoMemory>
        ensures { OnOk result ((message : List ℕ) → HoldsZero self.now message
            → AppendsLine message line.old line.new) }
    {
        line.extend(b"  ")?;
        self.append_message(line)?;
        line.extend(b"\n")
    }

    /// Appends what the message says, or that it says nothing or is too long.
    fn append_message(&self, line: &mut Octets) -> Result<(), NoMemory>
        ensures { OnOk result ((message : List ℕ) → HoldsZero self.now message
            → AppendsMessage message line.old line.new) }
    {
        if self.long {
            return line.extend(b"too long");
        }
        append_said(self.payload.as_slice(), line)
    }
}

/// Appends the canonical element of what a message says.
fn append_said(message: &[u8], line: &mut Octets) -> Result<(), NoMemory>
    ensures { OnOk result (length message.now ≤ MAX_TEXT
        → AppendsMessage message.now line.old line.new) }
{
    a_message_that_says_a_value_is_read();
    match read_mgmt(line.alloc(), message) {
        Ok(mgmt) => write_mgmt_element(&mgmt, line),
        Err(error) => append_unreadable(error, line),
    }
}

/// Appends that a message says nothing, unless it is out of memory.
fn append_unreadable(error: MgmtError, line: &mut Octets) -> Result<(), NoMemory>
    ensures { OnOk result ((error ≢ MgmtError.NoMemory)
        × (line.new.octets ≡ line.old.octets ++ codes "unreadable")) }
{
    match error {
        MgmtError::NoMemory => Err(NoMemory),
        MgmtError::Malformed(_) | MgmtError::Entity(_) | MgmtError::TooLong | MgmtError::Shape => {
            line.extend(b"unreadable")
        }
    }
}
