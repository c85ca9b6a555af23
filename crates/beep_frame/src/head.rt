//! The header of a data frame as a value (RFC 3080, section 2.2.1.1).
ghost use Rattle.std.specs.Prelude.{◌≡◌, ◌↔◌, IsSome, IfSome};
ghost use Rattle.beep_frame.specs.Frame.{IsHead, max_ansno_of};

use crate::kind::Kind;

/// The greatest channel, message number, size, answer number and window (RFC 3080, 2.2.1.1).
pub const MAX_NUMBER: u32 = 2147483647;

/// What a header says. Numbers stand as they are on the wire: `seqno` counts octets modulo 2^32.
#[derive(Clone, Copy, Debug, PartialEq, Eq)]
pub struct Head {
    /// What the frame is part of: its keyword.
    pub kind: Kind,
    /// The channel, 0 to 2147483647.
    pub channel: u32,
    /// The message number, 0 to 2147483647.
    pub msgno: u32,
    /// Whether the message goes on in a later frame, written `*`.
    pub more: bool,
    /// The number of the first octet of the payload, modulo 2^32.
    pub seqno: u32,
    /// The octets of the payload, 0 to 2147483647.
    pub size: u32,
    /// The answer number of an ANS, 0 to 2147483647, and 0 in each other frame.
    pub ansno: u32,
}

impl Head {
    ghost use Rattle.beep_frame.specs.Frame.{head_of};

    /// A header with these parts, or None where one of them is out of its range.
    pub fn new(
        kind: Kind,
        channel: u32,
        msgno: u32,
        more: bool,
        seqno: u32,
        size: u32,
        ansno: u32,
    ) -> Option<Head>
        ensures value { IfSome result (λ head.
            head ≡ head_of kind channel msgno more seqno size ansno) }
        ensures some { IsSome result ↔ IsHead (head_of kind channel msgno more seqno size ansno) }
    {
        if channel > MAX_NUMBER
            || msgno > MAX_NUMBER
            || size > MAX_NUMBER
            || ansno > max_ansno(kind)
        {
            return None;
        }
        Some(Head {
            kind,
            channel,
            msgno,
            more,
            seqno,
            size,
            ansno,
        })
    }
}

fn max_ansno(kind: Kind) -> u32
    ensures { result ≡ max_ansno_of kind }
{
    if kind.is_ans() { MAX_NUMBER } else { 0 }
}
