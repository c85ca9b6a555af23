//! The SEQ frame of the TCP mapping as a value (RFC 3081, section 3.1).

/// What a SEQ says: up to which octet a channel's peer may send.
#[derive(Clone, Copy, Debug, PartialEq, Eq)]
pub struct Seq {
    /// The channel, 0 to 2147483647.
    pub channel: u32,
    /// The number of the next octet expected, modulo 2^32.
    pub ackno: u32,
    /// The octets from there on that may be sent, 0 to 2147483647.
    pub window: u32,
}
