//! The number of an octet on the wire (RFC 3080, section 2.2.1.1).
ghost use Rattle.std.specs.Prelude.{◌≡◌, ◌+◌};
ghost use Rattle.beep_seq.specs.Wire.{wire_number};

use std::marker::Model;

/// A count of octets, modulo 2^32.
#[derive(Clone, Copy, Debug, PartialEq, Eq)]
pub struct SeqNo(u32);

impl Model for SeqNo {
    ghost use Rattle.std.specs.Prelude.{ℕ};

    ghost Value = { ℕ };

    ghost view = { λ number. number.0 };

    ghost inverse = { λ number. record { 0 = number } };
}

impl SeqNo {
    /// The number as it stands in a frame.
    pub fn new(n: u32) -> SeqNo
        ensures { result ≡ n }
    {
        SeqNo(n)
    }

    /// The number as a frame has it.
    pub fn get(self) -> u32
        ensures { result ≡ self }
    {
        self.0
    }

    /// The number `n` octets further on.
    pub fn plus(self, n: u32) -> SeqNo
        ensures { result ≡ wire_number (self + n) }
    {
        SeqNo(self.0.wrapping_add(n))
    }

    /// How many octets further on this number is than `other`, below 2^32.
    pub fn minus(self, other: SeqNo) -> u32
        ensures { wire_number (other + result) ≡ self }
    {
        self.0.wrapping_sub(other.0)
    }
}
