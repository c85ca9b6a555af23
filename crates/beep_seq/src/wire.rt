//! Whole counts of octets, and their numbers on the wire (RFC 3080, section 2.2.1.1).
ghost use Rattle.std.specs.Prelude.{◌≡◌, ◌<◌, ◌+◌, ◌*◌};
ghost use Rattle.beep_octets.specs.Numbers.{numbers_32, numbers_128};
ghost use Rattle.beep_seq.specs.Wire.{wire_number, count_from};

/// How many numbers a header can give to an octet: it gives them 32 bits.
pub const SEQ_NUMBERS: u128 = 1 << 32;

/// The number that a count of octets has on the wire.
pub fn wire_number(count: u128) -> u32
    ensures { result ≡ wire_number count }
{
    (count % SEQ_NUMBERS) as u32
}

/// The first count from `start` on that has this number on the wire. It costs no search.
pub fn count_from(start: u128, number: u32) -> u128
    requires small { 2 * start < numbers_128 }
    ensures value { result ≡ count_from start number }
    ensures within { result < start + numbers_32 }
{
    start + (u128::from(number) + SEQ_NUMBERS - start % SEQ_NUMBERS) % SEQ_NUMBERS
}
