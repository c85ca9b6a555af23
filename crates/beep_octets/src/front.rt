//! A short text that is put together from its end to its front, so that a number is written from
//! its last digit on, in its place.
ghost use Rattle.std.specs.Prelude.{◌≡◌, ◌+◌, ◌-◌, ◌<◌, ◌≤◌, [], ◌∷◌, ◌++◌, ◌/◌, ◌%◌, length, drop};
ghost use Rattle.std.specs.Fmt.{decimal};
ghost use Rattle.beep_octets.specs.declared.front.TheConstants.{FRONT_MAX};

use std::marker::Model;

/// The octets of such a text, at most.
pub const FRONT_MAX: usize = 64;

/// The two digits of each number below 100, one number after another.
static PAIRS: [u8; 200] = *b"0001020304050607080910111213141516171819\
      2021222324252627282930313233343536373839\
      4041424344454647484950515253545556575859\
      6061626364656667686970717273747576777879\
      8081828384858687888990919293949596979899";

/// A text of at most `FRONT_MAX` octets. What is put stands before all that was put earlier.
#[derive(Drop)]
pub struct Front {
    // It has 32 bits and stands before the octets: so the compiler sees that no octet is written
    // over it, and reads it once.
    at: u32,
    octets: [u8; FRONT_MAX],
}

impl Model for Front {
    ghost use Rattle.std.specs.Prelude.{◌≤◌, ℕ, List, drop};
    ghost use Rattle.beep_octets.specs.declared.front.TheConstants.{FRONT_MAX};

    ghost Value = { List ℕ };

    ghost view = { λ f. drop f.at f.octets };

    ghost invariant = { λ f. f.at ≤ FRONT_MAX };
}

impl Front {
    /// A text of no octet. It takes no memory.
    pub fn new() -> Front
        ensures { result ≡ [] }
    {
        Front {
            at: FRONT_MAX as u32,
            octets: [0; FRONT_MAX],
        }
    }

    /// Its octets.
    pub fn as_slice(&self) -> &[u8]
        ensures { result.now ≡ self.now }
    {
        &self.octets[self.at as usize..]
    }

    /// Puts an octet before the others.
    pub fn put(&mut self, octet: u8)
        requires room { length self.old < FRONT_MAX }
        ensures { self.new ≡ octet ∷ self.old }
    {
        self.at -= 1;
        self.octets[self.at as usize] = octet;
    }

    /// Puts a few octets before the others, in their order.
    pub fn put_few(&mut self, bytes: &[u8])
        requires room { length bytes.now + length self.old ≤ FRONT_MAX }
        ensures { self.new ≡ bytes.now ++ self.old }
    {
        let end = self.at;
        self.at = end - bytes.len() as u32;
        put_octets(&mut self.octets, end, bytes);
    }

    /// Puts a number before the others, in decimal and without a leading zero.
    pub fn put_number(&mut self, number: u32)
        requires room { length (decimal number) + length self.old ≤ FRONT_MAX }
        ensures { self.new ≡ decimal number ++ self.old }
    {
        let at = self.at;
        self.at = put_digits(&mut self.octets, at, number);
    }
}

/// Puts octets before the place `end`, in their order.
fn put_octets(octets: &mut [u8; FRONT_MAX], end: u32, bytes: &[u8])
    requires end { end ≤ FRONT_MAX }
    requires room { length bytes.now ≤ end }
    ensures { drop (end - length bytes.now) octets.new ≡ bytes.now ++ drop end octets.old }
{
    for i in 0..bytes.len() {
        octets[end as usize - 1 - i] = bytes[bytes.len() - 1 - i];
    }
}

/// Puts the digits of a number before the place `end`, and answers where they begin.
fn put_digits(octets: &mut [u8; FRONT_MAX], end: u32, number: u32) -> u32
    requires end { end ≤ FRONT_MAX }
    requires room { length (decimal number) ≤ end }
    ensures put { drop result octets.new ≡ decimal number ++ drop end octets.old }
    ensures within { result ≤ FRONT_MAX }
{
    if number < 100 {
        return put_short(octets, end, number);
    }
    let at = end - 2;
    put_pair(octets, at, number % 100);
    put_digits(octets, at, number / 100)
}

/// The same for a number of one digit or two.
fn put_short(octets: &mut [u8; FRONT_MAX], end: u32, number: u32) -> u32
    requires short { number < 100 }
    requires end { end ≤ FRONT_MAX }
    requires room { length (decimal number) ≤ end }
    ensures put { drop result octets.new ≡ decimal number ++ drop end octets.old }
    ensures within { result ≤ FRONT_MAX }
{
    if number < 10 {
        let at = end - 1;
        octets[at as usize] = b'0' + number as u8;
        return at;
    }
    let at = end - 2;
    put_pair(octets, at, number);
    at
}

/// Puts two digits at the place `at` and after it.
fn put_pair(octets: &mut [u8; FRONT_MAX], at: u32, number: u32)
    requires at { at + 2 ≤ FRONT_MAX }
    requires pair { number < 100 }
    ensures { drop at octets.new
        ≡ (48 + number / 10) ∷ (48 + number % 10) ∷ drop (at + 2) octets.old }
{
    let tens = tens_of(number);
    let ones = ones_of(number);
    octets[at as usize] = tens;
    octets[at as usize + 1] = ones;
}

fn tens_of(number: u32) -> u8
    requires { number < 100 }
    ensures { result ≡ 48 + number / 10 }
{
    PAIRS[2 * number as usize]
}

fn ones_of(number: u32) -> u8
    requires { number < 100 }
    ensures { result ≡ 48 + number % 10 }
{
    PAIRS[2 * number as usize + 1]
}
