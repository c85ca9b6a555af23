//! An input that is kept whole before it is looked at.
ghost use Rattle.std.specs.Prelude.{◌≡◌, ◌+◌, ◌<◌, ◌≤◌, ◌==◌, false, [], length, take, drop, vec_len, IfOk, IfErr, OnOk, OnErr};
ghost use Rattle.std.specs.Io.KnownBytes.{Consumes, IsAtEnd};
ghost use Rattle.beep_wires.specs.Counts.{Rose};
ghost use Rattle.beep_wires.specs.Ended.{is_end};
ghost use Rattle.beep_input.specs.Whole.{IsGathered, Stopped};
ghost use Rattle.beep_input.specs.Gathering.{StopsAtOnce};

use beep_octets::NoMemory;
use beep_wires::{Failed, Source};
use std::alloc::Global;

/// The octets of an input that is kept whole, at most, 16 MiB: a bound on the memory that it takes.
pub const MAX_INPUT: usize = 16777216;

/// How many octets more there is room for when none is left: what a pipe gives at once.
pub(crate) const PIECE: usize = 65536;

/// Why an input isn't kept.
#[derive(Clone, Copy, Debug, PartialEq, Eq)]
pub enum Unread {
    /// A read failed, and the octets that were read before it are dropped.
    Fault,
    /// Its octets found no memory, and those that were read are dropped.
    NoMemory,
}

/// Reads an input to its end. Of one that is too long it reads one octet more than `MAX_INPUT`.
pub fn read_input<I: Source>(alloc: Global, input: &mut I) -> Result<Vec<u8>, Unread>
    requires going { (I.state input.old).ended ≡ false }
    ensures ok { IfOk result (λ octets.
        IsGathered octets.items (I.state input.old) (I.state input.new)) }
    ensures err { IfErr result (λ why. Stopped why (I.state input.old) (I.state input.new)) }
    ensures reads { (I.state input.new).reads ≤ (I.state input.old).reads + (MAX_INPUT + 1) }
{
    let mut octets = Vec::new(alloc);
    let mut count = 0;
    while count <= MAX_INPUT {
        match read_piece(input, &mut octets, count) {
            Ok(0) => {
                octets.truncate(count);
                return Ok(octets);
            }
            Ok(n) => count += n,
            Err(why) => return Err(why),
        }
    }
    octets.truncate(count);
    Ok(octets)
}

/// Reads to the end of the octets that came, with room made where none is left.
fn read_piece<I: Source>(input: &mut I, octets: &mut Vec<u8>, count: usize) -> Result<usize, Unread>
    requires going { (I.state input.old).ended ≡ false }
    requires within { count ≤ vec_len octets.old }
    requires most { vec_len octets.old ≤ MAX_INPUT + 1 }
    requires few { count ≤ MAX_INPUT }
    ensures within { vec_len octets.new ≤ MAX_INPUT + 1 }
    ensures front { take count octets.new.items ≡ take count octets.old.items }
    ensures long { count ≤ vec_len octets.new }
    ensures fits { IfOk result (λ n. count + n ≤ vec_len octets.new) }
    ensures ok { IfOk result (λ n. Consumes (I.state input.old).left (I.state input.new).left
        (take n (drop count octets.new.items))) }
    ensures end { IfOk result (λ n. ((I.state input.new).ended ≡ (n == 0))
        × (n ≡ 0 → IsAtEnd (I.state input.new).left)) }
    ensures err { IfErr result (λ why.
        StopsAtOnce why (I.state input.old) (I.state input.new)) }
    ensures kept { (I.state input.old).faults ≤ (I.state input.new).faults }
    ensures counted { (I.state input.new).reads ≤ (I.state input.old).reads + 1 }
{
    if let Err(NoMemory) = make_room(octets, count) {
        return Err(Unread::NoMemory);
    }
    read_at(input, octets.as_mut_slice(), count)
}

/// Makes room after the octets that came, where none is left.
fn make_room(octets: &mut Vec<u8>, count: usize) -> Result<(), NoMemory>
    requires within { count ≤ vec_len octets.old }
    requires most { vec_len octets.old ≤ MAX_INPUT + 1 }
    requires few { count ≤ MAX_INPUT }
    ensures within { vec_len octets.new ≤ MAX_INPUT + 1 }
    ensures front { take count octets.new.items ≡ take count octets.old.items }
    ensures long { count ≤ vec_len octets.new }
    ensures room { OnOk result (count < vec_len octets.new) }
{
    if octets.len() == count {
        octets.resize((count + PIECE).min(MAX_INPUT + 1), 0)?;
    }
    Ok(())
}

/// Reads into a buffer from a place on.
pub(crate) fn read_at<I: Source>(input: &mut I, buf: &mut [u8], at: usize) -> Result<usize, Unread>
    requires going { (I.state input.old).ended ≡ false }
    requires within { at < length buf.old }
    ensures front { take at buf.new ≡ take at buf.old }
    ensures length { length buf.new ≡ length buf.old }
    ensures fits { IfOk result (λ n. at + n ≤ length buf.new) }
    ensures octets { IfOk result (λ n. Consumes (I.state input.old).left (I.state input.new).left
        (take n (drop at buf.new))) }
    ensures end { (I.state input.new).ended ≡ is_end result }
    ensures at_end { IfOk result (λ n. n ≡ 0 → IsAtEnd (I.state input.new).left) }
    ensures failed { IfErr result (λ why. (why ≡ Unread.Fault)
        × Rose (I.state input.old).faults (I.state input.new).faults) }
    ensures unread { OnErr result (Consumes (I.state input.old).left (I.state input.new).left []) }
    ensures kept { (I.state input.old).faults ≤ (I.state input.new).faults }
    ensures counted { (I.state input.new).reads ≤ (I.state input.old).reads + 1 }
{
    match input.read(&mut buf[at..]) {
        Ok(n) => Ok(n),
        Err(Failed) => Err(Unread::Fault),
    }
}
