//! Turns of two ends in one loop.
ghost use Rattle.std.specs.Prelude.{◌≡◌, ◌≢◌, ◌++◌, ℕ, [], List, None};
ghost use Rattle.beep_link.specs.Between.{IsBetween};
ghost use Rattle.beep_link.specs.Causes.{IsBounded, Look, WhereKnown};
ghost use Rattle.beep_wires.specs.Links.{Link, IsFresh};
ghost use Rattle.turn_tests.specs.Going.{IsGoing};
ghost use Rattle.turn_tests.specs.Shared.{IsShared, Says, one_ended, other_ended};
ghost use Rattle.turn_tests.specs.Since.{HasCause, IsSince, look_at};
ghost use Rattle.turn_tests.specs.Waits.{Waits};

use beep_link::{Buffers, End, Ended, Left, Reads, turn};
use beep_wires::{Sink, Wires};

/// An end, its link, and what may be read of that.
#[derive(Drop)]
pub struct Linked<E> {
    /// The end.
    pub end: E,
    /// The number of its link.
    pub link: u32,
    /// What is read of the link at most.
    pub reads: Reads,
    /// What may still be read of it.
    pub left: Left,
}

impl<E> Linked<E> {
    /// An end that begins, over a link on which nothing has happened yet.
    pub fn new(end: E, link: u32, reads: Reads) -> Linked<E>
        ensures end { result.end ≡ end }
        ensures link { result.link ≡ link }
        ensures reads { result.reads ≡ reads }
        ensures going { (state : Link) → IsFresh state → IsGoing state result.reads result.left }
    {
        Linked {
            end,
            link,
            reads,
            left: Left::of(reads),
        }
    }
}

/// Which of two ends has ended, and how.
#[derive(Clone, Copy, Debug, PartialEq, Eq)]
pub enum Which {
    /// The one that takes the first turn.
    One(Ended),
    /// The other.
    Other(Ended),
}

/// Takes turns of two ends, each over its own link, until one of them has ended.
pub fn take_turns<E: End, F: End, W: Wires, O: Sink>(
    buffers: &mut Buffers,
    one: &mut Linked<E>,
    other: &mut Linked<F>,
    wires: &mut W,
    output: &mut O,
) -> Which
    requires apart { other.old.link ≢ one.old.link }
    requires one { IsGoing (W.state wires.old one.old.link) one.old.reads one.old.left }
    requires other { IsGoing (W.state wires.old other.old.link) other.old.reads other.old.left }
    requires between { IsBetween buffers.old }
    ensures shared { (text late : List ℕ)
        → WhereKnown (λ log. E.stands one.old.end log [] text) (W.state wires.old one.old.link).log
        → WhereKnown (λ log. F.stands other.old.end log [] late)
        (W.state wires.old other.old.link).log
        → IsShared (O.state output.old).written (O.state output.new).written
        (λ more. Says (one_ended result) (E.tells (E.terms one.old.end))
        (λ log. E.stands one.new.end log []) (text ++ more) (W.state wires.new one.old.link).log)
        (λ more. Says (other_ended result) (F.tells (F.terms other.old.end))
        (λ log. F.stands other.new.end log []) (late ++ more)
        (W.state wires.new other.old.link).log) }

    // What each link shows, as if it were served alone.
    ensures one_caused { (before : Look) → IsSince before one.old.reads one.old.left
        (look_at (W.state wires.old) (W.counts wires.old) one.old.link)
        → HasCause (one_ended result) before one.old.reads one.new.left
        (look_at (W.state wires.new) (W.counts wires.new) one.old.link) }
    ensures other_caused { (before : Look) → IsSince before other.old.reads other.old.left
        (look_at (W.state wires.old) (W.counts wires.old) other.old.link)
        → HasCause (other_ended result) before other.old.reads other.new.left
        (look_at (W.state wires.new) (W.counts wires.new) other.old.link) }
    ensures one_waits { (text : List ℕ)
        → WhereKnown (λ log. E.stands one.old.end log [] text) (W.state wires.old one.old.link).log
        → Waits (E.tells (E.terms one.old.end)) (W.state wires.old one.old.link).log
        → Waits (E.tells (E.terms one.old.end)) (W.state wires.new one.old.link).log }
    ensures other_waits { (text : List ℕ)
        → WhereKnown (λ log. F.stands other.old.end log [] text)
        (W.state wires.old other.old.link).log
        → Waits (F.tells (F.terms other.old.end)) (W.state wires.old other.old.link).log
        → Waits (F.tells (F.terms other.old.end)) (W.state wires.new other.old.link).log }
    ensures one_bounded { IsBounded one.old.reads (W.state wires.old one.old.link).log
        → IsBounded one.old.reads (W.state wires.new one.old.link).log }
    ensures other_bounded { IsBounded other.old.reads (W.state wires.old other.old.link).log
        → IsBounded other.old.reads (W.state wires.new other.old.link).log }

    // The end that hasn't ended goes on, over the link that it had.
    ensures one_goes { one_ended result ≡ None
        → IsGoing (W.state wires.new one.old.link) one.old.reads one.new.left }
    ensures other_goes { other_ended result ≡ None
        → IsGoing (W.state wires.new other.old.link) other.old.reads other.new.left }

    // What stays.
    ensures one_link { one.new.link ≡ one.old.link }
    ensures other_link { other.new.link ≡ other.old.link }
    ensures one_reads { one.new.reads ≡ one.old.reads }
    ensures other_reads { other.new.reads ≡ other.old.reads }
    ensures between { IsBetween buffers.new }
    ensures terms { E.terms one.new.end ≡ E.terms one.old.end }
    ensures other_terms { F.terms other.new.end ≡ F.terms other.old.end }
{
    loop {
        if let Err(ended) = turn(
            &mut one.end,
            buffers,
            wires,
            one.link,
            one.reads,
            &mut one.left,
            output,
        ) {
            return Which::One(ended);
        }
        if let Err(ended) = turn(
            &mut other.end,
            buffers,
            wires,
            other.link,
            other.reads,
            &mut other.left,
            output,
        ) {
            return Which::Other(ended);
        }
    }
}

#[cfg(test)]
mod tests;
