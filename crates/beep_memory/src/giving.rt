//! What a link in memory gives, from a place on.
ghost use Rattle.std.specs.Prelude.{◌≡◌, ◌<◌, ◌≤◌, ◌++◌, true, false, length, min, take, drop};
ghost use Rattle.beep_memory.specs.Gifts.{got_from, octets_from, left_after, is_over, GotFits};

use crate::gives::{Give, Gives};
use beep_wires::Got;
use std::marker::Model;

/// What is given, the place of what comes next, and how many octets of that are gone.
#[derive(Debug, Drop)]
pub(crate) struct Giving {
    gives: Gives,
    at: usize,
    taken: usize,
}

impl Model for Giving {
    ghost use Rattle.std.specs.Prelude.{◌≡◌, ◌≤◌, true, length, drop, List};
    ghost use Rattle.std.specs.List.{list_all};
    ghost use Rattle.beep_memory.specs.Gifts.{Gift, is_some, left_from};

    ghost Value = { List Gift };

    ghost view = { λ g. left_from g.taken (drop g.at g.gives) };

    ghost invariant = { λ g. (list_all is_some (left_from g.taken (drop g.at g.gives)) ≡ true)
        × (g.at ≤ length g.gives) };
}

impl Giving {
    ghost use Rattle.std.specs.List.{list_all};
    ghost use Rattle.beep_memory.specs.Gifts.{is_some};

    /// All of it is still to come.
    pub(crate) fn new(gives: Gives) -> Giving
        requires { list_all is_some gives ≡ true }
        ensures { result ≡ gives }
    {
        Giving {
            gives,
            at: 0,
            taken: 0,
        }
    }

    /// Gives what comes next into the front of `buf`.
    pub(crate) fn next(&mut self, buf: &mut [u8]) -> Got
        requires { 0 < length buf.old }
        ensures got { result ≡ got_from self.old (length buf.old) }
        ensures filled { buf.new ≡ octets_from self.old (length buf.old)
            ++ drop (length (octets_from self.old (length buf.old))) buf.old }
        ensures after { self.new ≡ left_after self.old (length buf.old) }
        ensures within { GotFits result (length buf.old) }
    {
        if self.at >= self.gives.len() {
            return Got::End;
        }
        match self.gives.at(self.at) {
            Give::Quiet => {
                self.at += 1;
                self.taken = 0;
                Got::Quiet
            }
            Give::Bytes(octets) => {
                let left = &octets.as_slice()[self.taken..];
                let all = left.len();
                let n = fill(left, buf);
                if n == all {
                    self.at += 1;
                    self.taken = 0;
                } else {
                    self.taken += n;
                }
                Got::Bytes(n)
            }
        }
    }
}

fn fill(from: &[u8], to: &mut [u8]) -> usize
    ensures count { result ≡ min (length from.now) (length to.old) }
    ensures copied { to.new ≡ take result from.now ++ drop result to.old }
{
    let n = from.len().min(to.len());
    to[..n].copy_from_slice(&from[..n]);
    n
}
