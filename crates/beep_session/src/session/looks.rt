//! What a session answers of itself.
ghost use Rattle.std.specs.Prelude.{◌≡◌, ◌↔◌, ◌==◌, ◌&&◌, ◌||◌, not, ◌+◌, ◌<◌, true, false, ℕ, List, length, IfSome, is_some, slice_get};
ghost use Rattle.std.specs.List.{list_any};
ghost use Rattle.beep_giving.specs.beep_frame.specs.declared.head.Head.{Head as HeadValue};
ghost use Rattle.beep_giving.specs.beep_frame.specs.Modulo.{modulo_2_64};
ghost use Rattle.beep_giving.specs.beep_history.specs.Journal.{Item};
ghost use Rattle.beep_giving.specs.beep_standing.specs.Standing.{Marks};
ghost use Rattle.beep_giving.specs.beep_decide.specs.Numbers.{may_start};
ghost use Rattle.beep_giving.specs.beep_lives.specs.Lives.{live_at, can_send, owes_seq, numbers};
ghost use Rattle.beep_giving.specs.beep_peer.specs.Standing.{rest_of, live_above};
ghost use Rattle.beep_session.specs.Looks.{IsTakenAt};

use super::Session;
use beep_giving::beep_decide::may_start;
use beep_giving::beep_lives::Lives;

impl Session {
    ghost use Rattle.beep_giving.specs.beep_peer.specs.Peering.{IsPeer, WaitsIn, is_over, is_greeted, zero_waits};
    ghost use Rattle.beep_session.specs.Bounded.{text_held, IsBounded, IsWholeBounded};

    /// Whether a whole message of channel zero has arrived and isn't settled.
    pub fn zero_waits(&self) -> bool
        ensures { result ≡ zero_waits self.now.peer }
    {
        !self.is_over() && self.peer.ear.waiting().is_some()
    }

    /// Whether `emit` would answer something other than Nothing.
    pub fn may_emit(&self) -> bool
        ensures { result ≡ (not (is_over self.now.peer)
            && ((is_greeted self.now.peer.management && list_any owes_seq self.now.peer.lives)
            || list_any can_send self.now.peer.lives)) }
    {
        !self.is_over()
            && ((self.peer.is_greeted() && self.peer.lives.has_due())
                || self.peer.lives.has_ready())
    }

    /// Whether a live channel above zero has an untaken mark.
    pub fn has_untaken(&self) -> bool
        ensures { (result ≡ false) ↔ ((number : ℕ) → IsTakenAt number self.now.peer.lives) }
    {
        !are_taken(&self.peer.lives)
    }

    /// The octets used since the last whole frame or SEQ, modulo 2^64; none while a message of
    /// channel zero waits, and after a broken rule those up to its octet.
    pub fn left(&self) -> u64
        ensures stands { (fed rest : List ℕ) (journal : List Item) (given taken : Marks)
            → IsPeer self.now.limits.window fed rest journal given taken self.now.peer
            → result ≡ modulo_2_64 (length rest) }
        ensures waiting { (fed : List ℕ) (journal : List Item) (given taken : Marks)
            (head : HeadValue) (payload : List ℕ) → WaitsIn self.now.limits.window fed journal
            given taken head payload self.now.peer → result ≡ 0 }
        ensures broken { IfSome self.now.peer.ear.broken (λ stopped. result ≡ stopped.left) }
    {
        self.peer.ear.left()
    }

    /// Whether there are none.
    pub fn between_frames(&self) -> bool
        ensures stands { (fed rest : List ℕ) (journal : List Item) (given taken : Marks)
            → IsPeer self.now.limits.window fed rest journal given taken self.now.peer
            → result ≡ (length rest == 0) }
        ensures waiting { (fed : List ℕ) (journal : List Item) (given taken : Marks)
            (head : HeadValue) (payload : List ℕ) → WaitsIn self.now.limits.window fed journal
            given taken head payload self.now.peer → result ≡ true }
        ensures broken { IfSome self.now.peer.ear.broken
            (λ stopped. result ≡ (stopped.left == 0)) }
    {
        self.peer.ear.between_frames()
    }

    /// How many octets are kept of the message of channel zero that is under way, or waits. It and
    /// what else is held of what arrived is bounded.
    pub fn zero_octets(&self) -> usize
        ensures value { result ≡ text_held self.now.peer.ear }
        ensures bounded { IsBounded self.now }
        ensures stands { (fed rest : List ℕ) (journal : List Item) (given taken : Marks)
            → IsPeer self.now.limits.window fed rest journal given taken self.now.peer
            → IsWholeBounded self.now }
        ensures waiting { (fed : List ℕ) (journal : List Item) (given taken : Marks)
            (head : HeadValue) (payload : List ℕ) → WaitsIn self.now.limits.window fed journal
            given taken head payload self.now.peer → IsWholeBounded self.now }
    {
        self.peer.ear.text().len()
    }

    /// Whether a rule was broken, or the session is released.
    pub fn is_over(&self) -> bool
        ensures { result ≡ is_over self.now.peer }
    {
        self.peer.is_over()
    }

    /// Whether this end may start a channel of this number: the initiator starts odd channels, the
    /// listener even ones (RFC 3080, section 2.3.1.2).
    pub fn may_start(&self, number: u32) -> bool
        ensures { result ≡ may_start self.now.role number }
    {
        may_start(self.standing.role, number)
    }

    /// Whether a number above 0 has a live life.
    pub fn live(&self, n: u32) -> bool
        ensures { result ≡ (not (n == 0) && is_some (live_at n self.now.peer.lives)) }
    {
        n != 0 && self.peer.lives.is_live(n)
    }

    /// The number of the live channel above zero at a place, counted from 0. The numbers ascend.
    pub fn number_at(&self, i: usize) -> Option<u32>
        ensures { result ≡ slice_get (live_above self.now.peer) i }
    {
        number_after_zero(&self.peer.lives, i)
    }
}

/// The number at a place among those of the channels after the first.
fn number_after_zero(lives: &Lives, i: usize) -> Option<u32>
    ensures { result ≡ slice_get (rest_of (numbers lives.now)) i }
{
    if i < lives.len() {
        lives.place(i + 1)
    } else {
        None
    }
}

/// Whether all that arrived in the channels above zero is taken.
fn are_taken(lives: &Lives) -> bool
    ensures { (result ≡ true) ↔ ((number : ℕ) → IsTakenAt number lives.now) }
{
    for i in 0..lives.len() {
        if let Some(number) = lives.place(i) {
            if !is_taken(lives, number) {
                return false;
            }
        }
    }
    true
}

/// Whether the channel of a number above zero has ended, or all that arrived in it is taken.
fn is_taken(lives: &Lives, number: u32) -> bool
    ensures { (result ≡ true) ↔ IsTakenAt number lives.now }
{
    if number == 0 {
        return true;
    }
    match lives.channel(number) {
        Some(channel) => !channel.has_untaken(),
        None => true,
    }
}
