//! The window of this end, which its SEQs open (RFC 3081, section 3.1).
ghost use Rattle.std.specs.Prelude.{◌≡◌, ◌+◌, ◌-◌, ◌≤◌, ◌↔◌, ℕ, IsTrue};
ghost use Rattle.beep_seq.specs.Wire.{wire_number};
ghost use Rattle.beep_seq.specs.Receiving.{Arrivals, no_arrivals, full_edge, full_seq, due_seq, full_of, due_of, IsReceiver};

use crate::limits::{INITIAL_WINDOW, MAX_WINDOW, MIN_WINDOW};
use crate::seq_no::SeqNo;
use std::marker::Model;

/// How much the peer may send in one life of a channel, and when a SEQ is to advertise more.
#[derive(Debug, Drop)]
pub struct RecvWindow {
    size: u32,
    next: SeqNo,
    room: u32,
    untaken: u32,
}

impl Model for RecvWindow {
    ghost use Rattle.std.specs.Prelude.{◌+◌, ◌≤◌};
    ghost use Rattle.beep_seq.specs.Receiving.{Receiver};

    ghost Value = { Receiver };

    ghost view = { λ w. record {
      size = w.size;
      next = w.next;
      room = w.room;
      untaken = w.untaken;
    } };

    ghost use Rattle.beep_seq.specs.Receiving.{IsWindow};

    ghost invariant = { λ w. IsWindow w.size × (w.room + w.untaken ≤ w.size) };
}

impl RecvWindow {
    /// The window of a life in which nothing arrived. `size` is in octets.
    pub fn new(size: u32) -> RecvWindow
        requires least { MIN_WINDOW ≤ size }
        requires greatest { size ≤ MAX_WINDOW }
        ensures { IsReceiver result size no_arrivals }
    {
        RecvWindow {
            size,
            next: SeqNo::new(0),
            room: INITIAL_WINDOW,
            untaken: 0,
        }
    }

    /// The sequence number that the next frame is to have.
    pub fn expect(&self) -> u32
        ensures value { result ≡ self.now.next }
        ensures counted { (size : ℕ) (counts : Arrivals) → IsReceiver self.now size counts
            → result ≡ wire_number counts.received }
    {
        self.next.get()
    }

    /// Whether a frame of `n` octets stays within the window.
    pub fn fits(&self, n: u32) -> bool
        ensures value { IsTrue result ↔ (n ≤ self.now.room) }
        ensures counted { (size : ℕ) (counts : Arrivals) → IsReceiver self.now size counts
            → IsTrue result ↔ (counts.received + n ≤ counts.edge) }
    {
        n <= self.room
    }

    /// Notes that a frame with `n` octets of payload has arrived.
    pub fn arrived(&mut self, n: u32)
        requires fits { n ≤ self.old.room }
        ensures value { self.new ≡ record self.old {
          next = wire_number (self.old.next + n);
          room = self.old.room - n;
          untaken = self.old.untaken + n;
        } }
        ensures counted { (size : ℕ) (counts : Arrivals) → IsReceiver self.old size counts
            → IsReceiver self.new size (record counts { received = counts.received + n }) }
    {
        self.next = self.next.plus(n);
        self.room -= n;
        self.untaken += n;
    }

    /// Notes that `n` octets that had arrived were taken.
    pub fn taken(&mut self, n: u32)
        requires waits { n ≤ self.old.untaken }
        ensures value { self.new ≡ record self.old { untaken = self.old.untaken - n } }
        ensures counted { (size : ℕ) (counts : Arrivals) → IsReceiver self.old size counts
            → IsReceiver self.new size (record counts { taken = counts.taken + n }) }
    {
        self.untaken -= n;
    }

    /// The ackno and window of the SEQ that is due, or None where it would open less than half a
    /// window.
    pub fn due(&self) -> Option<(u32, u32)>
        ensures value { result ≡ due_of self.now }
        ensures counted { (size : ℕ) (counts : Arrivals) → IsReceiver self.now size counts
            → result ≡ due_seq size counts }
    {
        let gained = self.size - self.room - self.untaken;
        if 2 * gained < self.size {
            return None;
        }
        Some(self.full())
    }

    /// The ackno and window of the SEQ that opens the whole window, whether it is due or not.
    pub fn full(&self) -> (u32, u32)
        ensures value { result ≡ full_of self.now }
        ensures counted { (size : ℕ) (counts : Arrivals) → IsReceiver self.now size counts
            → result ≡ full_seq size counts }

        // Its ackno and window lead to the edge of a whole window past what was taken.
        ensures edge { (size : ℕ) (counts : Arrivals) → IsReceiver self.now size counts
            → counts.received + result.1 ≡ full_edge size counts }
        ensures within { self.now.room + self.now.untaken ≤ self.now.size }
    {
        (self.next.get(), self.size - self.untaken)
    }

    /// Notes that the SEQ of `full` was sent.
    pub fn told(&mut self)
        ensures value { self.new ≡ record self.old { room = self.old.size - self.old.untaken } }
        ensures counted { (size : ℕ) (counts : Arrivals) → IsReceiver self.old size counts
            → IsReceiver self.new size (record counts { edge = full_edge size counts }) }
    {
        self.room = self.size - self.untaken;
    }
}
