//! The window of the peer, as a sender sees it (RFC 3081, section 3.1).
ghost use Rattle.std.specs.Prelude.{◌≡◌, ◌+◌, ◌-◌, ◌≤◌, ◌↔◌, IsOk, OnOk, OnErr, is_err};
ghost use Rattle.beep_seq.specs.Due.{breaks_bad_ack, HasCountBetween};
ghost use Rattle.beep_seq.specs.Sending.{Departures, no_departures, after_seq, open_after, IsSender};

use crate::limits::INITIAL_WINDOW;
use crate::seq_no::SeqNo;
use std::marker::Model;

/// The peer acknowledged what wasn't sent, or less than before. The same call is refused again.
#[derive(Clone, Copy, Debug, PartialEq, Eq)]
pub struct BadAck;

/// How much may be sent in one life of a channel.
#[derive(Debug, Drop)]
pub struct SendWindow {
    last_ackno: SeqNo,
    unacked: u32,
    room: u32,
}

impl Model for SendWindow {
    ghost use Rattle.std.specs.Prelude.{◌+◌, ◌<◌};
    ghost use Rattle.beep_octets.specs.Numbers.{numbers_32};
    ghost use Rattle.beep_seq.specs.Sending.{Sender};

    ghost Value = { Sender };

    ghost view = { λ w. record { last_ackno = w.last_ackno; unacked = w.unacked; room = w.room } };

    ghost invariant = { λ w. w.unacked + w.room < numbers_32 };
}

impl SendWindow {
    /// The window of a life in which nothing was sent.
    pub fn new() -> SendWindow
        ensures { IsSender result no_departures }
    {
        SendWindow {
            last_ackno: SeqNo::new(0),
            unacked: 0,
            room: INITIAL_WINDOW,
        }
    }

    /// The open octets: how many may be sent before the peer opens its window further.
    pub fn room(&self) -> u32
        ensures value { result ≡ self.now.room }
        ensures counted { (counts : Departures) → IsSender self.now counts
            → result ≡ open_after counts }
    {
        self.room
    }

    /// Notes that a frame with `n` octets of payload was sent.
    pub fn spend(&mut self, n: u32)
        requires fits { n ≤ self.old.room }
        ensures value { self.new ≡ record self.old {
          unacked = self.old.unacked + n;
          room = self.old.room - n;
        } }
        ensures counted { (counts : Departures) → IsSender self.old counts
            → IsSender self.new (record counts { sent = counts.sent + n }) }
    {
        self.unacked += n;
        self.room -= n;
    }

    /// Obeys a SEQ with this `ackno` and `window`, also one that moves the window's end to the
    /// left.
    pub fn acked(&mut self, ackno: u32, window: u32) -> Result<(), BadAck>
        ensures ok { (counts : Departures) → IsSender self.old counts
            → OnOk result (IsSender self.new (after_seq counts ackno window)) }

        // The ackno is the number of a count from the last ackno to the next octet to be sent.
        ensures accepted { (counts : Departures) → IsSender self.old counts
            → IsOk result ↔ HasCountBetween counts.acknowledged counts.sent ackno }
        ensures refused { (counts : Departures) → IsSender self.old counts
            → is_err result ≡ breaks_bad_ack counts.acknowledged counts.sent ackno }
        ensures err { OnErr result (self.new ≡ self.old) }
    {
        let ackno = SeqNo::new(ackno);
        let newly = ackno.minus(self.last_ackno);
        if newly > self.unacked {
            return Err(BadAck);
        }
        self.last_ackno = ackno;
        self.unacked -= newly;
        self.room = window.saturating_sub(self.unacked);
        Ok(())
    }
}
