//! The octets of one direction of a life, and those of them that are acknowledged (RFC 3081,
//! section 3.1).
ghost use Rattle.std.specs.Prelude.{◌≡◌, ◌+◌, ◌<◌, ◌==◌, ◌∷◌, [], List, true, false};
ghost use Rattle.beep_octets.specs.Numbers.{numbers_64};
ghost use Rattle.beep_frame.specs.declared.seq.Seq.{Seq};
ghost use Rattle.beep_seq.specs.Wire.{wire_number};
ghost use Rattle.beep_seq.specs.Due.{breaks_bad_ack};
ghost use Rattle.beep_history.specs.declared.journal.Side.{Side};
ghost use Rattle.beep_history.specs.Journal.{Item, told, other, opening};
ghost use Rattle.beep_history.specs.Marks.{passed_octets};
ghost use Rattle.beep_history.specs.Windows.{acked_octets};
ghost use Rattle.beep_judge.specs.Flows.{IsFlow, is_bad_ackno};

use beep_seq::SeqNo;

/// The numbers of one direction: of its next octet, of the first one that isn't acknowledged, and
/// how many aren't.
#[derive(Drop)]
pub(crate) struct Flow {
    pub(crate) next: SeqNo,
    pub(crate) acked: SeqNo,
    pub(crate) unacked: u64,
}

impl Flow {
    /// A direction that has carried nothing.
    pub(crate) fn new() -> Flow
        ensures begins { (side : Side) → IsFlow result side [] }
        ensures opens { (side : Side) → IsFlow result side opening }
    {
        Flow {
            next: SeqNo::new(0),
            acked: SeqNo::new(0),
            unacked: 0,
        }
    }

    /// Whether this is the number of the next octet.
    pub(crate) fn is_next(&self, seqno: u32) -> bool
        ensures { result ≡ (seqno == self.now.next) }
    {
        seqno == self.next.get()
    }

    /// Whether the count of what isn't acknowledged can take `n` octets more.
    pub(crate) fn has_room(&self, n: u32) -> bool
        ensures { result ≡ true → self.now.unacked + n < numbers_64 }
    {
        self.unacked.checked_add(n as u64).is_some()
    }

    /// Notes that a frame with `n` octets of payload has passed.
    pub(crate) fn pass(&mut self, n: u32)
        requires room { self.old.unacked + n < numbers_64 }
        ensures next { self.new.next ≡ wire_number (self.old.next + n) }
        ensures acked { self.new.acked ≡ self.old.acked }
        ensures unacked { self.new.unacked ≡ self.old.unacked + n }
    {
        self.next = self.next.plus(n);
        self.unacked += n as u64;
    }

    /// Whether an ackno acknowledges what hasn't passed, or less than before.
    pub(crate) fn is_bad_ack(&self, ackno: u32) -> bool
        ensures value { result ≡ is_bad_ackno self.now ackno }
        ensures stands { (side : Side) (past : List Item) → IsFlow self.now side past
            → result ≡ breaks_bad_ack (acked_octets side past) (passed_octets side past) ackno }
    {
        SeqNo::new(ackno).minus(self.acked) as u64 > self.unacked
    }

    /// Obeys an ackno.
    pub(crate) fn ack(&mut self, ackno: u32)
        requires good { is_bad_ackno self.old ackno ≡ false }
        ensures { (side : Side) (past : List Item) (seq : Seq) → IsFlow self.old side past
            → seq.ackno ≡ ackno → IsFlow self.new side (told (other side) seq ∷ past) }
    {
        let ackno = SeqNo::new(ackno);
        self.unacked -= ackno.minus(self.acked) as u64;
        self.acked = ackno;
    }
}
