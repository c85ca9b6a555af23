//! What the definitions mean, as facts that hold of every history.
ghost use Rattle.std.specs.Prelude.{ℕ, ◌<◌, ◌≤◌, ◌↔◌, IsTrue};
ghost use Rattle.beep_octets.specs.Numbers.{numbers_32};
ghost use Rattle.beep_seq.specs.Wire.{count_from, IsFirstFrom};
ghost use Rattle.beep_seq.specs.Due.{breaks_bad_ack, HasCountBetween};
ghost use Rattle.beep_seq.specs.Receiving.{Receiver, Arrivals, full_edge, IsReceiver};

/// A number on the wire stands for the first count that has it.
pub fn count_from_is_the_first()
    ensures { (start number : ℕ) → number < numbers_32
        → IsFirstFrom start number (count_from start number) }
{}

/// An ackno is bad exactly where it is the number of no count from the last ackno to the sent
/// octets.
pub fn bad_ack_is_no_count_between()
    ensures { (acknowledged sent ackno : ℕ) → ackno < numbers_32
        → IsTrue (breaks_bad_ack acknowledged sent ackno)
        ↔ (¬ HasCountBetween acknowledged sent ackno) }
{}

/// A full SEQ never moves the edge to the left.
pub fn edge_never_moves_left()
    ensures { (window : Receiver) (size : ℕ) (counts : Arrivals) → IsReceiver window size counts
        → counts.edge ≤ full_edge size counts }
{}
