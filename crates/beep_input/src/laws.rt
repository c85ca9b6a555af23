//! Laws above the definitions of specs/. The functions do nothing: what they ensure is the law.
ghost use Rattle.std.specs.Prelude.{◌≡◌, ℕ, List};
ghost use Rattle.std.specs.List.{AllByRecursion};
ghost use Rattle.beep_input.specs.Lines.{pieces_at_lf, joined_by_lf, HasNoLf};

/// An input is its pieces with an LF between each two, and no piece has one.
pub fn an_input_is_its_pieces()
    ensures joined { (octets : List ℕ) → joined_by_lf (pieces_at_lf octets) ≡ octets }
    ensures each { (octets : List ℕ) → AllByRecursion HasNoLf (pieces_at_lf octets) }
{}
