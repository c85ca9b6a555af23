//! What a SEQ breaks and leaves, over the whole session (RFC 3081, section 3.1).
ghost use Rattle.std.specs.Prelude.{◌≡◌, ◌∷◌, List, None, IfSome};
ghost use Rattle.beep_history.specs.Journal.{Item, told};
ghost use Rattle.beep_journal.specs.Broken.{broken_seq};
ghost use Rattle.beep_judge.specs.declared.half.Half.{Half};
ghost use Rattle.beep_judge.specs.Judges.{IsKept};

use crate::channels::Channels;
use beep_frame::{Rule, Seq};
use beep_history::Side;

/// Notes a SEQ, or answers the rule that it breaks and changes nothing.
pub(crate) fn note_seq(channels: &mut Channels, side: Side, seq: &Seq) -> Option<Rule>
    ensures value { (mine theirs : Half) (journal : List Item)
        → IsKept side journal channels.old mine theirs
        → result ≡ broken_seq side journal seq.now }
    ensures none { result ≡ None → (mine theirs : Half) (journal : List Item)
        → IsKept side journal channels.old mine theirs
        → IsKept side (told side seq.now ∷ journal) channels.new mine theirs }
    ensures some { IfSome result (λ _. channels.new ≡ channels.old) }
{
    if channels.is_bad_ack(side, seq) {
        return Some(Rule::BadAck);
    }
    channels.obey(side, seq);
    None
}
