//! What a header breaks and leaves, over the whole session (RFC 3080, section 2.2.1).
ghost use Rattle.std.specs.Prelude.{◌≡◌, ◌∷◌, ◌&&◌, not, List, Some, None, IfSome, IsSome, option_map};
ghost use Rattle.beep_history.specs.Journal.{Item, began};
ghost use Rattle.beep_journal.specs.Broken.{none_tunes, is_greeting, breaks_size, breaks_zero_reply, broken_head};
ghost use Rattle.beep_judge.specs.declared.half.Half.{Half as HalfValue};
ghost use Rattle.beep_judge.specs.Kept.{judged_of, life_at};
ghost use Rattle.beep_judge.specs.Judges.{IsKept};

use crate::channels::Channels;
use crate::half::{Frame, Half};
use beep_frame::{Head, Kind, MAX_PAYLOAD, Rule};
use beep_history::Side;

/// Notes a header, or answers the first rule that it breaks and changes nothing.
pub(crate) fn begin(
    channels: &mut Channels,
    mine: &mut Half,
    side: Side,
    head: &Head,
) -> Option<Rule>
    requires idle { mine.old.under_way ≡ None }
    requires reached { ∥ ((theirs : HalfValue) × (journal : List Item)
        × IsKept side journal channels.old mine.old theirs) ∥₁ }
    ensures value { (theirs : HalfValue) (journal : List Item)
        → IsKept side journal channels.old mine.old theirs
        → result ≡ broken_head none_tunes side journal head.now }
    ensures none { result ≡ None → (theirs : HalfValue) (journal : List Item)
        → IsKept side journal channels.old mine.old theirs
        → IsKept side (began side head.now ∷ journal) channels.new mine.new theirs }
    ensures begun { result ≡ None → option_map (λ f. f.head) mine.new.under_way ≡ Some head.now }
    ensures some_channels { IfSome result (λ _. channels.new ≡ channels.old) }
    ensures some { IfSome result (λ _. mine.new ≡ mine.old) }
{
    if let Some(rule) = judge(channels, mine, side, head) {
        return Some(rule);
    }
    channels.begin(side, head);
    mine.under_way = Some(Frame {
        head: *head,
        stamp: channels.stamp_of(head.channel),
    });
    None
}

/// The first rule that a header breaks.
fn judge(channels: &Channels, mine: &Half, side: Side, head: &Head) -> Option<Rule>
    ensures value { (theirs : HalfValue) (journal : List Item)
        → IsKept side journal channels.now mine.now theirs
        → result ≡ broken_head none_tunes side journal head.now }
    ensures alive { result ≡ None → IsSome (life_at head.now.channel channels.now) }
    ensures judged { result ≡ None
        → IfSome (life_at head.now.channel channels.now)
        (λ life. judged_of side life head.now ≡ None) }
{
    if is_too_large(head) {
        return Some(Rule::Size);
    }
    if is_too_soon(mine, head) {
        return Some(Rule::NoGreeting);
    }
    let Some(life) = channels.life_at(head.channel) else {
        return Some(Rule::NoSuchChannel);
    };
    if let Some(rule) = life.judge(side, head) {
        return Some(rule);
    }
    if is_zero_reply(head) {
        return Some(Rule::ZeroReply);
    }
    None
}

/// Whether the payload is larger than an end takes.
fn is_too_large(head: &Head) -> bool
    ensures { result ≡ breaks_size head.now }
{
    head.size > MAX_PAYLOAD
}

/// Whether it comes before the greeting of its side.
fn is_too_soon(mine: &Half, head: &Head) -> bool
    ensures { result ≡ (not mine.now.heard && not (is_greeting head.now)) }
{
    !mine.heard && !is_greeting(head)
}

/// Whether it is the reply to the implied request.
fn is_greeting(head: &Head) -> bool
    ensures { result ≡ is_greeting head.now }
{
    (head.kind.is_same(Kind::Rpy) || head.kind.is_same(Kind::Err))
        && head.channel == 0
        && head.msgno == 0
}

/// Whether a reply of channel zero isn't one message.
fn is_zero_reply(head: &Head) -> bool
    ensures { result ≡ breaks_zero_reply head.now }
{
    head.channel == 0 && (head.kind.is_ans() || head.kind.is_nul())
}
