//! What a received header, SEQ or frame makes of the live channels, by the journal for which they
//! stand.
ghost use Rattle.std.specs.Prelude.{◌≡◌, ℕ, ◌<◌, ◌≤◌, ◌==◌, ◌&&◌, ◌∷◌, List, length, true, false, not, None, Some, is_some, IfSome};
ghost use Rattle.beep_standing.specs.beep_frame.specs.declared.head.Head.{Head as HeadValue};
ghost use Rattle.beep_standing.specs.beep_frame.specs.declared.limits.TheConstants.{MAX_PAYLOAD};
ghost use Rattle.beep_standing.specs.beep_history.specs.declared.journal.Side.{Side};
ghost use Rattle.beep_standing.specs.beep_history.specs.Journal.{Item, began, passed, told};
ghost use Rattle.beep_standing.specs.beep_history.specs.Marks.{previous};
ghost use Rattle.beep_standing.specs.beep_history.specs.Broken.{under_way};
ghost use Rattle.beep_standing.specs.beep_journal.specs.Broken.{none_tunes, broken_head, broken_seq, is_greeting, breaks_zero_reply};
ghost use Rattle.beep_standing.specs.beep_lives.specs.Lives.{live_at, has_begun, receiving_of};
ghost use Rattle.beep_standing.specs.Standing.{Marks, AreLive, AreLiveBy};
ghost use Rattle.beep_hearing.specs.Hears.{Passes, KeepsOthers, KeepsZeroRoom};

use beep_standing::beep_frame::{Head, Kind, Rule, Seq};
use beep_standing::beep_lives::Lives;

/// The octets of channel zero that are dropped at once.
const PIECE: usize = 4096;

// ---- a header

/// The first rule that a received header breaks, where its size is within the limit. Where it
/// breaks none its channel notes it. `heard`: a frame of the peer has passed.
pub(crate) fn hear_head(lives: &mut Lives, heard: bool, head: &Head) -> Option<Rule>
    requires whole { has_begun (live_at head.now.channel lives.old) ≡ false }
    ensures value { (size : ℕ) (journal : List Item) (given taken : Marks)
        → AreLiveBy size journal given taken lives.old
        → heard ≡ is_some (previous Side.Received journal) → head.now.size ≤ MAX_PAYLOAD
        → result ≡ broken_head none_tunes Side.Received journal head.now }
    ensures none { result ≡ None → (size : ℕ) (journal : List Item) (given taken : Marks)
        → AreLiveBy size journal given taken lives.old → under_way Side.Received journal ≡ None
        → AreLiveBy size (began Side.Received head.now ∷ journal) given taken lives.new }
    ensures some { IfSome result (λ _. lives.new ≡ lives.old) }
    ensures room { KeepsZeroRoom lives.old lives.new }
{
    if lacks_greeting(heard, head) {
        return Some(Rule::NoGreeting);
    }
    if let Some(rule) = lives.judge(head) {
        return Some(rule);
    }
    if breaks_zero_reply(head) {
        return Some(Rule::ZeroReply);
    }
    lives.begin(head);
    None
}

/// Whether the greeting should have come first.
fn lacks_greeting(heard: bool, head: &Head) -> bool
    ensures { result ≡ (not heard && not (is_greeting head.now)) }
{
    !heard && !is_greeting(head)
}

/// Whether a header may be the first of its side.
fn is_greeting(head: &Head) -> bool
    ensures { result ≡ is_greeting head.now }
{
    matches!(head.kind, Kind::Rpy | Kind::Err) && head.channel == 0 && head.msgno == 0
}

/// Whether a header is of an ANS or a NUL on channel zero.
fn breaks_zero_reply(head: &Head) -> bool
    ensures { result ≡ breaks_zero_reply head.now }
{
    head.channel == 0 && matches!(head.kind, Kind::Ans | Kind::Nul)
}

// ---- a SEQ

/// The rule that a received SEQ breaks. Where it breaks none its channel obeys it, if it has one.
pub(crate) fn hear_seq(lives: &mut Lives, seq: &Seq) -> Option<Rule>
    ensures value { (size : ℕ) (journal : List Item) (given taken : Marks)
        → AreLiveBy size journal given taken lives.old
        → result ≡ broken_seq Side.Received journal seq.now }
    ensures none { result ≡ None → (size : ℕ) (journal : List Item) (given taken : Marks)
        → AreLiveBy size journal given taken lives.old
        → AreLiveBy size (told Side.Received seq.now ∷ journal) given taken lives.new }
    ensures some { IfSome result (λ _. lives.new ≡ lives.old) }
    ensures room { KeepsZeroRoom lives.old lives.new }
{
    match lives.acked(seq) {
        Ok(_obeyed) => None,
        Err(_bad) => Some(Rule::BadAck),
    }
}

// ---- a frame

/// A whole frame arrives in its channel, or in none where its life has ended. It takes no memory.
pub(crate) fn hear_frame(lives: &mut Lives, head: &Head, payload: &[u8])
    requires begun { (begun : HeadValue)
        → receiving_of (live_at head.now.channel lives.old) ≡ Some begun → begun ≡ head.now }
    requires sized { length payload.now ≡ head.now.size }
    requires room { IfSome (live_at head.now.channel lives.old) (λ channel. 0 < channel.runs) }
    ensures above { (size : ℕ) (journal : List Item) (given taken : Marks)
        → AreLiveBy size journal given taken lives.old
        → under_way Side.Received journal ≡ Some head.now → (head.now.channel == 0) ≡ false
        → AreLiveBy size (passed Side.Received head.now payload.now ∷ journal) given taken
        lives.new }
    ensures part { (size : ℕ) (journal : List Item) (given taken : Marks)
        → AreLiveBy size journal given taken lives.old
        → under_way Side.Received journal ≡ Some head.now → (head.now.channel == 0) ≡ true
        → head.now.more ≡ true
        → AreLiveBy size (passed Side.Received head.now payload.now ∷ journal) given taken
        lives.new }
    ensures last { (size : ℕ) (journal : List Item) (given taken : Marks)
        → AreLiveBy size journal given taken lives.old
        → under_way Side.Received journal ≡ Some head.now → (head.now.channel == 0) ≡ true
        → AreLive size journal (passed Side.Received head.now payload.now ∷ journal) given taken
        lives.new }
    ensures others { KeepsOthers head.now.channel lives.old lives.new }
    ensures zero { is_some (live_at 0 lives.new) ≡ is_some (live_at 0 lives.old) }
{
    let Ok(_arrived) = lives.arrive(head, payload) else {
        unreachable!();
    };
}

/// What arrived in channel zero is taken, and dropped.
pub(crate) fn drop_untaken(lives: &mut Lives)
    requires live { is_some (live_at 0 lives.old) ≡ true }
    ensures passes { (size : ℕ) (earlier journal : List Item) (given taken : Marks)
        → AreLive size earlier journal given taken lives.old
        → Passes size earlier journal given taken lives.new }
    ensures others { KeepsOthers 0 lives.old lives.new }
{
    let mut buf = [0u8; PIECE];
    while let Some(_part) = lives.take(0, &mut buf) {}
}
