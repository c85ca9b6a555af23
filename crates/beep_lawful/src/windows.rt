//! The windows of one life by plain look-back over its history (RFC 3081, section 3.1).
//!
//! No session runs this: it is the definitions in code, slow, so that they can be tried on
//! examples.
ghost use Rattle.std.specs.Prelude.{◌≡◌, ◌+◌, ◌*◌, ◌≤◌, length};
ghost use Rattle.beep_octets.specs.Numbers.{numbers_32};
ghost use Rattle.beep_history.specs.declared.journal.Side.{Side};
ghost use Rattle.beep_history.specs.Journal.{history_of};
ghost use Rattle.beep_history.specs.Windows.{last_window, open_now, greatest_edge};

use beep_history::{JournalItem, Side, octets_acked, octets_passed};
use beep_seq::INITIAL_WINDOW;

/// The greatest count of octets up to which the peer was ever allowed to send.
pub fn advertised_edge(past: &[JournalItem]) -> u128
    ensures value { result ≡ greatest_edge Side.Received (history_of past.now) }
    ensures within { result ≤ length past.now * numbers_32 + numbers_32 }
{
    match past {
        [] => u128::from(INITIAL_WINDOW),
        [JournalItem::Told(Side::Sent, seq), before @ ..] => advertised_edge(before).max(
            octets_passed(Side::Received, before) + u128::from(seq.window),
        ),
        [
            JournalItem::Began(..) | JournalItem::Passed(..) | JournalItem::Told(Side::Received, _),
            before @ ..,
        ] => advertised_edge(before),
    }
}

/// The window of the last SEQ of the peer.
fn window_advertised(past: &[JournalItem]) -> u32
    ensures { result ≡ last_window Side.Sent (history_of past.now) }
{
    match past {
        [] => INITIAL_WINDOW,
        [JournalItem::Told(Side::Received, seq), ..] => seq.window,
        [
            JournalItem::Began(..) | JournalItem::Passed(..) | JournalItem::Told(Side::Sent, _),
            before @ ..,
        ] => window_advertised(before),
    }
}

/// The octets that the peer left open.
pub fn octets_open(past: &[JournalItem]) -> u128
    ensures { result ≡ open_now Side.Sent (history_of past.now) }
{
    let end = octets_acked(Side::Sent, past) + u128::from(window_advertised(past));
    end.saturating_sub(octets_passed(Side::Sent, past))
}
