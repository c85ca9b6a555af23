//! The windows of one life by plain look-back over its history, the latest item first (RFC 3081,
//! section 3.1).
//!
//! No session runs this: it is the definitions in code, slow, so that they can be tried on
//! examples.
ghost use Rattle.std.specs.Prelude.{◌≡◌, ◌+◌, ◌*◌, ◌≤◌, length};
ghost use Rattle.beep_octets.specs.Numbers.{numbers_32};
ghost use Rattle.beep_history.specs.Journal.{history_of};
ghost use Rattle.beep_history.specs.Marks.{passed_octets};
ghost use Rattle.beep_history.specs.Windows.{acked_octets, last_window, greatest_edge, window_edge};

use crate::journal::{JournalItem, Side};
use beep_seq::{INITIAL_WINDOW, count_from};

/// The octets of the frames of this side that have passed.
pub fn octets_passed(side: Side, past: &[JournalItem]) -> u128
    ensures value { result ≡ passed_octets side (history_of past.now) }
    ensures within { result ≤ length past.now * numbers_32 }
{
    match past {
        [] => 0,
        [JournalItem::Passed(by, head, _), before @ ..] => {
            let octets = octets_passed(side, before);
            if by.is_same(side) {
                u128::from(head.size) + octets
            } else {
                octets
            }
        }
        [JournalItem::Began(..) | JournalItem::Told(..), before @ ..] => octets_passed(
            side, before,
        ),
    }
}

/// The greatest count of octets up to which this side was allowed to send.
pub fn edge(side: Side, past: &[JournalItem]) -> u128
    ensures value { result ≡ greatest_edge side (history_of past.now) }
    ensures within { result ≤ length past.now * numbers_32 + numbers_32 }
{
    match past {
        [] => u128::from(INITIAL_WINDOW),
        [JournalItem::Told(by, seq), before @ ..] => {
            let edge = edge(side, before);
            if by.is_same(side.other()) {
                edge.max(octets_passed(side, before) + u128::from(seq.window))
            } else {
                edge
            }
        }
        [
            JournalItem::Began(..) | JournalItem::Passed(..),
            before @ ..,
        ] => edge(side, before),
    }
}

/// The octets of this side that the SEQs of the other have acknowledged.
pub fn octets_acked(side: Side, past: &[JournalItem]) -> u128
    ensures value { result ≡ acked_octets side (history_of past.now) }
    ensures within { result ≤ length past.now * numbers_32 }
{
    match past {
        [] => 0,
        [JournalItem::Told(by, seq), before @ ..] => {
            let acked = octets_acked(side, before);
            if by.is_same(side.other()) {
                count_from(acked, seq.ackno)
            } else {
                acked
            }
        }
        [
            JournalItem::Began(..) | JournalItem::Passed(..),
            before @ ..,
        ] => octets_acked(side, before),
    }
}

/// The window of the last SEQ of the other side.
pub fn window_of_last_seq(side: Side, past: &[JournalItem]) -> u32
    ensures { result ≡ last_window side (history_of past.now) }
{
    match past {
        [] => INITIAL_WINDOW,
        [JournalItem::Told(by, seq), before @ ..] => {
            if by.is_same(side.other()) {
                seq.window
            } else {
                window_of_last_seq(side, before)
            }
        }
        [
            JournalItem::Began(..) | JournalItem::Passed(..),
            before @ ..,
        ] => window_of_last_seq(side, before),
    }
}

/// The count of octets up to which a frame of this side may go.
pub fn edge_of_window(side: Side, past: &[JournalItem]) -> u128
    ensures { result ≡ window_edge side (history_of past.now) }
{
    match side {
        Side::Received => edge(side, past),
        Side::Sent => {
            let passed = octets_passed(side, past);
            let end = octets_acked(side, past) + u128::from(window_of_last_seq(side, past));
            passed + end.saturating_sub(passed)
        }
    }
}
