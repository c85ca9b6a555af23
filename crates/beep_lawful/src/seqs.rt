//! What a SEQ breaks that goes out, by plain tests on a journal (RFC 3081, section 3.1).
//!
//! No session runs this: it is the definitions in code, slow, so that they can be tried on
//! examples.
ghost use Rattle.std.specs.Prelude.{◌≡◌, ◌*◌, ◌≤◌, IfOk};
ghost use Rattle.beep_octets.specs.Numbers.{numbers_128};
ghost use Rattle.beep_history.specs.declared.journal.Side.{Side};
ghost use Rattle.beep_history.specs.Journal.{history_of};
ghost use Rattle.beep_history.specs.Windows.{greatest_edge};
ghost use Rattle.beep_seq.specs.Due.{is_seq_due};
ghost use Rattle.beep_journal.specs.Plain.{tunes_of};
ghost use Rattle.beep_lawful.specs.Lawful.{is_called_for, is_right_seq, breaks_seq_rule, breaks_seq_not_due, unlawful_seq};

use crate::breach::Breach;
use crate::heads::{breaks_after_end, is_apart};
use crate::terms::Terms;
use crate::tuning::{is_tuning, tunes_next};
use crate::windows::advertised_edge;
use beep_decide::is_greeted;
use beep_frame::Seq;
use beep_history::{JournalItem, Side, octets_passed};
use beep_journal::{StartPlace, broken_seq, history, is_there};
use beep_octets::NoMemory;
use beep_seq::wire_number;
use std::alloc::Global;

/// Whether a SEQ opens at least half a window of this size, where so many octets were taken.
pub fn opens_half(size: u32, taken: u128, past: &[JournalItem]) -> bool
    requires within { 4 * taken ≤ numbers_128 }
    ensures { result ≡ is_seq_due size taken (greatest_edge Side.Received (history_of past.now)) }
{
    let gain = (taken + u128::from(size)).saturating_sub(advertised_edge(past));
    u128::from(size) <= 2 * gain
}

/// Whether a SEQ may go out: one is due, or it is the full one before an own tuning start.
fn is_called_for(
    alloc: Global,
    terms: &Terms,
    tuning: &[StartPlace],
    journal: &[JournalItem],
    past: &[JournalItem],
    seq: &Seq,
) -> Result<bool, NoMemory>
    ensures { IfOk result (λ is. is ≡ is_called_for terms.now (tunes_of tuning.now)
        (history_of journal.now) (history_of past.now) seq.now) }
{
    let edge = octets_passed(Side::Received, past) + u128::from(seq.window);
    let taken = edge.saturating_sub(u128::from(terms.window));
    if is_greeted(alloc, journal)? && opens_half(terms.window, taken, past) {
        return Ok(true);
    }
    Ok(seq.channel == 0 && seq.window == terms.window && tunes_next(alloc, tuning, journal)?)
}

/// Whether a SEQ says what is so, and is called for.
fn is_right_seq(
    alloc: Global,
    terms: &Terms,
    tuning: &[StartPlace],
    journal: &[JournalItem],
    past: &[JournalItem],
    seq: &Seq,
) -> Result<bool, NoMemory>
    ensures { IfOk result (λ is. is ≡ is_right_seq terms.now (tunes_of tuning.now)
        (history_of journal.now) (history_of past.now) seq.now) }
{
    let received = octets_passed(Side::Received, past);
    let edge = received + u128::from(seq.window);
    let says = seq.ackno == wire_number(received)
        && u128::from(terms.window) <= edge
        && seq.window <= terms.window
        && advertised_edge(past) <= edge;
    Ok(says && is_called_for(alloc, terms, tuning, journal, past, seq)?)
}

/// Whether the peer would find a bad acknowledgement.
fn breaks_seq_rule(alloc: Global, journal: &[JournalItem], seq: &Seq) -> Result<bool, NoMemory>
    ensures { IfOk result (λ breaks. breaks ≡ breaks_seq_rule (history_of journal.now) seq.now) }
{
    Ok(broken_seq(alloc, Side::Sent, journal, seq)?.is_some())
}

/// Whether the SEQ of a channel that is there says what isn't so, or isn't called for.
fn breaks_seq_not_due(
    alloc: Global,
    terms: &Terms,
    tuning: &[StartPlace],
    journal: &[JournalItem],
    seq: &Seq,
) -> Result<bool, NoMemory>
    ensures { IfOk result (λ breaks. breaks ≡ breaks_seq_not_due terms.now (tunes_of tuning.now)
        (history_of journal.now) seq.now) }
{
    if !is_there(alloc, seq.channel, journal)? {
        return Ok(false);
    }
    let past = history(alloc, seq.channel, journal)?;
    Ok(!is_right_seq(alloc, terms, tuning, journal, &past, seq)?)
}

/// What a SEQ breaks that goes out.
#[tactic(auto, unfolding(crate::specs::Lawful::unlawful_seq))]
pub fn unlawful_seq(
    alloc: Global,
    terms: &Terms,
    tuning: &[StartPlace],
    journal: &[JournalItem],
    seq: &Seq,
) -> Result<Option<Breach>, NoMemory>
    ensures { IfOk result (λ breach. breach ≡ unlawful_seq terms.now (tunes_of tuning.now)
        (history_of journal.now) seq.now) }
{
    Ok(if is_apart(journal) {
        Some(Breach::Apart)
    } else if breaks_seq_rule(alloc, journal, seq)? {
        Some(Breach::Rule)
    } else if breaks_seq_not_due(alloc, terms, tuning, journal, seq)? {
        Some(Breach::SeqNotDue)
    } else if is_tuning(alloc, tuning, journal)? {
        Some(Breach::BesideTuning)
    } else if breaks_after_end(alloc, tuning, journal)? {
        Some(Breach::AfterEnd)
    } else if !is_there(alloc, seq.channel, journal)? {
        Some(Breach::SeqOfNoLife)
    } else {
        None
    })
}
