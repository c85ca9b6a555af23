//! What octets of a side make of a session, step by step.
ghost use Rattle.std.specs.Prelude.{◌≡◌, ℕ, ◌+◌, ◌<◌, ◌≤◌, true, List, [], ◌∷◌, ◌++◌, length, take, None, Some, Ok, IfOk, OnOk, OnErr};
ghost use Rattle.beep_frame.specs.Frame.{Frame, framed};
ghost use Rattle.beep_frame.specs.declared.head.Head.{Head as header_type};
ghost use Rattle.beep_frame.specs.Decoding.{WasFed};
ghost use Rattle.beep_frame.specs.Fed.{fed_of};
ghost use Rattle.beep_history.specs.Journal.{Item, began, passed, told, other};
ghost use Rattle.beep_journal.specs.Broken.{none_tunes, broken_head, broken_seq, broken_content};
ghost use Rattle.beep_journal.specs.Journal.{Past};
ghost use Rattle.beep_journal.specs.Texts.{line_of};
ghost use Rattle.beep_judge.specs.Judges.{Judges};
ghost use Rattle.beep_judge.specs.Kept.{under_way_of};
ghost use Rattle.beep_record.specs.declared.verdict.Verdict.{Verdict as verdict_type};
ghost use Rattle.beep_record.specs.Verdicts.{verdict_by};
ghost use Rattle.beep_record.specs.Following.{IsSide, Moved, counts, counted, HasFrame, IsHeld};

use crate::lines::{put_frame_line, put_seq_line};
use crate::verdict::{Verdict, verdict_by};
use crate::wire::Wire;
use beep_frame::{Head, Rule, Seq, Step};
use beep_history::Side;
use beep_judge::Judge;
use beep_octets::{NoMemory, Octets};

/// Takes octets of a side up to the next step, and answers how many, and the verdict after them.
pub(crate) fn take(
    wire: &mut Wire,
    judge: &mut Judge,
    side: Side,
    octets: &[u8],
    out: &mut Octets,
) -> Result<(usize, Verdict), NoMemory>
    requires held { IsHeld side wire.old (under_way_of side judge.old) (Judges judge.old) }
    requires some { 0 < length octets.now }
    ensures within { IfOk result (λ taken. taken.0 ≤ length octets.now) }
    ensures progress { IfOk result (λ taken. 0 < taken.0) }
    ensures moved { (past : Past) → IsSide side wire.old (under_way_of side judge.old) past
        → Judges judge.old past.journal → counts side past ≡ true
        → IfOk result (λ taken. Moved side (take taken.0 octets.now) past taken.1 wire.new
        (under_way_of side judge.new)
        (Judges judge.new) out.old.octets out.new.octets) }
    ensures others { OnOk result (under_way_of (other side) judge.new
        ≡ under_way_of (other side) judge.old) }
    ensures err { OnErr result (out.new.octets ≡ out.old.octets) }
{
    let (count, step) = wire.feed(octets);
    let place = wire.used.wrapping_sub(1);
    match step {
        Step::More => Ok((count, Verdict::Fine)),
        Step::Head(head) => Ok((count, begin(judge, side, &head, place))),
        Step::Frame => {
            let verdict = pass(wire, judge, side, place, out)?;
            Ok((count, verdict))
        }
        Step::Seq(seq) => {
            let verdict = tell(wire, judge, side, &seq, place, out)?;
            Ok((count, verdict))
        }
        Step::Broken(rule, at) => Ok((count, verdict_by(side, Some(rule), at))),
    }
}

/// A header ends at this place.
fn begin(judge: &mut Judge, side: Side, head: &Head, place: u64) -> Verdict
    requires idle { under_way_of side judge.old ≡ None }
    ensures value { (journal : List Item) → Judges judge.old journal
        → result ≡ verdict_by side (broken_head none_tunes side journal head.now) place }
    ensures fine { result ≡ verdict_type.Fine → (journal : List Item) → Judges judge.old journal
        → Judges judge.new (began side head.now ∷ journal) }
    ensures begun { result ≡ verdict_type.Fine → under_way_of side judge.new ≡ Some head.now }
    ensures others { under_way_of (other side) judge.new ≡ under_way_of (other side) judge.old }
{
    match judge.begin(side, head) {
        Some(rule) => verdict_by(side, Some(rule), place),
        None => Verdict::Fine,
    }
}

/// The frame whose header was answered last ends at this place.
fn pass(
    wire: &mut Wire,
    judge: &mut Judge,
    side: Side,
    place: u64,
    out: &mut Octets,
) -> Result<Verdict, NoMemory>
    requires whole { wire.old.decoder.whole ≡ true }
    requires begun { HasFrame wire.old (under_way_of side judge.old) }
    ensures value { (journal : List Item) (octets : List ℕ) (frames : List Frame)
        (head : header_type) (payload : List ℕ)
        → Judges judge.old journal → under_way_of side judge.old ≡ Some head
        → WasFed wire.old.decoder (fed_of octets (frames ++ framed head payload ∷ []) [] None)
        → IfOk result (λ verdict.
        verdict ≡ verdict_by side (broken_content side journal head payload) place) }
    ensures ok { (journal : List Item) (octets : List ℕ) (frames : List Frame)
        (head : header_type) (payload : List ℕ)
        → Judges judge.old journal → under_way_of side judge.old ≡ Some head
        → WasFed wire.old.decoder (fed_of octets (frames ++ framed head payload ∷ []) [] None)
        → OnOk result (Judges judge.new (passed side head payload ∷ journal)) }
    ensures line { (octets : List ℕ) (frames : List Frame) (head : header_type) (payload : List ℕ)
        → WasFed wire.old.decoder (fed_of octets (frames ++ framed head payload ∷ []) [] None)
        → OnOk result (out.new.octets ≡ out.old.octets ++ line_of (passed side head payload)) }
    ensures over { OnOk result (under_way_of side judge.new ≡ None) }
    ensures counted { OnOk result (wire.new
        ≡ record wire.old { frames = counted (wire.old.frames + 1) }) }
    ensures others { OnOk result (under_way_of (other side) judge.new
        ≡ under_way_of (other side) judge.old) }
    ensures err { OnErr result (out.new.octets ≡ out.old.octets) }
{
    let frame = wire.decoder.frame();
    let head = frame.head;
    let rule = judge.pass(side, frame.payload)?;
    put_frame_line(side, &head, out)?;
    wire.frames = wire.frames.wrapping_add(1);
    Ok(verdict_by(side, rule, place))
}

/// A SEQ ends at this place.
fn tell(
    wire: &mut Wire,
    judge: &mut Judge,
    side: Side,
    seq: &Seq,
    place: u64,
    out: &mut Octets,
) -> Result<Verdict, NoMemory>
    ensures value { (journal : List Item) → Judges judge.old journal
        → IfOk result (λ verdict.
        verdict ≡ verdict_by side (broken_seq side journal seq.now) place) }
    ensures fine { result ≡ Ok verdict_type.Fine → (journal : List Item) → Judges judge.old journal
        → Judges judge.new (told side seq.now ∷ journal) }
    ensures line { result ≡ Ok verdict_type.Fine
        → out.new.octets ≡ out.old.octets ++ line_of (told side seq.now) }
    ensures counted { result ≡ Ok verdict_type.Fine
        → wire.new ≡ record wire.old { frames = counted (wire.old.frames + 1) } }
    ensures broken { IfOk result (λ verdict.
        (verdict ≡ verdict_type.Fine → ⊥) → out.new.octets ≡ out.old.octets) }
    ensures under_way { under_way_of side judge.new ≡ under_way_of side judge.old }
    ensures others { under_way_of (other side) judge.new ≡ under_way_of (other side) judge.old }
    ensures err { OnErr result (out.new.octets ≡ out.old.octets) }
{
    match judge.seq(side, seq) {
        Some(rule) => Ok(verdict_by(side, Some(rule), place)),
        None => {
            put_seq_line(side, seq, out)?;
            wire.frames = wire.frames.wrapping_add(1);
            Ok(Verdict::Fine)
        }
    }
}
