//! The frame or SEQ that goes out next.
ghost use Rattle.std.specs.Prelude.{◌≡◌, ◌+◌, ◌<◌, ◌≤◌, true, false, length, IfSome, IfNone};
ghost use Rattle.std.specs.List.{list_any};
ghost use Rattle.beep_standing.specs.beep_octets.specs.Held.{KeepsRoom};
ghost use Rattle.beep_standing.specs.beep_frame.specs.declared.spelling.TheConstants.{SPELL_ROOM, SEQ_ROOM};
ghost use Rattle.beep_standing.specs.beep_lives.specs.Lives.{can_send};
ghost use Rattle.beep_speaking.specs.Emits.{TellsNext, SendsNext, NoSeq, Emits, IsReached};

use beep_standing::beep_frame::{Head, SEQ_ROOM, SPELL_ROOM, Seq, spell, spell_seq};
use beep_standing::beep_lives::Lives;
use beep_standing::beep_octets::Octets;

/// What went out.
#[derive(Clone, Copy, Debug)]
pub enum Emit {
    /// A frame with this header.
    Data(Head),
    /// This SEQ, which advertises a window.
    Seq(Seq),
    /// `out` has what it had: no frame can go, and no SEQ may.
    Nothing,
}

/// Appends to `out` what goes next: a due SEQ, where `greeted` says that the own greeting has
/// wholly gone, and else a frame of at most `most` octets of payload. Of several channels the
/// lowest goes first. It takes no memory: `scratch` has room for the payload.
pub fn emit_next(
    lives: &mut Lives,
    scratch: &mut Octets,
    greeted: bool,
    most: u32,
    out: &mut Octets,
) -> Emit
    requires least { 0 < most }
    requires room { most + SPELL_ROOM ≤ out.old.spare }
    requires scratch { most ≤ length scratch.old.octets + scratch.old.spare }
    requires reached { IsReached lives.old }
    ensures emits { Emits most greeted result lives.old lives.new out.old.octets out.new.octets }
    ensures kept { KeepsRoom scratch.old scratch.new }
{
    if let Some(seq) = tell_next(lives, greeted, out) {
        return Emit::Seq(seq);
    }
    match send_next(lives, scratch, most, out) {
        Some(head) => Emit::Data(head),
        None => Emit::Nothing,
    }
}

/// Appends the SEQ that goes next, where SEQs may go and one is due.
fn tell_next(lives: &mut Lives, greeted: bool, out: &mut Octets) -> Option<Seq>
    requires room { SEQ_ROOM ≤ out.old.spare }
    ensures some { IfSome result (λ seq. (greeted ≡ true)
        × TellsNext seq lives.old lives.new out.old.octets out.new.octets) }
    ensures none { IfNone result (NoSeq greeted lives.old) }
    ensures kept { IfNone result ((lives.new ≡ lives.old) × (out.new ≡ out.old)) }
{
    if !greeted {
        return None;
    }
    let Some(seq) = lives.tell() else { return None };
    spell_seq(&seq, out);
    Some(seq)
}

/// Appends the frame that goes next, where a channel is ready.
fn send_next(lives: &mut Lives, scratch: &mut Octets, most: u32, out: &mut Octets) -> Option<Head>
    requires least { 0 < most }
    requires room { most + SPELL_ROOM ≤ out.old.spare }
    requires scratch { most ≤ length scratch.old.octets + scratch.old.spare }
    requires reached { IsReached lives.old }
    ensures some { IfSome result (λ head.
        SendsNext most head lives.old lives.new out.old.octets out.new.octets) }
    ensures none { IfNone result (list_any can_send lives.old ≡ false) }
    ensures kept { IfNone result ((lives.new ≡ lives.old) × (out.new ≡ out.old)) }
    ensures scratch { KeepsRoom scratch.old scratch.new }
{
    scratch.clear();
    let Some(head) = lives.cut(most, scratch) else {
        return None
    };
    spell(&head, scratch.as_slice(), out);
    Some(head)
}
