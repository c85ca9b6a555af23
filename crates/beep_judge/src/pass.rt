//! What a frame that has passed leaves and breaks, over the whole session
//! (RFC 3080, section 2.3.1).
ghost use Rattle.std.specs.Prelude.{◌≡◌, ◌∷◌, ◌==◌, ◌&&◌, ◌++◌, List, [], ℕ, length, true, false, Some, None, IfOk, OnOk, OnErr, IsSome, IfSome, option_map, if◌then◌else◌};
ghost use Rattle.beep_frame.specs.Frame.{is_msg, same_kind};
ghost use Rattle.beep_history.specs.Journal.{Item, passed};
ghost use Rattle.beep_mgmt.specs.Form.{form_of};
ghost use Rattle.beep_mgmt.specs.Message.{message_said};
ghost use Rattle.beep_frame.specs.declared.head.Head.{Head as HeadValue};
ghost use Rattle.beep_journal.specs.Zero.{zero_history, completes_form};
ghost use Rattle.beep_journal.specs.Broken.{broken_content};
ghost use Rattle.beep_judge.specs.declared.half.Half.{Half as HalfValue};
ghost use Rattle.beep_judge.specs.declared.half.Request.{Request as RequestValue};
ghost use Rattle.beep_judge.specs.Judges.{IsKept};

use crate::channels::Channels;
use crate::grant::{close_stamp, grant_where, has_its_form};
use crate::half::{Frame, Half, Request, push_request};
use crate::said::said;
use beep_frame::{Kind, Rule};
use beep_history::Side;
use beep_mgmt::Mgmt;
use beep_octets::NoMemory;
use std::collections::VecDeque;

/// Notes that the frame of a side that is under way has passed, with this payload, and answers the
/// rule that its content breaks.
pub(crate) fn pass(
    channels: &mut Channels,
    mine: &mut Half,
    theirs: &mut Half,
    side: Side,
    payload: &[u8],
) -> Result<Option<Rule>, NoMemory>
    requires begun { IsSome mine.old.under_way }
    requires size { IfSome mine.old.under_way (λ frame. length payload.now ≡ frame.head.size) }
    requires reached { ∥ ((journal : List Item)
        × IsKept side journal channels.old mine.old theirs.old) ∥₁ }
    ensures value { (journal : List Item) (head : HeadValue)
        → IsKept side journal channels.old mine.old theirs.old
        → option_map (λ f. f.head) mine.old.under_way ≡ Some head
        → IfOk result (λ rule. rule ≡ broken_content side journal head payload.now) }
    ensures ok { (journal : List Item) (head : HeadValue)
        → IsKept side journal channels.old mine.old theirs.old
        → option_map (λ f. f.head) mine.old.under_way ≡ Some head
        → OnOk result (IsKept side (passed side head payload.now ∷ journal)
        channels.new mine.new theirs.new) }
    ensures err { (journal : List Item) → IsKept side journal channels.old mine.old theirs.old
        → OnErr result (IsKept side journal channels.new mine.new theirs.new) }
    ensures whole { OnOk result (mine.new.under_way ≡ None) }
    ensures begun { OnErr result (mine.new.under_way ≡ mine.old.under_way) }
    ensures theirs { theirs.new.under_way ≡ theirs.old.under_way }
{
    let Some(frame) = mine.under_way else {
        unreachable!();
    };
    if frame.head.channel != 0 {
        return match pass_above(channels, mine, side, &frame) {
            Ok(()) => Ok(None),
            Err(_) => Err(NoMemory),
        };
    }
    if frame.head.more {
        return match pass_part(channels, mine, side, &frame, payload) {
            Ok(()) => Ok(None),
            Err(_) => Err(NoMemory),
        };
    }
    pass_last(channels, mine, theirs, side, &frame, payload)
}

/// Notes that the last frame of a message of channel zero has passed.
fn pass_last(
    channels: &mut Channels,
    mine: &mut Half,
    theirs: &mut Half,
    side: Side,
    frame: &Frame,
    payload: &[u8],
) -> Result<Option<Rule>, NoMemory>
    requires zero { (frame.now.head.channel == 0) ≡ true }
    requires last { frame.now.head.more ≡ false }
    requires begun { mine.old.under_way ≡ Some frame.now }
    requires reached { ∥ ((journal : List Item)
        × IsKept side journal channels.old mine.old theirs.old) ∥₁ }
    ensures value { (journal : List Item) → IsKept side journal channels.old mine.old theirs.old
        → IfOk result (λ rule. rule ≡ broken_content side journal frame.now.head payload.now) }
    ensures ok { (journal : List Item) → IsKept side journal channels.old mine.old theirs.old
        → length payload.now ≡ frame.now.head.size
        → OnOk result (IsKept side (passed side frame.now.head payload.now ∷ journal)
        channels.new mine.new theirs.new) }
    ensures err { (journal : List Item) → IsKept side journal channels.old mine.old theirs.old
        → OnErr result (IsKept side journal channels.new mine.new theirs.new) }
    ensures whole { OnOk result (mine.new.under_way ≡ None) }
    ensures begun { OnErr result (mine.new.under_way ≡ mine.old.under_way) }
    ensures theirs { theirs.new.under_way ≡ theirs.old.under_way }
{
    let said = match said(channels.alloc, &mine.text, payload) {
        Ok(said) => said,
        Err(_) => return Err(NoMemory),
    };
    if frame.head.kind.is_msg() {
        return match pass_request(channels, mine, side, frame, said) {
            Ok(()) => Ok(None),
            Err(_) => Err(NoMemory),
        };
    }
    match pass_reply(channels, mine, theirs, side, frame, &said) {
        Ok(fits) => Ok(zero_reply(fits)),
        Err(_) => Err(NoMemory),
    }
}

/// The rule of a reply that has its form, or hasn't.
fn zero_reply(fits: bool) -> Option<Rule>
    ensures { result ≡ (if fits then None else Some Rule.ZeroReply) }
{
    if fits { None } else { Some(Rule::ZeroReply) }
}

/// Notes that a frame of a channel above 0 has passed.
fn pass_above(
    channels: &mut Channels,
    mine: &mut Half,
    side: Side,
    frame: &Frame,
) -> Result<(), NoMemory>
    requires above { (frame.now.head.channel == 0) ≡ false }
    requires begun { mine.old.under_way ≡ Some frame.now }
    requires reached { ∥ ((theirs : HalfValue) × (journal : List Item)
        × IsKept side journal channels.old mine.old theirs) ∥₁ }
    ensures ok { (theirs : HalfValue) (journal : List Item) (payload : List ℕ)
        → IsKept side journal channels.old mine.old theirs
        → length payload ≡ frame.now.head.size
        → OnOk result (IsKept side (passed side frame.now.head payload ∷ journal)
        channels.new mine.new theirs) }
    ensures err { OnErr result (channels.new ≡ channels.old) }
    ensures mine { OnErr result (mine.new ≡ mine.old) }
    ensures whole { OnOk result (mine.new.under_way ≡ None) }
{
    if channels.is_current(frame.head.channel, frame.stamp) {
        if !channels.has_room(side, &frame.head) {
            return Err(NoMemory);
        }
        channels.pass(side, &frame.head);
    }
    mine.under_way = None;
    mine.heard = true;
    Ok(())
}

/// Notes that a frame of channel zero has passed that isn't the last of its message.
fn pass_part(
    channels: &mut Channels,
    mine: &mut Half,
    side: Side,
    frame: &Frame,
    payload: &[u8],
) -> Result<(), NoMemory>
    requires zero { (frame.now.head.channel == 0) ≡ true }
    requires part { frame.now.head.more ≡ true }
    requires begun { mine.old.under_way ≡ Some frame.now }
    requires reached { ∥ ((theirs : HalfValue) × (journal : List Item)
        × IsKept side journal channels.old mine.old theirs) ∥₁ }
    ensures ok { (theirs : HalfValue) (journal : List Item)
        → IsKept side journal channels.old mine.old theirs
        → length payload.now ≡ frame.now.head.size
        → OnOk result (IsKept side (passed side frame.now.head payload.now ∷ journal)
        channels.new mine.new theirs) }
    ensures err { (theirs : HalfValue) (journal : List Item)
        → IsKept side journal channels.old mine.old theirs
        → OnErr result (IsKept side journal channels.new mine.new theirs) }
    ensures whole { OnOk result (mine.new.under_way ≡ None) }
    ensures begun { OnErr result (mine.new.under_way ≡ mine.old.under_way) }
{
    if !channels.has_room(side, &frame.head) {
        return Err(NoMemory);
    }
    mine.gather(payload)?;
    channels.pass(side, &frame.head);
    mine.under_way = None;
    mine.heard = true;
    Ok(())
}

/// Notes that the last frame of a request of channel zero has passed, which says this.
fn pass_request(
    channels: &mut Channels,
    mine: &mut Half,
    side: Side,
    frame: &Frame,
    said: Option<Mgmt>,
) -> Result<(), NoMemory>
    requires zero { (frame.now.head.channel == 0) ≡ true }
    requires last { frame.now.head.more ≡ false }
    requires request { is_msg frame.now.head.kind ≡ true }
    requires begun { mine.old.under_way ≡ Some frame.now }
    requires reached { ∥ ((theirs : HalfValue) × (journal : List Item)
        × IsKept side journal channels.old mine.old theirs) ∥₁ }
    ensures ok { (theirs : HalfValue) (journal : List Item) (payload : List ℕ)
        → IsKept side journal channels.old mine.old theirs
        → length payload ≡ frame.now.head.size
        → option_map form_of said ≡ message_said (mine.old.text.octets ++ payload)
        → OnOk result (IsKept side (passed side frame.now.head payload ∷ journal)
        channels.new mine.new theirs) }
    ensures err { (theirs : HalfValue) (journal : List Item)
        → IsKept side journal channels.old mine.old theirs
        → OnErr result (IsKept side journal channels.new mine.new theirs) }
    ensures whole { OnOk result (mine.new.under_way ≡ None) }
    ensures begun { OnErr result (mine.new.under_way ≡ mine.old.under_way) }
{
    if !channels.has_room(side, &frame.head) {
        return Err(NoMemory);
    }
    let stamp = close_stamp(channels, &said);
    let request = Request {
        said,
        implied: false,
        stamp,
    };
    push_request(&mut mine.asked, request)?;
    channels.pass(side, &frame.head);
    finish(mine);
    Ok(())
}

/// Notes that the last frame of a reply of channel zero has passed, which says this, and answers
/// whether it has its form.
fn pass_reply(
    channels: &mut Channels,
    mine: &mut Half,
    theirs: &mut Half,
    side: Side,
    frame: &Frame,
    said: &Option<Mgmt>,
) -> Result<bool, NoMemory>
    requires zero { (frame.now.head.channel == 0) ≡ true }
    requires last { frame.now.head.more ≡ false }
    requires reply { is_msg frame.now.head.kind ≡ false }
    requires begun { mine.old.under_way ≡ Some frame.now }
    requires reached { ∥ ((journal : List Item)
        × IsKept side journal channels.old mine.old theirs.old) ∥₁ }
    ensures value { (journal : List Item) (payload : List ℕ)
        → IsKept side journal channels.old mine.old theirs.old
        → option_map form_of said.now ≡ message_said (mine.old.text.octets ++ payload)
        → IfOk result
        (λ fits. fits ≡ completes_form side frame.now.head payload (zero_history journal)) }
    ensures ok { (journal : List Item) (payload : List ℕ)
        → IsKept side journal channels.old mine.old theirs.old
        → length payload ≡ frame.now.head.size
        → option_map form_of said.now ≡ message_said (mine.old.text.octets ++ payload)
        → OnOk result (IsKept side (passed side frame.now.head payload ∷ journal)
        channels.new mine.new theirs.new) }
    ensures err { (journal : List Item) → IsKept side journal channels.old mine.old theirs.old
        → OnErr result (IsKept side journal channels.new mine.new theirs.new) }
    ensures whole { OnOk result (mine.new.under_way ≡ None) }
    ensures begun { OnErr result (mine.new.under_way ≡ mine.old.under_way) }
    ensures theirs { theirs.new.under_way ≡ theirs.old.under_way }
{
    if !channels.has_room(side, &frame.head) {
        return Err(NoMemory);
    }
    let fits = has_its_form(theirs, frame.head.kind, said);
    match grant_where(channels, theirs, grants(frame.head.kind, fits)) {
        Ok(()) => {}
        Err(_) => return Err(NoMemory),
    }
    channels.pass(side, &frame.head);
    finish(mine);
    drop_oldest(&mut theirs.asked);
    Ok(fits)
}

/// Whether a reply of this kind, with its form or without, is a positive one.
fn grants(kind: Kind, fits: bool) -> bool
    ensures { result ≡ (same_kind Kind.Rpy kind && fits) }
{
    Kind::Rpy.is_same(kind) && fits
}

/// The oldest request waits no more.
fn drop_oldest(asked: &mut VecDeque<Request>)
    ensures { (later : List RequestValue) (request : RequestValue)
        → asked.old.items ≡ later ++ request ∷ [] → asked.new.items ≡ later }
{
    let _answered = asked.pop_back();
}

/// No frame of the side is under way, nor a message of channel zero.
fn finish(mine: &mut Half)
    ensures under_way { mine.new.under_way ≡ None }
    ensures heard { mine.new.heard ≡ true }
    ensures text { mine.new.text.octets ≡ [] }
    ensures asked { mine.new.asked ≡ mine.old.asked }
{
    mine.text.clear();
    mine.under_way = None;
    mine.heard = true;
}
