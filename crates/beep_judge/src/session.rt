//! What is kept of a session: the channels and both sides.
ghost use Rattle.std.specs.Prelude.{◌≡◌, ◌∷◌, [], List, None, Some, IfOk, OnOk, OnErr, IfSome};
ghost use Rattle.beep_frame.specs.declared.head.Head.{Head as HeadValue};
ghost use Rattle.beep_history.specs.Journal.{Item, began, passed, told, other};
ghost use Rattle.beep_history.specs.Broken.{under_way};
ghost use Rattle.beep_journal.specs.Broken.{none_tunes, broken_head, broken_seq, broken_content};
ghost use Rattle.beep_judge.specs.Kept.{under_way_of, IsWhole};
ghost use Rattle.beep_judge.specs.Judges.{Judges};

use crate::begin::begin;
use crate::channels::Channels;
use crate::half::Half;
use crate::pass::pass;
use crate::seq::note_seq;
use beep_frame::{Head, Rule, Seq};
use beep_history::Side;
use beep_octets::NoMemory;
use std::alloc::Global;

/// The channels of a session and its two sides.
#[derive(Drop)]
pub(crate) struct Session {
    pub(crate) channels: Channels,
    pub(crate) received: Half,
    pub(crate) sent: Half,
}

impl Session {
    /// A session in which nothing has happened.
    pub(crate) fn new(alloc: Global) -> Result<Session, NoMemory>
        ensures stands { IfOk result (λ session. Judges session []) }
        ensures received { IfOk result (λ session. session.received.under_way ≡ None) }
        ensures sent { IfOk result (λ session. session.sent.under_way ≡ None) }
    {
        let channels = Channels::new(alloc)?;
        let received = Half::new(alloc)?;
        let sent = Half::new(alloc)?;
        Ok(Session {
            channels,
            received,
            sent,
        })
    }
}

/// The header of a side that is under way.
pub(crate) fn under_way_in(session: &Session, side: Side) -> Option<Head>
    ensures value { result ≡ under_way_of side session.now }
    ensures stands { (journal : List Item) → Judges session.now journal
        → result ≡ under_way side journal }
{
    let frame = match side {
        Side::Received => session.received.under_way,
        Side::Sent => session.sent.under_way,
    };
    match frame {
        Some(frame) => Some(frame.head),
        None => None,
    }
}

/// Notes a header, or answers the first rule that it breaks and changes nothing.
pub(crate) fn begin_in(session: &mut Session, side: Side, head: &Head) -> Option<Rule>
    requires whole { under_way_of side session.old ≡ None }
    requires reached { ∥ ((journal : List Item) × Judges session.old journal) ∥₁ }
    ensures value { (journal : List Item) → Judges session.old journal
        → result ≡ broken_head none_tunes side journal head.now }
    ensures none { result ≡ None → (journal : List Item) → Judges session.old journal
        → Judges session.new (began side head.now ∷ journal) }
    ensures some { IfSome result (λ _. session.new ≡ session.old) }
    ensures begun { result ≡ None → under_way_of side session.new ≡ Some head.now }
    ensures others { under_way_of (other side) session.new ≡ under_way_of (other side) session.old }
{
    match side {
        Side::Received => begin(
            &mut session.channels,
            &mut session.received,
            Side::Received,
            head,
        ),
        Side::Sent => begin(&mut session.channels, &mut session.sent, Side::Sent, head),
    }
}

/// Notes that the frame of a side that is under way has passed.
pub(crate) fn pass_in(
    session: &mut Session,
    side: Side,
    payload: &[u8],
) -> Result<Option<Rule>, NoMemory>
    requires whole { IsWhole side session.old payload.now }
    requires reached { ∥ ((journal : List Item) × Judges session.old journal) ∥₁ }
    ensures value { (journal : List Item) (head : HeadValue) → Judges session.old journal
        → under_way_of side session.old ≡ Some head
        → IfOk result (λ rule. rule ≡ broken_content side journal head payload.now) }
    ensures ok { (journal : List Item) (head : HeadValue) → Judges session.old journal
        → under_way_of side session.old ≡ Some head
        → OnOk result (Judges session.new (passed side head payload.now ∷ journal)) }
    ensures err { (journal : List Item) → Judges session.old journal
        → OnErr result (Judges session.new journal) }
    ensures whole { OnOk result (under_way_of side session.new ≡ None) }
    ensures begun { OnErr result (under_way_of side session.new ≡ under_way_of side session.old) }
    ensures others { under_way_of (other side) session.new ≡ under_way_of (other side) session.old }
{
    match side {
        Side::Received => pass(
            &mut session.channels,
            &mut session.received,
            &mut session.sent,
            Side::Received,
            payload,
        ),
        Side::Sent => pass(
            &mut session.channels,
            &mut session.sent,
            &mut session.received,
            Side::Sent,
            payload,
        ),
    }
}

/// Notes a SEQ, or answers the rule that it breaks and changes nothing.
pub(crate) fn seq_in(session: &mut Session, side: Side, seq: &Seq) -> Option<Rule>
    ensures value { (journal : List Item) → Judges session.old journal
        → result ≡ broken_seq side journal seq.now }
    ensures none { result ≡ None → (journal : List Item) → Judges session.old journal
        → Judges session.new (told side seq.now ∷ journal) }
    ensures some { IfSome result (λ _. session.new ≡ session.old) }
    ensures under_way { (by : Side) → under_way_of by session.new ≡ under_way_of by session.old }
{
    note_seq(&mut session.channels, side, seq)
}
