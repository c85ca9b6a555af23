//! What an end may send, and what is due.

use crate::story::{Frame, Story};
use crate::text::{first_word, seq_of, side_of};
use beep_history::{JournalItem, Side};
use beep_journal::{Role, StartPlace};
use beep_lawful::{Breach, Terms, due, is_lawful, open_octets, unlawful_item};
use beep_octets::Octets;
use beep_seq::MIN_WINDOW;
use case_lines::{Bad, Fields, put_number, put_word, put_yes};
use std::alloc::Global;

/// The most octets of payload in one frame that these ends send.
const PIECE: u32 = 1024;

/// An end, which start is tuning, what has happened, which is lawful, and what goes out next: what
/// it breaks.
pub(crate) fn lawful(alloc: Global, fields: &mut Fields<'_>, out: &mut Octets) -> Result<(), Bad> {
    let terms = terms_of(fields.next()?)?;
    let tuning = fields.next()?;
    let past = fields.next()?;
    let next = fields.next()?;
    let mut story = Story::new(alloc, false);
    story.play(past)?;
    match tuning {
        "own" => put_breach(&mut story, &terms, &[StartPlace(Side::Sent, 1)], next, out),
        "peer" => put_breach(
            &mut story,
            &terms,
            &[StartPlace(Side::Received, 1)],
            next,
            out,
        ),
        _ => put_breach(&mut story, &terms, &[], next, out),
    }
}

/// A listener or an initiator with the least window and small frames, and a listener with a window
/// of twice the size.
fn terms_of(word: &str) -> Result<Terms, Bad> {
    match word {
        "listener" => Ok(terms(Role::Listener, MIN_WINDOW)),
        "initiator" => Ok(terms(Role::Initiator, MIN_WINDOW)),
        "wide" => Ok(terms(Role::Listener, 2 * MIN_WINDOW)),
        _ => Err(Bad::Field),
    }
}

fn terms(role: Role, window: u32) -> Terms {
    Terms {
        role,
        window,
        piece: PIECE,
    }
}

fn put_breach(
    story: &mut Story,
    terms: &Terms,
    tuning: &[StartPlace],
    next: &str,
    out: &mut Octets,
) -> Result<(), Bad> {
    if !is_lawful(story.alloc(), terms, tuning, story.items.as_slice())? {
        put_word("unlawful before:", out)?;
    }
    match breach(story, terms, tuning, next)? {
        Some(breach) => put_name(breach, out),
        None => put_none(out),
    }
}

fn put_name(breach: Breach, out: &mut Octets) -> Result<(), Bad> {
    let name = format!(in out.alloc(); "{breach:?}")?;
    put_word(name.as_str(), out)?;
    Ok(())
}

fn put_none(out: &mut Octets) -> Result<(), Bad> {
    put_word("none", out)?;
    Ok(())
}

/// What a text breaks that comes next: a SEQ, or a header and then its frame.
fn breach(
    story: &mut Story,
    terms: &Terms,
    tuning: &[StartPlace],
    text: &str,
) -> Result<Option<Breach>, Bad> {
    let (word, rest) = first_word(text);
    let side = side_of(word)?;
    if let Some(seq) = rest.strip_prefix("SEQ ") {
        return tried(story, terms, tuning, &JournalItem::Told(side, seq_of(seq)?));
    }
    if rest == "ends" {
        let frame = story.take_begun(side)?;
        return tried_whole(story, terms, tuning, side, frame);
    }
    let frame = story.frame(side, rest)?;
    let found = tried(story, terms, tuning, &JournalItem::Began(side, frame.head))?;
    if found.is_some() {
        return Ok(found);
    }
    story.begin(side, frame.head)?;
    tried_whole(story, terms, tuning, side, frame)
}

fn tried_whole(
    story: &Story,
    terms: &Terms,
    tuning: &[StartPlace],
    side: Side,
    frame: Frame,
) -> Result<Option<Breach>, Bad> {
    let Frame { head, payload } = frame;
    tried(
        story,
        terms,
        tuning,
        &JournalItem::Passed(side, head, payload),
    )
}

fn tried(
    story: &Story,
    terms: &Terms,
    tuning: &[StartPlace],
    item: &JournalItem,
) -> Result<Option<Breach>, Bad> {
    let items = story.items.as_slice();
    Ok(unlawful_item(story.alloc(), terms, tuning, items, item)?)
}

/// An end, and a whole session: whether it is lawful.
pub(crate) fn whole(alloc: Global, fields: &mut Fields<'_>, out: &mut Octets) -> Result<(), Bad> {
    let terms = terms_of(fields.next()?)?;
    let mut story = Story::new(alloc, false);
    story.play(fields.next()?)?;
    put_yes(is_lawful(alloc, &terms, &[], story.items.as_slice())?, out)?;
    Ok(())
}

/// A window, how many octets are untaken, and what has happened: the ackno and window of the SEQ
/// that is due for channel 1.
pub(crate) fn due_seq(alloc: Global, fields: &mut Fields<'_>, out: &mut Octets) -> Result<(), Bad> {
    let size = fields.number()?;
    let untaken = fields.number()? as u128;
    let mut story = Story::new(alloc, false);
    story.play(fields.next()?)?;
    match due(alloc, size, untaken, 1, story.items.as_slice())? {
        Some(seq) => put_both(seq.ackno, seq.window, out),
        None => put_none(out),
    }
}

fn put_both(ackno: u32, window: u32, out: &mut Octets) -> Result<(), Bad> {
    put_number(ackno as u64, out)?;
    put_number(window as u64, out)?;
    Ok(())
}

/// What has happened: how many octets channel 1 may send.
pub(crate) fn open(alloc: Global, fields: &mut Fields<'_>, out: &mut Octets) -> Result<(), Bad> {
    let mut story = Story::new(alloc, false);
    story.play(fields.next()?)?;
    let count = open_octets(alloc, 1, story.items.as_slice())?;
    put_number(u64::try_from(count).unwrap_or(u64::MAX), out)?;
    Ok(())
}
