//! The journal of an end, read from the octets that it emitted and was fed, and the plain programs
//! over each item as it comes.

use crate::stop::{Fault, Stop};
use beep_frame::{Decoder, MAX_PAYLOAD, Step};
use beep_history::{JournalItem, Side};
use beep_journal::{broken_content, broken_head, broken_seq};
use beep_lawful::{Terms, unlawful_item};
use beep_octets::Octets;
use std::alloc::Global;

/// The journal of an end, the latest item first.
#[derive(Drop)]
pub struct Log {
    alloc: Global,
    sent: Decoder,
    received: Decoder,
    items: Vec<JournalItem>,
    most: usize,
}

impl Log {
    /// A journal of which so many items are kept and judged at most.
    pub fn new(alloc: Global, most: usize) -> Result<Log, Stop> {
        Ok(Log {
            alloc,
            sent: Decoder::new(alloc, MAX_PAYLOAD)?,
            received: Decoder::new(alloc, MAX_PAYLOAD)?,
            items: Vec::new(alloc),
            most,
        })
    }

    /// These octets were sent or received, by an end of these terms: each item that they complete
    /// is judged.
    pub fn add(&mut self, terms: &Terms, side: Side, octets: &[u8]) -> Result<(), Stop> {
        let mut rest = octets;
        for _ in 0..=octets.len() {
            let (used, item) = match side {
                Side::Sent => next_item(self.alloc, side, &mut self.sent, rest)?,
                Side::Received => next_item(self.alloc, side, &mut self.received, rest)?,
            };
            let Some(item) = item else {
                return Ok(());
            };
            self.judge(terms, item)?;
            rest = match rest.get(used..) {
                Some(rest) => rest,
                None => return Err(Stop::Found(Fault::NoStream)),
            };
        }
        Ok(())
    }

    /// Runs the plain programs over the next item, while there may be more: one that arrived breaks
    /// no rule, and one that was sent nothing that `is_lawful` asks of it.
    fn judge(&mut self, terms: &Terms, item: JournalItem) -> Result<(), Stop> {
        if self.most <= self.items.len() {
            return Ok(());
        }
        let past = self.items.as_slice();
        judge_item(self.alloc, past, &item)?;
        if let Some(breach) = unlawful_item(self.alloc, terms, &[], past, &item)? {
            return Err(Stop::Found(Fault::Unlawful(breach)));
        }
        match self.items.insert(0, item) {
            Ok(()) => Ok(()),
            Err(_) => Err(Stop::NoMemory),
        }
    }

    /// How many items were judged.
    pub fn judged(&self) -> usize {
        self.items.len()
    }
}

/// The next item of a stream, and the octets up to its end. None where no more ends here.
fn next_item(
    alloc: Global,
    side: Side,
    decoder: &mut Decoder,
    octets: &[u8],
) -> Result<(usize, Option<JournalItem>), Stop> {
    let (used, step) = decoder.feed(octets);
    match step {
        Step::More => Ok((used, None)),
        Step::Head(head) => Ok((used, Some(JournalItem::Began(side, head)))),
        Step::Seq(seq) => Ok((used, Some(JournalItem::Told(side, seq)))),
        Step::Frame => {
            let frame = decoder.frame();
            let mut payload = Octets::new(alloc);
            payload.extend(frame.payload)?;
            Ok((used, Some(JournalItem::Passed(side, frame.head, payload))))
        }
        Step::Broken(_, _) => Err(Stop::Found(Fault::NoStream)),
    }
}

/// An item that arrived breaks no rule, by the plain programs.
fn judge_item(alloc: Global, journal: &[JournalItem], item: &JournalItem) -> Result<(), Stop> {
    let rule = match item {
        JournalItem::Began(Side::Received, head) => {
            broken_head(alloc, &[], Side::Received, journal, head)?
        }
        JournalItem::Passed(Side::Received, head, payload) => {
            broken_content(alloc, Side::Received, journal, head, payload)?
        }
        JournalItem::Told(Side::Received, seq) => {
            broken_seq(alloc, Side::Received, journal, seq)?
        }
        JournalItem::Began(Side::Sent, _)
        | JournalItem::Passed(Side::Sent, _, _)
        | JournalItem::Told(Side::Sent, _) => None,
    };
    match rule {
        Some(rule) => Err(Stop::Found(Fault::PlainRule(rule))),
        None => Ok(()),
    }
}
