//! A session under way, as text says it (`crates/journal_cases/README.md`).

use crate::payload::payload_of;
use crate::text::{first_word, kind_of, seq_of, side_of};
use beep_frame::{Head, SEQ_ROOM, SPELL_ROOM, Seq, spell, spell_seq};
use beep_history::{JournalItem, Side};
use beep_octets::Octets;
use case_lines::{Bad, number_of};
use std::alloc::{AllocError, Global};

/// A frame as a text writes it.
#[derive(Drop)]
pub(crate) struct Frame {
    pub(crate) head: Head,
    pub(crate) payload: Octets,
}

/// What one side of a session has sent.
#[derive(Drop)]
struct Way {
    /// How many octets, in whole frames and in SEQs.
    octets: usize,
    /// The octets of payload of channel zero, and of the channels above it.
    zero: u32,
    above: u32,
    /// The frame whose header alone has passed.
    begun: Option<Frame>,
}

impl Way {
    fn new() -> Way {
        Way {
            octets: 0,
            zero: 0,
            above: 0,
            begun: None,
        }
    }

    /// A frame or a SEQ of this channel has passed.
    fn pass(&mut self, octets: usize, channel: u32, size: u32) {
        self.octets = self.octets.wrapping_add(octets);
        if channel == 0 {
            self.zero = self.zero.wrapping_add(size);
        } else {
            self.above = self.above.wrapping_add(size);
        }
    }

    /// The sequence number that comes next.
    fn next(&self, channel: u32) -> u32 {
        if channel == 0 { self.zero } else { self.above }
    }
}

/// A session under way: its items, the latest first, and whether its sides are exchanged.
#[derive(Drop)]
pub(crate) struct Story {
    pub(crate) items: Vec<JournalItem>,
    received: Way,
    sent: Way,
    exchanged: bool,
    /// Whether its frames are headers with a size alone.
    bare: bool,
}

impl Story {
    pub(crate) fn new(alloc: Global, exchanged: bool) -> Story {
        Story {
            items: Vec::new(alloc),
            received: Way::new(),
            sent: Way::new(),
            exchanged,
            bare: false,
        }
    }

    /// The same, whose frames are headers with a size alone.
    pub(crate) fn bare(alloc: Global, exchanged: bool) -> Story {
        Story {
            items: Vec::new(alloc),
            received: Way::new(),
            sent: Way::new(),
            exchanged,
            bare: true,
        }
    }

    pub(crate) fn alloc(&self) -> Global {
        *self.items.allocator()
    }

    pub(crate) fn side(&self, side: Side) -> Side {
        if self.exchanged { side.other() } else { side }
    }

    fn way(&self, side: Side) -> &Way {
        match side {
            Side::Received => &self.received,
            Side::Sent => &self.sent,
        }
    }

    fn way_mut(&mut self, side: Side) -> &mut Way {
        match side {
            Side::Received => &mut self.received,
            Side::Sent => &mut self.sent,
        }
    }

    /// How many octets a side has sent.
    pub(crate) fn octets(&self, side: Side) -> usize {
        self.way(side).octets
    }

    fn add(&mut self, item: JournalItem) -> Result<(), AllocError> {
        self.items.insert(0, item)?;
        Ok(())
    }

    /// The frame that these words write: keyword, channel, number, flag, what it holds, and a
    /// number or a place.
    pub(crate) fn frame(&self, side: Side, text: &str) -> Result<Frame, Bad> {
        let (kind, rest) = first_word(text);
        let (channel, rest) = first_word(rest);
        let (msgno, rest) = first_word(rest);
        let (flag, rest) = first_word(rest);
        let (word, last) = first_word(rest);
        let payload = self.payload(word)?;
        let channel = number_of(channel)?;
        let head = Head {
            kind: kind_of(kind)?,
            channel,
            msgno: number_of(msgno)?,
            more: flag == "*",
            seqno: seqno_of(last, self.way(side).next(channel)),
            size: if self.bare {
                number_of(word)?
            } else {
                size_of(&payload)
            },
            ansno: ansno_of(last),
        };
        Ok(Frame { head, payload })
    }

    fn payload(&self, word: &str) -> Result<Octets, Bad> {
        if self.bare {
            return Ok(Octets::new(self.alloc()));
        }
        payload_of(self.alloc(), word)
    }

    pub(crate) fn begin(&mut self, side: Side, head: Head) -> Result<(), Bad> {
        let by = self.side(side);
        self.add(JournalItem::Began(by, head))?;
        Ok(())
    }

    pub(crate) fn end(&mut self, side: Side, frame: Frame) -> Result<(), Bad> {
        let Frame { head, payload } = frame;
        let octets = self.spelled(&head, &payload)?;
        let by = self.side(side);
        self.way_mut(side).pass(octets, head.channel, head.size);
        self.add(JournalItem::Passed(by, head, payload))?;
        Ok(())
    }

    fn spelled(&self, head: &Head, payload: &Octets) -> Result<usize, Bad> {
        if self.bare {
            return Ok(0);
        }
        spelled_len(self.alloc(), head, payload)
    }

    fn tell(&mut self, side: Side, seq: Seq) -> Result<(), Bad> {
        let octets = seq_len(self.alloc(), &seq)?;
        let by = self.side(side);
        self.way_mut(side).pass(octets, seq.channel, 0);
        self.add(JournalItem::Told(by, seq))?;
        Ok(())
    }

    /// The frame of a side of which the header alone has passed.
    pub(crate) fn take_begun(&mut self, side: Side) -> Result<Frame, Bad> {
        match self.way_mut(side).begun.take() {
            Some(frame) => Ok(frame),
            None => Err(Bad::Field),
        }
    }

    /// Does what one text says.
    pub(crate) fn step(&mut self, text: &str) -> Result<(), Bad> {
        let (word, rest) = first_word(text);
        let side = side_of(word)?;
        if rest == "ends" {
            let frame = self.take_begun(side)?;
            return self.end(side, frame);
        }
        if let Some(seq) = rest.strip_prefix("SEQ ") {
            return self.tell(side, seq_of(seq)?);
        }
        if let Some(rest) = rest.strip_prefix("begins ") {
            return self.only_begin(side, rest);
        }
        self.pass(side, rest)
    }

    fn only_begin(&mut self, side: Side, text: &str) -> Result<(), Bad> {
        let frame = self.frame(side, text)?;
        self.begin(side, frame.head)?;
        self.way_mut(side).begun = Some(frame);
        Ok(())
    }

    fn pass(&mut self, side: Side, text: &str) -> Result<(), Bad> {
        let frame = self.frame(side, text)?;
        self.begin(side, frame.head)?;
        self.end(side, frame)
    }

    /// Does what a line says: steps with `; ` between each two.
    pub(crate) fn play(&mut self, line: &str) -> Result<(), Bad> {
        if line == "-" {
            return Ok(());
        }
        for text in line.split("; ") {
            self.act(text)?;
        }
        Ok(())
    }

    fn act(&mut self, text: &str) -> Result<(), Bad> {
        match text {
            "greetings" => self.greet(),
            "started" => self.start("R MSG 0 1 . start1", "S RPY 0 1 . chosen"),
            "opened" => self.start("S MSG 0 1 . start2", "R RPY 0 1 . chosen"),
            _ => self.step(text),
        }
    }

    fn greet(&mut self) -> Result<(), Bad> {
        self.step("R RPY 0 0 . greeting")?;
        self.step("S RPY 0 0 . greeting")
    }

    fn start(&mut self, asked: &str, granted: &str) -> Result<(), Bad> {
        self.greet()?;
        self.step(asked)?;
        self.step(granted)
    }
}

/// The sequence number after `@`, or the one that comes next.
fn seqno_of(last: &str, next: u32) -> u32 {
    match last.strip_prefix('@') {
        Some(text) => number_of(text).unwrap_or(next),
        None => next,
    }
}

fn ansno_of(last: &str) -> u32 {
    number_of(last).unwrap_or(0)
}

fn size_of(payload: &Octets) -> u32 {
    u32::try_from(payload.len()).unwrap_or(u32::MAX)
}

/// How many octets a frame has.
pub(crate) fn spelled_len(alloc: Global, head: &Head, payload: &Octets) -> Result<usize, Bad> {
    if payload.len() != head.size as usize {
        return Err(Bad::Field);
    }
    let mut out = Octets::new(alloc);
    out.reserve(head.size as usize + SPELL_ROOM)?;
    spell(head, payload.as_slice(), &mut out);
    Ok(out.len())
}

/// How many octets a SEQ has.
pub(crate) fn seq_len(alloc: Global, seq: &Seq) -> Result<usize, Bad> {
    let mut out = Octets::new(alloc);
    out.reserve(SEQ_ROOM)?;
    spell_seq(seq, &mut out);
    Ok(out.len())
}
