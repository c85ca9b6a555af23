//! Short journals and scripts as text, for the tables of tests.
//!
//! A frame is written as its side, `R` for received or `S` for sent, its keyword, channel, number,
//! `*` or `.`, what it holds, and for an ANS its answer number; a SEQ as its side, keyword,
//! channel, ackno and window. What a frame holds is the name of a message of channel zero, `#` and
//! a number of octets, or `=` and octets, in which `|` stands for CR LF and `_` for a space. `R
//! begins ..` is a header alone, and `R ends` the rest of its frame. `greet` stands for both
//! greetings, `start` for the start of channel 1 and its grant, `ask` for the listener's request
//! there, and at `anew` the sequence numbers of channel 1 begin again.
//!
//! A message of a script is written as its keyword, the position of its request, for an ANS its
//! answer number, and what it holds.
ghost use Rattle.std.specs.Prelude.{IfOk};
ghost use Rattle.beep_talk.specs.Plan.{HasAllowedUris};
ghost use Rattle.beep_talk.specs.Plain.{plain_plan};

use beep_chars::{Text, are_allowed};
use beep_decide::Offer;
use beep_frame::{Head, Kind, Seq, Tag};
use beep_history::{JournalItem, Side};
use beep_journal::Role;
use beep_lawful::Terms;
use beep_octets::Octets;
use beep_talk::{Command, Message, Plan};
use prof_raw::Entries;
use std::alloc::Global;
use std::test::Fail;

/// The MIME header of a message of channel zero.
const HEADER: &str = "Content-Type: application/beep+xml\r\n\r\n";

/// How many channels a story may speak of.
const CHANNELS: usize = 8;

/// The element that a word names.
fn element_of(word: &str) -> Option<&'static str> {
    match word {
        "greeting" => Some("<greeting />"),
        "offers" => Some("<greeting><profile uri='urn:x' /></greeting>"),
        "offers2" => { Some("<greeting><profile uri='urn:x' /><profile uri='urn:y' /></greeting>") }
        "start1" => Some("<start number='1'><profile uri='urn:x' /></start>"),
        "start2" => Some("<start number='2'><profile uri='urn:x' /></start>"),
        "start3" => Some("<start number='3'><profile uri='urn:x' /></start>"),
        "other1" => Some("<start number='1'><profile uri='urn:y' /></start>"),
        "chosen" => Some("<profile uri='urn:x' />"),
        "chosen_other" => Some("<profile uri='urn:y' />"),
        "close0" => Some("<close number='0' code='200' />"),
        "close1" => Some("<close number='1' code='200' />"),
        "close3" => Some("<close number='3' code='200' />"),
        "busy0" => Some("<close number='0' code='421' />"),
        "busy1" => Some("<close number='1' code='421' />"),
        "ok" => Some("<ok />"),
        "error" => Some("<error code='550'>requested action not taken</error>"),
        "parameter" => Some("<error code='553'>parameter invalid</error>"),
        "syntax" => Some("<error code='500'>general syntax error</error>"),
        "away" => Some("<error code='421' />"),
        "unreadable" => Some("<start number='1'>"),
        "raw_offers" => Some(
            "<greeting><profile uri='http://xml.resource.org/profiles/syslog/RAW' /></greeting>",
        ),
        "raw_start" => Some(
            "<start number='1'>\
             <profile uri='http://xml.resource.org/profiles/syslog/RAW' /></start>",
        ),
        "raw_chosen" => Some("<profile uri='http://xml.resource.org/profiles/syslog/RAW' />"),
        _ => None,
    }
}

fn number_of(word: &str) -> Option<u32> {
    word.parse().ok()
}

/// Octets in which `|` stands for CR LF and `_` for a space.
fn octets_of(alloc: Global, text: &str) -> Result<Octets, Fail> {
    let mut octets = Octets::new(alloc);
    for octet in text.as_bytes() {
        match octet {
            b'|' => octets.extend(b"\r\n")?,
            b'_' => octets.extend(b" ")?,
            _ => octets.extend(&[*octet])?,
        }
    }
    Ok(octets)
}

/// The octets that a word stands for.
fn payload_of(alloc: Global, word: &str) -> Result<Octets, Fail> {
    if let Some(text) = word.strip_prefix('=') {
        return octets_of(alloc, text);
    }
    let mut octets = Octets::new(alloc);
    if let Some(number) = word.strip_prefix('#') {
        for _ in 0..number_of(number).ok_or("a number of octets")? {
            octets.extend(b"x")?;
        }
        return Ok(octets);
    }
    octets.extend(HEADER.as_bytes())?;
    octets.extend(element_of(word).ok_or("a message")?.as_bytes())?;
    octets.extend(b"\r\n")?;
    Ok(octets)
}

fn side_of(word: &str) -> Option<Side> {
    match word {
        "R" => Some(Side::Received),
        "S" => Some(Side::Sent),
        _ => None,
    }
}

fn kind_of(word: &str) -> Option<Kind> {
    match word {
        "MSG" => Some(Kind::Msg),
        "RPY" => Some(Kind::Rpy),
        "ERR" => Some(Kind::Err),
        "ANS" => Some(Kind::Ans),
        "NUL" => Some(Kind::Nul),
        _ => None,
    }
}

/// The SEQ that a text writes, if it does.
fn seq_of(text: &str) -> Option<Seq> {
    let mut words = text.strip_prefix("SEQ ")?.split_whitespace();
    Some(Seq {
        channel: number_of(words.next()?)?,
        ackno: number_of(words.next()?)?,
        window: number_of(words.next()?)?,
    })
}

/// A frame as a text writes it.
#[derive(Drop)]
struct Frame {
    head: Head,
    payload: Octets,
}

/// What one side has sent: how many octets of payload on each channel, and the frame whose header
/// alone has passed.
#[derive(Drop)]
struct Way {
    octets: Vec<u32>,
    begun: Option<Frame>,
}

impl Way {
    fn new(alloc: Global) -> Result<Way, Fail> {
        let mut octets = Vec::new(alloc);
        octets.resize(CHANNELS, 0)?;
        Ok(Way {
            octets,
            begun: None,
        })
    }

    /// The sequence number that comes next on a channel.
    fn next(&self, channel: u32) -> u32 {
        self.octets.get(channel as usize).copied().unwrap_or(0)
    }

    /// The sequence numbers of a channel begin again.
    fn clear(&mut self, channel: u32) {
        let at = channel as usize;
        if at < self.octets.len() {
            self.octets[at] = 0;
        }
    }

    /// A frame of this channel has passed.
    fn pass(&mut self, channel: u32, size: u32) {
        let at = channel as usize;
        if at < self.octets.len() {
            self.octets[at] = self.octets[at].wrapping_add(size);
        }
    }
}

/// A session under way: its items, the latest first.
#[derive(Drop)]
pub struct Story {
    pub items: Vec<JournalItem>,
    command: Command,
    received: Way,
    sent: Way,
}

impl Story {
    pub fn new(alloc: Global, command: Command) -> Result<Story, Fail> {
        Ok(Story {
            items: Vec::new(alloc),
            command,
            received: Way::new(alloc)?,
            sent: Way::new(alloc)?,
        })
    }

    fn alloc(&self) -> Global {
        *self.items.allocator()
    }

    fn way(&self, side: Side) -> &Way {
        match side {
            Side::Received => &self.received,
            Side::Sent => &self.sent,
        }
    }

    fn way_mut(&mut self, side: Side) -> &mut Way {
        match side {
            Side::Received => &mut self.received,
            Side::Sent => &mut self.sent,
        }
    }

    /// The frame that these words write.
    fn frame(&self, side: Side, text: &str) -> Result<Frame, Fail> {
        let mut words = text.split_whitespace();
        let kind = words.next().and_then(kind_of).ok_or("a keyword")?;
        let channel = words.next().and_then(number_of).ok_or("a channel")?;
        let msgno = words.next().and_then(number_of).ok_or("a number")?;
        let more = words.next().ok_or("a flag")? == "*";
        let payload = payload_of(self.alloc(), words.next().ok_or("a payload")?)?;
        let head = Head {
            kind,
            channel,
            msgno,
            more,
            seqno: self.way(side).next(channel),
            size: u32::try_from(payload.len()).map_err(|_| "a size")?,
            ansno: words.next().and_then(number_of).unwrap_or(0),
        };
        Ok(Frame { head, payload })
    }

    /// The frame that ends with the words `ends`, or that these words write.
    fn whole(&mut self, side: Side, text: &str) -> Result<Frame, Fail> {
        if text == "ends" {
            return Ok(self.way_mut(side).begun.take().ok_or("a frame")?);
        }
        let frame = self.frame(side, text)?;
        self.items.insert(0, JournalItem::Began(side, frame.head))?;
        Ok(frame)
    }

    /// Does what one text says.
    fn step(&mut self, text: &str) -> Result<(), Fail> {
        let (word, rest) = text.split_once(' ').ok_or("a step")?;
        let side = side_of(word).ok_or("a side")?;
        if let Some(seq) = seq_of(rest) {
            self.items.insert(0, JournalItem::Told(side, seq))?;
            return Ok(());
        }
        if let Some(rest) = rest.strip_prefix("begins ") {
            let frame = self.whole(side, rest)?;
            self.way_mut(side).begun = Some(frame);
            return Ok(());
        }
        let Frame { head, payload } = self.whole(side, rest)?;
        self.way_mut(side).pass(head.channel, head.size);
        self.items
            .insert(0, JournalItem::Passed(side, head, payload))?;
        Ok(())
    }

    /// Does what a word stands for.
    fn act(&mut self, word: &str) -> Result<(), Fail> {
        match (self.command, word) {
            (Command::Send, "greet") => {
                self.step("S RPY 0 0 . greeting")?;
                self.step("R RPY 0 0 . offers")
            }
            (Command::Listen, "greet") => {
                self.step("S RPY 0 0 . offers")?;
                self.step("R RPY 0 0 . greeting")
            }
            (Command::Send, "start") => {
                self.step("S MSG 0 1 . start1")?;
                self.step("R RPY 0 1 . chosen")
            }
            (Command::Listen, "start") => {
                self.step("R MSG 0 1 . start1")?;
                self.step("S RPY 0 1 . chosen")
            }
            (Command::Send, "ask") => self.step("R MSG 1 0 . =|ready|"),
            (Command::Listen, "ask") => self.step("S MSG 1 0 . =|ready|"),
            (_, "anew") => {
                self.received.clear(1);
                self.sent.clear(1);
                Ok(())
            }
            (_, text) => self.step(text),
        }
    }

    /// Does what a line says.
    pub fn play(&mut self, line: &str) -> Result<(), Fail> {
        for text in line.split(';') {
            let word = text.trim();
            if !word.is_empty() {
                self.act(word)?;
            }
        }
        Ok(())
    }
}

/// The message of a script that a text writes.
fn message_in(alloc: Global, text: &str) -> Result<Message, Fail> {
    let mut words = text.split_whitespace();
    let kind = words.next().and_then(kind_of).ok_or("a keyword")?;
    let request = words.next().and_then(number_of).ok_or("a position")?;
    let ansno = if kind.is_ans() {
        words.next().and_then(number_of).ok_or("an answer number")?
    } else {
        0
    };
    let content = payload_of(alloc, words.next().ok_or("a content")?)?;
    Ok(Message {
        tag: Tag {
            kind,
            request: u64::from(request),
            ansno,
        },
        content,
    })
}

/// Whether these messages are those that a line writes.
pub fn are(alloc: Global, messages: &[Message], line: &str) -> Result<bool, Fail> {
    let mut at = 0;
    for text in line.split(';') {
        let word = text.trim();
        if word.is_empty() {
            continue;
        }
        let wanted = message_in(alloc, word)?;
        let Some(message) = messages.get(at) else {
            return Ok(false);
        };
        if message.tag != wanted.tag || message.content.as_slice() != wanted.content.as_slice() {
            return Ok(false);
        }
        at = at.saturating_add(1);
    }
    Ok(at == messages.len())
}

fn terms_of(command: Command) -> Terms {
    Terms {
        role: match command {
            Command::Send => Role::Initiator,
            Command::Listen => Role::Listener,
        },
        window: 4096,
        piece: 1024,
    }
}

/// A plan with these lines, for the profile of this URI; a listener offers it.
pub fn plan_of(
    alloc: Global,
    command: Command,
    uri: &'static str,
    lines: &[&'static str],
) -> Result<Plan, Fail>
    ensures { IfOk result (λ plan. HasAllowedUris (plain_plan plan)) }
{
    if !are_allowed(uri) {
        return Err("a URI".into());
    }
    let mut offers = Vec::new(alloc);
    let mut list = Entries::new(alloc);
    for line in lines {
        list.push(line.as_bytes())?;
    }
    match command {
        Command::Send => {}
        Command::Listen => {
            offers.push(Offer {
                uri: Text::of(alloc, uri)?,
                tuning: false,
            })?;
        }
    }
    Ok(Plan {
        command,
        terms: terms_of(command),
        offers,
        raw_uri: Text::of(alloc, uri)?,
        lines: list,
    })
}
