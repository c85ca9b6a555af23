//! Own frames: whether one can go, and the next one.
ghost use Rattle.std.specs.Prelude.{◌≡◌, ◌<◌, ◌≤◌, ◌==◌, ◌+◌, ◌++◌, ℕ, List, true, length, take, min, None, Some};
ghost use Rattle.beep_frame.specs.Frame.{is_reply};
ghost use Rattle.beep_history.specs.Journal.{Item};
ghost use Rattle.beep_history.specs.Marks.{Mark};
ghost use Rattle.beep_outbox.specs.Queue.{first_octets};
ghost use Rattle.beep_octets.specs.Held.{KeepsRoom};
ghost use Rattle.beep_channel.specs.Fits.{next_number};
ghost use Rattle.beep_channel.specs.Held.{is_held_ready, next_head, HasRoomOut};
ghost use Rattle.beep_channel.specs.Stands.{Stands, SameIn, IsNext};

use super::Channel;
use beep_frame::{Head, MAX_NUMBER, Tag};
use beep_octets::Octets;

/// How many numbers a header can give to a message (RFC 3080, section 2.2.1.1).
const MESSAGE_NUMBERS: u64 = MAX_NUMBER as u64 + 1;

impl Channel {
    /// Whether a frame can go: there is an unsent mark, and the first one is the end of a message
    /// or the peer's window is open.
    pub fn is_ready(&self) -> bool
        ensures { result ≡ is_held_ready self.now.held }
    {
        if !self.outbox.has_next() {
            return false;
        }
        self.outbox.next_len() == 0 || self.sends.room() > 0
    }

    /// The number of the next frame, of the message with this tag.
    fn next_number(&self, tag: Tag) -> u32
        requires waits { is_reply tag.kind ≡ true → 0 < self.now.held.life.received.waiting }
        ensures { result ≡ next_number tag.request tag.kind self.now.held.life.sent
            self.now.held.life.received }
    {
        if tag.kind.is_reply() {
            let Some(number) = self.exchange.oldest_number() else {
                unreachable!()
            };
            return number;
        }
        match self.exchange.last_sent() {
            None => {}
            Some(before) => {
                if before.more {
                    return before.msgno;
                }
            }
        }
        (tag.request % MESSAGE_NUMBERS) as u32
    }

    /// The header of the next frame, of at most so many octets.
    fn next_head(&self, max: u32) -> Head
        requires ready { is_held_ready self.now.held ≡ true }
        ensures { result ≡ next_head max self.now.held }
    {
        let tag = self.outbox.next_tag();
        let len = self.outbox.next_len();
        let size = least(len, max, self.sends.room());
        Head {
            kind: tag.kind,
            channel: self.number,
            msgno: self.next_number(tag),
            more: size < len,
            seqno: self.seqno.get(),
            size,
            ansno: tag.ansno,
        }
    }

    /// Appends the octets of the next frame to `out`, at most `max`, and answers its header. It
    /// takes no memory. The frame has then passed.
    #[inline(always)]
    pub fn cut(&mut self, max: u32, out: &mut Octets) -> Head
        requires ready { is_held_ready self.old.held ≡ true }
        requires most { 0 < max }
        requires room { max ≤ out.old.spare }
        ensures value { result ≡ next_head max self.old.held }
        ensures sized { length (take result.size (first_octets self.old.held.queue))
            ≡ result.size }
        ensures appended { out.new.octets
            ≡ out.old.octets ++ take result.size (first_octets self.old.held.queue) }
        ensures next { (size : ℕ) (past : List Item) (given taken : List Mark)
            → Stands size self.old.held past given taken
            → IsNext size max self.old.held self.new.held past given taken result
            (take result.size (first_octets self.old.held.queue)) }

        ensures same { SameIn self.old.held self.new.held }
        ensures under { self.new.held.life.received.under_way
            ≡ self.old.held.life.received.under_way }
        ensures within { result.size ≤ max }
        ensures room { KeepsRoom out.old out.new }
        ensures places { HasRoomOut self.old self.new 0 0 × (self.new.runs ≡ self.old.runs) }
    {
        let head = self.next_head(max);
        self.outbox.cut(head.size, out);
        self.exchange.note_out(&head);
        self.exchange.note_sent();
        self.seqno = self.seqno.plus(head.size);
        self.sends.spend(head.size);
        head
    }
}

/// The least of three.
fn least(len: u32, max: u32, room: u32) -> u32
    ensures { result ≡ min len (min max room) }
{
    len.min(max.min(room))
}
