//! A list of the frames of a stream: one line for each, gathered as its header comes, and where
//! that is asked for one more for what each message of channel zero says.
ghost use Rattle.std.specs.Prelude.{◌≡◌, ◌+◌, ◌≤◌, Bool, true, length, IfOk, OnOk, OnErr};
ghost use Rattle.beep_octets.specs.Held.{KeepsRoom};
ghost use Rattle.beep_frame.specs.Fed.{Fed, nothing_fed};
ghost use Rattle.beep_show.specs.Listing.{Gathered, EndsLine};

use crate::zero::Zero;
use beep_frame::{Decoder, MAX_HEADER, MAX_PAYLOAD, Rule, Step};
use beep_octets::{NoMemory, Octets};
use std::alloc::Global;

/// The longest header with its CRLF, in octets (RFC 3080, section 2.2.1).
pub(crate) const LINE_ROOM: usize = MAX_HEADER;

/// How many octets are read at once, at most.
pub(crate) const PIECE: usize = 4096;

/// Room for the lines that one piece makes whole: each is shorter than its frame, but for the one
/// whose header came before.
pub(crate) const OUT_ROOM: usize = PIECE + LINE_ROOM;

/// What became of a piece.
#[derive(Clone, Copy, Debug, PartialEq, Eq)]
pub(crate) enum Listed {
    /// Its frames are listed.
    Whole,
    /// They are listed up to this octet, at which the stream broke this rule.
    Broken(Rule, u64),
    /// They are listed up to a message that found no memory.
    NoMemory,
}

/// Lists the frames of a stream that comes in pieces. It keeps the text of one header.
#[derive(Drop)]
pub(crate) struct Lister {
    pub(crate) decoder: Decoder,
    /// The line that the frame under way begins with, as far as it came.
    pub(crate) line: Octets,
    /// Whether that line is a whole header.
    pub(crate) has_head: bool,
    /// The lines that are to be written.
    pub(crate) out: Octets,
    /// The whole frames, modulo 2^64.
    pub(crate) frames: u64,
    /// The message of channel zero under way, where elements are listed.
    pub(crate) zero: Option<Zero>,
    /// The line of the message that is complete.
    pub(crate) element: Octets,
}

impl Lister {
    ghost use Rattle.beep_show.specs.Listing.{Follows, EndsFrame, EndsData, ListsMessage, Holds, ListsAs, Reads, lists_elements};

    /// A lister that was given nothing. It takes all the memory that it will need without elements.
    pub(crate) fn new(alloc: Global, elements: bool) -> Result<Lister, NoMemory>
        ensures { IfOk result (λ lister. Reads elements lister nothing_fed) }
    {
        let decoder = Decoder::new(alloc, MAX_PAYLOAD)?;
        let mut line = Octets::new(alloc);
        line.reserve(LINE_ROOM)?;
        let mut out = Octets::new(alloc);
        out.reserve(OUT_ROOM)?;
        let zero = if elements {
            Some(Zero::new(alloc)?)
        } else {
            None
        };
        Ok(Lister {
            decoder,
            line,
            has_head: false,
            out,
            frames: 0,
            zero,
            element: Octets::new(alloc),
        })
    }

    /// Lists the frames that are whole with this piece.
    pub(crate) fn list(&mut self, piece: &[u8]) -> Listed
        ensures lists { (elements : Bool) (fed : Fed) → Holds elements self.old fed
            → length piece.now ≤ PIECE
            → length self.old.line.octets + length piece.now ≤ self.old.out.spare
            → ListsAs result elements self.old self.new fed.octets fed.frames piece.now }
        ensures room { KeepsRoom self.old.out self.new.out }
    {
        let mut at = 0;
        while at < piece.len() {
            let (count, step) = self.decoder.feed(&piece[at..]);
            if let Step::Broken(rule, place) = step {
                return Listed::Broken(rule, place);
            }
            match self.follow(step, &piece[at..at + count]) {
                Ok(()) => at += count,
                Err(NoMemory) => return Listed::NoMemory,
            }
        }
        Listed::Whole
    }

    fn follow(&mut self, step: Step, taken: &[u8]) -> Result<(), NoMemory>
        requires whole { step ≡ Step.Frame → self.old.decoder.whole ≡ true }
        ensures ok { OnOk result (Follows step self.old self.new taken.now) }
        ensures err { OnErr result ((self.new.out.octets ≡ self.old.out.octets)
            × (lists_elements self.old.zero ≡ true)) }
        ensures room { KeepsRoom self.old.out self.new.out }
    {
        match step {
            Step::More => gather(&mut self.line, self.has_head, taken),
            Step::Head(_) => {
                gather(&mut self.line, self.has_head, taken);
                self.has_head = true;
            }
            Step::Frame => return self.end_data(),
            Step::Seq(_) => {
                gather(&mut self.line, self.has_head, taken);
                self.end_frame();
            }
            Step::Broken(_, _) => {}
        }
        Ok(())
    }

    /// Ends the line of a data frame, and lists the message of channel zero that it completes.
    fn end_data(&mut self) -> Result<(), NoMemory>
        requires whole { self.old.decoder.whole ≡ true }
        ensures ok { OnOk result (EndsData self.old self.new) }
        ensures err { OnErr result ((self.new.out.octets ≡ self.old.out.octets)
            × (lists_elements self.old.zero ≡ true)) }
        ensures room { KeepsRoom self.old.out self.new.out }
    {
        self.list_message()?;
        self.end_frame();
        self.out.extend_within(self.element.as_slice());
        Ok(())
    }

    /// Makes the line of the message that a data frame completes, and room for it.
    fn list_message(&mut self) -> Result<(), NoMemory>
        requires whole { self.old.decoder.whole ≡ true }
        ensures ok { OnOk result (ListsMessage self.old self.new) }
        ensures err { OnErr result ((self.new.out.octets ≡ self.old.out.octets)
            × (lists_elements self.old.zero ≡ true)) }
        ensures room { KeepsRoom self.old.out self.new.out }
    {
        self.element.clear();
        let Some(zero) = &mut self.zero else {
            return Ok(());
        };
        let frame = self.decoder.frame();
        zero.follow(frame.head, frame.payload, &mut self.element)?;
        self.out.reserve(self.element.as_slice().len() + OUT_ROOM)
    }

    fn end_frame(&mut self)
        ensures { EndsFrame self.old.line self.old self.new }
    {
        end_line(&mut self.line, &mut self.out);
        self.has_head = false;
        self.frames = self.frames.wrapping_add(1);
    }
}

/// Adds octets to a line that isn't a whole header. They find room: no line is longer than a
/// header.
fn gather(line: &mut Octets, whole: bool, taken: &[u8])
    ensures { Gathered line.old line.new whole taken.now }
{
    if !whole {
        line.extend_within(taken);
    }
}

/// Hands on a line without its CRLF.
fn end_line(line: &mut Octets, out: &mut Octets)
    ensures { EndsLine line.old out.old line.new out.new }
{
    let text = line.as_slice();
    out.extend_within(&text[..text.len().saturating_sub(2)]);
    out.extend_within(b"\n");
    line.clear();
}
