//! The reader of records. It takes at once the octets of a piece that stand for themselves, those
//! of CR LF and those of a letter, and any other octet alone.
ghost use Rattle.std.specs.Prelude.{◌≡◌, ◌+◌, ◌<◌, ◌≤◌, ◌++◌, true, length, take, None, Some, IfOk, OnOk};
ghost use Rattle.beep_journal.specs.Log.{quiet, ended};
ghost use Rattle.beep_record.specs.Machine.{first_step, start_step, fresh_step, slash_step, high_step, piece_step, line_step, alone_step, status_step, code_step, digits_step, are_plain, kept, with_entry, after_first, step, run, start};
ghost use Rattle.beep_record.specs.Logged.{entry_of};
ghost use Rattle.beep_record.specs.Record.{first_line, piece_of};
ghost use Rattle.beep_record.specs.Reading.{state_of, with_piece, Steps, IsNumbered};

use crate::limits::MAX_ENTRY;
use crate::log::{Entry, LogEntries};
use crate::mode::{Mode, Part};
use crate::octet::{
    digit_of, is_hex, is_hexed, is_high, is_line_end, is_plain, lettered, plain_count,
};
use beep_history::Side;
use beep_journal::Role;
use beep_octets::{NoMemory, Octets};
use std::alloc::Global;

/// Where in a record a reader stands, and what it has read.
#[derive(Drop)]
pub(crate) struct Reader {
    pub(crate) mode: Mode,
    pub(crate) role: Role,
    /// Whether the end of the peer's octets came.
    pub(crate) over: bool,
    pub(crate) entries: LogEntries,
    /// The piece that is under way.
    pub(crate) piece: Octets,
}

/// The first line of a record.
pub(crate) fn first_line(role: Role) -> &'static [u8]
    ensures { result.now ≡ first_line role }
{
    match role {
        Role::Initiator => b"beep-record 1 initiator\n",
        Role::Listener => b"beep-record 1 listener\n",
    }
}

/// How many octets of the first line come before the name of the role.
const BEFORE_ROLE: u8 = 14;

impl Reader {
    /// A reader before any octet.
    pub(crate) fn new(alloc: Global) -> Reader
        ensures { state_of result ≡ start }
    {
        Reader {
            mode: Mode::First(Role::Initiator, 0),
            role: Role::Initiator,
            over: false,
            entries: LogEntries::new(alloc),
            piece: Octets::new(alloc),
        }
    }

    fn first(&mut self, role: Role, count: u8, octet: u8) -> bool
        requires { count < length (first_line role) }
        ensures { Steps (first_step (state_of self.old) role count octet) result
            (state_of self.new) }
    {
        let line = first_line(role);
        let at = count as usize;
        if octet == line[at] {
            self.after_first(role, count + 1);
            return true;
        }
        if count == BEFORE_ROLE && octet == b'l' {
            self.mode = Mode::First(Role::Listener, BEFORE_ROLE + 1);
            return true;
        }
        false
    }

    fn after_first(&mut self, role: Role, count: u8)
        ensures { state_of self.new ≡ after_first (state_of self.old) role count }
    {
        if count as usize == first_line(role).len() {
            self.role = role;
            self.mode = Mode::Start;
        } else {
            self.mode = Mode::First(role, count);
        }
    }

    fn start(&mut self, octet: u8) -> bool
        ensures { Steps (start_step (state_of self.old) octet) result (state_of self.new) }
    {
        let mode = match octet {
            b'W' => Mode::Line(Side::Sent),
            b'S' => Mode::Status,
            _ if self.over => return false,
            b'R' => Mode::Line(Side::Received),
            b'Q' => Mode::Quiet,
            b'E' => Mode::Ended,
            _ => return false,
        };
        self.mode = mode;
        true
    }

    fn line(&mut self, side: Side, octet: u8) -> bool
        ensures { Steps (line_step (state_of self.old) side octet) result (state_of self.new) }
    {
        if octet != b' ' {
            return false;
        }
        self.mode = Mode::Piece(side, Part::Fresh);
        self.piece.clear();
        true
    }

    fn fresh(&mut self, side: Side, octet: u8) -> Result<bool, NoMemory>
        ensures { IfOk result (λ went.
            Steps (fresh_step (state_of self.old) side octet) went (state_of self.new)) }
    {
        if octet == b'\n' {
            if self.piece.is_empty() {
                return Ok(false);
            }
            self.end_piece(side)?;
            return Ok(true);
        }
        if MAX_ENTRY <= self.piece.len() {
            return Ok(false);
        }
        if octet == b'\\' {
            self.mode = Mode::Piece(side, Part::Slash);
            return Ok(true);
        }
        if is_plain(octet) {
            self.keep(side, octet)?;
            return Ok(true);
        }
        Ok(false)
    }

    fn slash(&mut self, side: Side, octet: u8) -> Result<bool, NoMemory>
        ensures { IfOk result (λ went.
            Steps (slash_step (state_of self.old) side octet) went (state_of self.new)) }
    {
        match octet {
            b'r' => self.keep(side, b'\r')?,
            b'n' => self.keep(side, b'\n')?,
            b'\\' => self.keep(side, b'\\')?,
            _ => {
                let digit = digit_of(octet);
                if !(is_hex(octet) && is_high(digit)) {
                    return Ok(false);
                }
                self.mode = Mode::Piece(side, Part::High(digit));
            }
        }
        Ok(true)
    }

    fn high(&mut self, side: Side, digit: u8, octet: u8) -> Result<bool, NoMemory>
        requires { digit < 16 }
        ensures { IfOk result (λ went.
            Steps (high_step (state_of self.old) side digit octet) went (state_of self.new)) }
    {
        if !is_hex(octet) {
            return Ok(false);
        }
        let whole = 16 * digit + digit_of(octet);
        if !is_hexed(whole) {
            return Ok(false);
        }
        self.keep(side, whole)?;
        Ok(true)
    }

    /// Keeps one more octet of a piece.
    fn keep(&mut self, side: Side, octet: u8) -> Result<(), NoMemory>
        ensures { OnOk result (kept (state_of self.old) side octet ≡ Some (state_of self.new)) }
    {
        self.mode = Mode::Piece(side, Part::Fresh);
        self.piece.extend(&[octet])
    }

    /// Ends the line of a piece.
    fn end_piece(&mut self, side: Side) -> Result<(), NoMemory>
        ensures { OnOk result (state_of self.new
            ≡ with_entry (state_of self.old) (piece_of side self.old.piece.octets) self.old.over) }
    {
        let mut piece = Octets::new(self.piece.alloc());
        piece.extend(self.piece.as_slice())?;
        self.end_line(match side {
            Side::Received => Entry::Read(piece),
            Side::Sent => Entry::Wrote(piece),
        })
    }

    /// Adds the entry of a line that is whole.
    fn end_line(&mut self, entry: Entry) -> Result<(), NoMemory>
        ensures { OnOk result (state_of self.new
            ≡ with_entry (state_of self.old) (entry_of entry) self.old.over) }
    {
        self.mode = Mode::Start;
        self.piece.clear();
        self.entries.push(entry)
    }

    fn quiet(&mut self, octet: u8) -> Result<bool, NoMemory>
        ensures { IfOk result (λ went.
            Steps (alone_step (state_of self.old) quiet self.old.over octet) went
            (state_of self.new)) }
    {
        if octet != b'\n' {
            return Ok(false);
        }
        self.end_line(Entry::Quiet)?;
        Ok(true)
    }

    fn ended(&mut self, octet: u8) -> Result<bool, NoMemory>
        ensures { IfOk result (λ went.
            Steps (alone_step (state_of self.old) ended true octet) went (state_of self.new)) }
    {
        if octet != b'\n' {
            return Ok(false);
        }
        self.over = true;
        self.end_line(Entry::Ended)?;
        Ok(true)
    }

    fn status(&mut self, octet: u8) -> bool
        ensures { Steps (status_step (state_of self.old) octet) result (state_of self.new) }
    {
        if octet != b' ' {
            return false;
        }
        self.mode = Mode::Code;
        true
    }

    fn code(&mut self, octet: u8) -> bool
        ensures { Steps (code_step (state_of self.old) octet) result (state_of self.new) }
    {
        if !(b'0' <= octet && octet <= b'9') {
            return false;
        }
        self.mode = Mode::Digits(octet - b'0');
        true
    }

    fn digits(&mut self, code: u8, octet: u8) -> bool
        ensures { Steps (digits_step (state_of self.old) code octet) result (state_of self.new) }
    {
        if octet == b'\n' {
            self.mode = Mode::Over(code);
        } else if code == 1 && octet == b'0' {
            self.mode = Mode::Digits(10);
        } else if code == 1 && octet == b'1' {
            self.mode = Mode::Digits(11);
        } else {
            return false;
        }
        true
    }

    /// Takes one octet, where one can follow.
    #[tactic(auto, unfolding(crate::specs::Machine::step))]
    fn step(&mut self, octet: u8) -> Result<bool, NoMemory>
        requires { IsNumbered self.old.mode }
        ensures { IfOk result (λ went.
            Steps (step (state_of self.old) octet) went (state_of self.new)) }
    {
        match self.mode {
            Mode::First(role, count) => Ok(self.first(role, count, octet)),
            Mode::Start => Ok(self.start(octet)),
            Mode::Line(side) => Ok(self.line(side, octet)),
            Mode::Piece(side, Part::Fresh) => self.fresh(side, octet),
            Mode::Piece(side, Part::Slash) => self.slash(side, octet),
            Mode::Piece(side, Part::High(digit)) => self.high(side, digit, octet),
            Mode::Quiet => self.quiet(octet),
            Mode::Ended => self.ended(octet),
            Mode::Status => Ok(self.status(octet)),
            Mode::Code => Ok(self.code(octet)),
            Mode::Digits(code) => Ok(self.digits(code, octet)),
            Mode::Over(_) => Ok(false),
        }
    }

    /// Takes the octets of a piece at the front that stand for themselves, as many as its line has
    /// room for, and answers how many.
    fn plain(&mut self, octets: &[u8]) -> Result<usize, NoMemory>
        ensures within { IfOk result (λ count. count ≤ length octets.now) }
        ensures plain { IfOk result (λ count. are_plain (take count octets.now) ≡ true) }
        ensures room { IfOk result (λ count.
            0 < count → length self.old.piece.octets + count ≤ MAX_ENTRY) }
        ensures kept { IfOk result (λ count. state_of self.new
            ≡ with_piece (state_of self.old) (self.old.piece.octets ++ take count octets.now)) }
    {
        let room = MAX_ENTRY.saturating_sub(self.piece.len());
        let count = plain_count(&octets[..octets.len().min(room)]);
        self.piece.extend(&octets[..count])?;
        Ok(count)
    }

    /// Takes octets of a piece where none of them has begun: CR LF, one that a letter stands for,
    /// or those at the front that stand for themselves.
    fn fresh_part(&mut self, side: Side, octets: &[u8]) -> Result<usize, NoMemory>
        requires { self.old.mode ≡ Mode.Piece side Part.Fresh }
        ensures within { IfOk result (λ count. count ≤ length octets.now) }
        ensures went { IfOk result (λ count. run (Some (state_of self.old)) (take count octets.now)
            ≡ Some (state_of self.new)) }
        ensures mode { OnOk result (self.new.mode ≡ self.old.mode) }
    {
        if self.piece.len() < MAX_ENTRY - 1 && is_line_end(octets) {
            self.piece.extend(b"\r\n")?;
            return Ok(4);
        }
        if self.piece.len() < MAX_ENTRY {
            if let Some(octet) = lettered(octets) {
                self.piece.extend(&[octet])?;
                return Ok(2);
            }
        }
        self.plain(octets)
    }

    /// Takes octets of a piece where none of them has begun, as long as some go on so.
    fn fresh_front(&mut self, side: Side, octets: &[u8]) -> Result<usize, NoMemory>
        requires { self.old.mode ≡ Mode.Piece side Part.Fresh }
        ensures within { IfOk result (λ count. count ≤ length octets.now) }
        ensures went { IfOk result (λ count. run (Some (state_of self.old)) (take count octets.now)
            ≡ Some (state_of self.new)) }
    {
        let mut at = 0;
        while at < octets.len() {
            let count = self.fresh_part(side, &octets[at..])?;
            if count == 0 {
                return Ok(at);
            }
            at += count;
        }
        Ok(at)
    }

    /// Takes octets of a piece from the front, none anywhere else.
    fn front(&mut self, octets: &[u8]) -> Result<usize, NoMemory>
        ensures within { IfOk result (λ count. count ≤ length octets.now) }
        ensures went { IfOk result (λ count. run (Some (state_of self.old)) (take count octets.now)
            ≡ Some (state_of self.new)) }
    {
        match self.mode {
            Mode::Piece(side, Part::Fresh) => self.fresh_front(side, octets),
            Mode::First(..)
            | Mode::Start
            | Mode::Line(_)
            | Mode::Piece(_, Part::Slash | Part::High(_))
            | Mode::Quiet
            | Mode::Ended
            | Mode::Status
            | Mode::Code
            | Mode::Digits(_)
            | Mode::Over(_) => Ok(0),
        }
    }

    /// Takes octets from the front, at least one where one can follow, and answers how many.
    pub(crate) fn take(&mut self, octets: &[u8]) -> Result<usize, NoMemory>
        requires numbered { IsNumbered self.old.mode }
        requires some { 0 < length octets.now }
        ensures within { IfOk result (λ count. count ≤ length octets.now) }
        ensures went { IfOk result (λ count. 0 < count
            → run (Some (state_of self.old)) (take count octets.now) ≡ Some (state_of self.new)) }
        ensures stuck { IfOk result (λ count. count ≡ 0
            → run (Some (state_of self.old)) (take 1 octets.now) ≡ None) }
    {
        let count = self.front(octets)?;
        if 0 < count {
            return Ok(count);
        }
        if self.step(octets[0])? { Ok(1) } else { Ok(0) }
    }
}
