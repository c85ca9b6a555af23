//! The text line that a frame begins with: a header, or a whole SEQ (RFC 3080, section 2.2.1.1;
//! RFC 3081, section 3.1).
//!
//! A line is a list of parts, which its keyword fixes. Each part is a fixed octet, one of two
//! flags, or a number with the octet that ends it, so that each octet either goes on with its part,
//! completes it, or can't stand there. The first octet alone decides the keyword.
ghost use Rattle.std.specs.Prelude.{◌≡◌, ◌<◌, ◌≤◌, ◌==◌, length};
ghost use Rattle.beep_frame.specs.Machine.{parts_of, keyword_by, digit_turn_of, number_turn_of, octet_turn_of, part_turn};

use crate::finder::Found;
use crate::head::{Head, MAX_NUMBER};
use crate::kind::Kind;
use crate::seq::Seq;

/// What a line begins.
#[derive(Clone, Copy, Debug, PartialEq, Eq)]
pub(crate) enum Keyword {
    /// `MSG`, `RPY`, `ERR`, `ANS` or `NUL`: the line is a header.
    Data(Kind),
    /// `SEQ`: the line is a whole SEQ, and no payload follows it.
    Seq,
}

/// What stands at a place of a line.
#[derive(Clone, Copy, Debug, PartialEq, Eq)]
pub(crate) enum Part {
    /// This octet and no other.
    Octet(u8),
    /// `*` where more frames of the message follow, and `.` where none do.
    Flag,
    /// A number of at most `max`, and the octet that ends it.
    Number { max: u32, end: u8 },
}

/// What an octet is to a part.
#[derive(Clone, Copy, Debug, PartialEq, Eq)]
pub(crate) enum PartTurn {
    /// A digit: the number so far.
    Digit(u32),
    /// The part's last octet: its value.
    Whole(u32),
    /// It can't stand here.
    Dead,
}

/// The most parts that a line has.
const MAX_PARTS: usize = 12;

/// A line that is being read.
#[derive(Clone, Copy, Debug)]
pub(crate) struct Line {
    keyword: Keyword,
    /// How many parts are whole.
    at: usize,
    /// The digits so far of the number that is the next part.
    number: Option<u32>,
    /// The value of each whole part: a number, or its octet.
    values: [u32; MAX_PARTS],
}

pub(crate) const SPACE: u8 = b' ';

const ANY: Part = Part::Number {
    max: u32::MAX,
    end: SPACE,
};

const NUMBER: Part = Part::Number {
    max: MAX_NUMBER,
    end: SPACE,
};

const LAST: Part = Part::Number {
    max: MAX_NUMBER,
    end: b'\r',
};

const GAP: Part = Part::Octet(SPACE);

const LF: Part = Part::Octet(b'\n');

/// The parts of a line: these letters, and these parts between its first and its last number.
macro_rules! line_parts {
    ($a:literal, $b:literal, $c:literal, $($part:expr),*) => {
        [Part::Octet($a), Part::Octet($b), Part::Octet($c), GAP, NUMBER, $($part,)* LAST, LF]
    };
}

static MSG: [Part; 11] = line_parts!(b'M', b'S', b'G', NUMBER, Part::Flag, GAP, ANY);

static RPY: [Part; 11] = line_parts!(b'R', b'P', b'Y', NUMBER, Part::Flag, GAP, ANY);

static ERR: [Part; 11] = line_parts!(b'E', b'R', b'R', NUMBER, Part::Flag, GAP, ANY);

static NUL: [Part; 11] = line_parts!(b'N', b'U', b'L', NUMBER, Part::Flag, GAP, ANY);

static ANS: [Part; 12] = line_parts!(b'A', b'N', b'S', NUMBER, Part::Flag, GAP, ANY, NUMBER);

static SEQ: [Part; 8] = line_parts!(b'S', b'E', b'Q', ANY);

fn parts(keyword: Keyword) -> &'static [Part]
    ensures parts { result.now ≡ parts_of keyword }
    ensures within { length result.now ≤ MAX_PARTS }
{
    match keyword {
        Keyword::Data(Kind::Msg) => &MSG,
        Keyword::Data(Kind::Rpy) => &RPY,
        Keyword::Data(Kind::Err) => &ERR,
        Keyword::Data(Kind::Ans) => &ANS,
        Keyword::Data(Kind::Nul) => &NUL,
        Keyword::Seq => &SEQ,
    }
}

fn keyword_of(byte: u8) -> Option<Keyword>
    ensures { result ≡ keyword_by byte }
{
    match byte {
        b'M' => Some(Keyword::Data(Kind::Msg)),
        b'R' => Some(Keyword::Data(Kind::Rpy)),
        b'E' => Some(Keyword::Data(Kind::Err)),
        b'A' => Some(Keyword::Data(Kind::Ans)),
        b'N' => Some(Keyword::Data(Kind::Nul)),
        b'S' => Some(Keyword::Seq),
        _ => None,
    }
}

fn digit_turn(max: u32, number: u32, byte: u8) -> PartTurn
    ensures { result ≡ digit_turn_of max number byte }
{
    if !byte.is_ascii_digit() {
        return PartTurn::Dead;
    }
    let next = u64::from(number) * 10 + u64::from(byte - b'0');
    if next > u64::from(max) {
        return PartTurn::Dead;
    }
    PartTurn::Digit(next as u32)
}

pub(crate) fn number_turn(max: u32, end: u8, number: Option<u32>, byte: u8) -> PartTurn
    ensures { result ≡ number_turn_of max end number byte }
{
    match number {
        None => digit_turn(max, 0, byte),
        Some(n) if byte == end => PartTurn::Whole(n),
        Some(0) => PartTurn::Dead,
        Some(n) => digit_turn(max, n, byte),
    }
}

fn octet_turn(fits: bool, byte: u8) -> PartTurn
    ensures { result ≡ octet_turn_of fits byte }
{
    if fits {
        PartTurn::Whole(u32::from(byte))
    } else {
        PartTurn::Dead
    }
}

impl Part {
    fn turn(self, number: Option<u32>, byte: u8) -> PartTurn
        ensures { result ≡ part_turn self number byte }
    {
        match self {
            Part::Octet(octet) => octet_turn(byte == octet, byte),
            Part::Flag => octet_turn(byte == b'*' || byte == b'.', byte),
            Part::Number { max, end } => number_turn(max, end, number, byte),
        }
    }
}

impl Line {
    ghost use Rattle.beep_frame.specs.Line.{line_start, IsTurn, line_turn, begun, after_part, completed, head_of_line, seq_of_line};

    /// A line of which no octet has come.
    pub(crate) fn start() -> Line
        ensures { result ≡ line_start }
    {
        Line {
            keyword: Keyword::Seq,
            at: 0,
            number: None,
            values: [0; MAX_PARTS],
        }
    }

    /// Whether no octet of it has come.
    pub(crate) fn is_at_start(&self) -> bool
        ensures { result ≡ (self.now.at == 0) }
    {
        self.at == 0
    }

    /// Takes the next octet: the line goes on, ends, or can't have it.
    #[tactic(auto, unfolding(crate::specs::Line::line_turn))]
    pub(crate) fn turn(&mut self, byte: u8) -> Found
        ensures { IsTurn result self.new (line_turn self.old byte) }
    {
        if self.at == 0 {
            return self.begin(byte);
        }
        let parts = parts(self.keyword);
        if self.at >= parts.len() {
            return Found::BadLine;
        }
        let turn = parts[self.at].turn(self.number, byte);
        self.follow(turn, parts.len())
    }

    fn begin(&mut self, byte: u8) -> Found
        ensures { IsTurn result self.new (begun self.old byte) }
    {
        match keyword_of(byte) {
            Some(keyword) => {
                self.keyword = keyword;
                self.at = 1;
                Found::More
            }
            None => Found::BadLine,
        }
    }

    fn follow(&mut self, turn: PartTurn, count: usize) -> Found
        requires within { self.old.at < count }
        requires parts { count ≤ MAX_PARTS }
        ensures { IsTurn result self.new (after_part turn self.old count) }
    {
        match turn {
            PartTurn::Digit(number) => {
                self.number = Some(number);
                Found::More
            }
            PartTurn::Whole(value) => self.complete(value, count),
            PartTurn::Dead => Found::BadLine,
        }
    }

    fn complete(&mut self, value: u32, count: usize) -> Found
        requires within { self.old.at < count }
        requires parts { count ≤ MAX_PARTS }
        ensures { IsTurn result self.new (completed self.old value count) }
    {
        self.values[self.at] = value;
        self.at += 1;
        self.number = None;
        if self.at < count {
            return Found::More;
        }
        match self.keyword {
            Keyword::Data(kind) => Found::Head(self.head(kind)),
            Keyword::Seq => Found::Seq(self.seq()),
        }
    }

    /// Its header, where it is one of this kind and whole.
    pub(crate) fn head(&self, kind: Kind) -> Head
        ensures { result ≡ head_of_line kind self.now.values }
    {
        let [_, _, _, _, channel, msgno, more, _, seqno, size, last, _] = self.values;
        let ansno = if kind.is_ans() { last } else { 0 };
        Head {
            kind,
            channel,
            msgno,
            more: more == u32::from(b'*'),
            seqno,
            size,
            ansno,
        }
    }

    fn seq(&self) -> Seq
        ensures { result ≡ seq_of_line self.now.values }
    {
        let [_, _, _, _, channel, ackno, window, ..] = self.values;
        Seq {
            channel,
            ackno,
            window,
        }
    }
}
