//! Texts that are written into room that was taken before.
ghost use Rattle.std.specs.Prelude.{◌≡◌, ◌+◌, ◌%◌, ◌≤◌, ◌++◌, [], ◌∷◌, length};
ghost use Rattle.std.specs.Fmt.{decimal};
ghost use Rattle.beep_octets.specs.Held.{GrowsBy, KeepsRoom};
ghost use Rattle.beep_show.specs.Texts.{idle_line, refused_line, rule_name, totals_line, rule_line, broken_line, written_line};

use beep_frame::Rule;
use beep_octets::Octets;
use itoa::Buffer;

/// The octets of a number of 64 bits in decimal, at most.
const NUMBER_ROOM: usize = 20;

/// The octets of a rule's name, at most.
const NAME_ROOM: usize = 16;

/// The octets of a last line, at most.
pub const LAST_ROOM: usize = 64;

/// Appends a number in decimal, where it finds room.
fn append_number(out: &mut Octets, n: u64)
    ensures appended { NUMBER_ROOM ≤ out.old.spare → out.new.octets ≡ out.old.octets ++ decimal n }
    ensures used { GrowsBy out.old out.new NUMBER_ROOM }
    ensures room { KeepsRoom out.old out.new }
{
    let mut buffer = Buffer::new();
    out.extend_within(buffer.format(n).as_bytes());
}

/// Appends a label and a number, where they find room.
fn append_labelled(out: &mut Octets, label: &[u8], n: u64)
    ensures appended { length label.now + NUMBER_ROOM ≤ out.old.spare
        → out.new.octets ≡ (out.old.octets ++ label.now) ++ decimal n }
    ensures used { GrowsBy out.old out.new (length label.now + NUMBER_ROOM) }
{
    out.extend_within(label);
    append_number(out, n);
}

/// Appends a line of a label and a number, where it finds room.
pub fn append_numbered(out: &mut Octets, label: &[u8], n: u64)
    ensures appended { length label.now + NUMBER_ROOM + 1 ≤ out.old.spare
        → out.new.octets ≡ (out.old.octets ++ label.now ++ decimal n) ++ 10 ∷ [] }
{
    append_labelled(out, label, n);
    out.extend_within(b"\n");
}

pub(crate) fn append_totals(out: &mut Octets, frames: u64, octets: u64)
    ensures appended { LAST_ROOM ≤ out.old.spare
        → out.new.octets ≡ out.old.octets ++ totals_line frames octets }
{
    append_labelled(out, b"frames ", frames);
    append_numbered(out, b" octets ", octets);
}

pub fn append_broken(out: &mut Octets, rule: Rule, place: u64)
    ensures appended { LAST_ROOM ≤ out.old.spare
        → out.new.octets ≡ out.old.octets ++ broken_line rule place }
{
    append_rule(out, b"! broken ", rule, place);
}

pub fn append_written(out: &mut Octets, rule: Rule, place: u64)
    ensures appended { LAST_ROOM ≤ out.old.spare
        → out.new.octets ≡ out.old.octets ++ written_line rule place }
{
    append_rule(out, b"! written ", rule, place);
}

/// Appends the line of so many quiet reads, where it finds room.
pub fn append_idle(out: &mut Octets, reads: u32)
    ensures appended { LAST_ROOM ≤ out.old.spare
        → out.new.octets ≡ out.old.octets ++ idle_line reads }
{
    append_numbered(out, b"! idle ", u64::from(reads));
}

/// Appends the line of a refusal, where it finds room: of its code the last three digits.
pub fn append_refused(out: &mut Octets, code: u16)
    ensures appended { LAST_ROOM ≤ out.old.spare
        → out.new.octets ≡ out.old.octets ++ refused_line code }
{
    let digits = [
        last_digit(code / 100),
        last_digit(code / 10),
        last_digit(code),
    ];
    out.extend_within(b"! refused ");
    out.extend_within(&digits);
    out.extend_within(b"\n");
}

fn last_digit(n: u16) -> u8
    ensures { result ≡ 48 + n % 10 }
{
    b'0' + (n % 10) as u8
}

/// Appends a line of a label, a rule and a place, where it finds room.
fn append_rule(out: &mut Octets, label: &[u8], rule: Rule, place: u64)
    ensures appended { length label.now + NAME_ROOM + NUMBER_ROOM + 2 ≤ out.old.spare
        → out.new.octets ≡ out.old.octets ++ rule_line label.now rule place }
{
    out.extend_within(label);
    out.extend_within(name_of(rule).as_bytes());
    append_numbered(out, b" ", place);
}

/// The name that a rule is printed by.
fn name_of(rule: Rule) -> &'static str
    ensures name { result.now ≡ rule_name rule }
    ensures short { length result.now ≤ NAME_ROOM }
{
    match rule {
        Rule::Header => "Header",
        Rule::Trailer => "Trailer",
        Rule::Size => "Size",
        Rule::NoGreeting => "NoGreeting",
        Rule::NoSuchChannel => "NoSuchChannel",
        Rule::NotAlone => "NotAlone",
        Rule::NulShape => "NulShape",
        Rule::NotContinued => "NotContinued",
        Rule::KindChanged => "KindChanged",
        Rule::NumberInUse => "NumberInUse",
        Rule::NeverAsked => "NeverAsked",
        Rule::EarlyReply => "EarlyReply",
        Rule::AlreadyAnswered => "AlreadyAnswered",
        Rule::OutOfTurn => "OutOfTurn",
        Rule::NulNotAfterAns => "NulNotAfterAns",
        Rule::NulTooSoon => "NulTooSoon",
        Rule::Sequence => "Sequence",
        Rule::Long => "Long",
        Rule::Window => "Window",
        Rule::EmptyAnswer => "EmptyAnswer",
        Rule::TooManyRequests => "TooManyRequests",
        Rule::TooManyAnswers => "TooManyAnswers",
        Rule::BadAck => "BadAck",
        Rule::ZeroReply => "ZeroReply",
    }
}
