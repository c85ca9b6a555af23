//! Writing frames (RFC 3080, section 2.2.1; RFC 3081, section 3.1) in room that was taken before.
ghost use Rattle.std.specs.Prelude.{◌≡◌, ◌+◌, ◌≤◌, ◌++◌, [], ◌∷◌, length};
ghost use Rattle.beep_octets.specs.Held.{GrowsBy};
ghost use Rattle.beep_octets.specs.declared.front.TheConstants.{FRONT_MAX};
ghost use Rattle.beep_frame.specs.Frame.{framed, seq_frame};
ghost use Rattle.beep_frame.specs.Spelling.{keyword, field, continuation, answer_field, line_end, header_line, header, seq_line, trailer, spelling};

use crate::head::Head;
use crate::kind::Kind;
use crate::seq::Seq;
use beep_octets::{FRONT_MAX, Front, Octets};

/// The octets of a space and a number of 32 bits, at most.
const MAX_FIELD: usize = 11;

/// The octets of a header without CRLF, at most: keyword, five fields, continuation and space.
pub const MAX_HEADER_LINE: usize = 60;

/// The octets of a header with CRLF, at most.
pub const MAX_HEADER: usize = 62;

/// The octets of a data frame beside its payload, at most: its header, and 5 of its trailer.
pub const SPELL_ROOM: usize = 67;

/// The octets of a SEQ without CRLF, at most: its keyword and three fields.
pub const MAX_SEQ_LINE: usize = 36;

/// The octets of a SEQ with CRLF, at most.
pub const SEQ_ROOM: usize = 38;

/// Appends the spelling of a data frame. It takes no memory.
pub fn spell(head: &Head, payload: &[u8], out: &mut Octets)
    requires size { length payload.now ≡ head.now.size }
    requires room { length payload.now + SPELL_ROOM ≤ out.old.spare }
    ensures appended { out.new.octets ≡ out.old.octets ++ spelling (framed head.now payload.now) }
    ensures room { GrowsBy out.old out.new (length (spelling (framed head.now payload.now))) }
    ensures within { length (spelling (framed head.now payload.now))
        ≤ length payload.now + SPELL_ROOM }
{
    let mut line = Front::new();
    line.put_few(b"\r\n");
    put_header_line(&mut line, head);
    out.extend_spare(line.as_slice());
    out.extend_spare(payload);
    out.push_few(b"END\r\n");
}

/// Appends the spelling of a SEQ. It takes no memory.
pub fn spell_seq(seq: &Seq, out: &mut Octets)
    requires room { SEQ_ROOM ≤ out.old.spare }
    ensures appended { out.new.octets ≡ out.old.octets ++ spelling (seq_frame seq.now) }
    ensures room { GrowsBy out.old out.new (length (spelling (seq_frame seq.now))) }
    ensures within { length (spelling (seq_frame seq.now)) ≤ SEQ_ROOM }
{
    spell_seq_line(seq, out);
    out.push_few(b"\r\n");
}

/// Appends a header's text without CRLF. It takes no memory.
pub fn spell_header_line(head: &Head, out: &mut Octets)
    requires room { MAX_HEADER_LINE ≤ out.old.spare }
    ensures appended { out.new.octets ≡ out.old.octets ++ header_line head.now }
    ensures room { GrowsBy out.old out.new (length (header_line head.now)) }
    ensures within { length (header_line head.now) ≤ MAX_HEADER_LINE }
{
    let mut line = Front::new();
    put_header_line(&mut line, head);
    out.extend_spare(line.as_slice());
}

/// Puts a header's text without CRLF before its CRLF or nothing.
#[tactic(auto, unfolding(crate::specs::Spelling::header_line))]
#[inline(always)]
fn put_header_line(line: &mut Front, head: &Head)
    requires { length line.old ≤ 2 }
    ensures put { line.new ≡ header_line head.now ++ line.old }
    ensures within { length (header_line head.now) ≤ MAX_HEADER_LINE }
{
    put_answer(line, head.kind, head.ansno);
    put_field(line, head.size);
    put_field(line, head.seqno);
    put_continuation(line, head.more);
    put_field(line, head.msgno);
    put_field(line, head.channel);
    line.put_few(keyword_of(head.kind));
}

/// Appends a SEQ's text without CRLF. It takes no memory.
pub fn spell_seq_line(seq: &Seq, out: &mut Octets)
    requires room { MAX_SEQ_LINE ≤ out.old.spare }
    ensures appended { out.new.octets ≡ out.old.octets ++ seq_line seq.now }
    ensures room { GrowsBy out.old out.new (length (seq_line seq.now)) }
    ensures within { length (seq_line seq.now) ≤ MAX_SEQ_LINE }
{
    let mut line = Front::new();
    put_seq_line(&mut line, seq);
    out.extend_spare(line.as_slice());
}

/// Puts a SEQ's text without CRLF before nothing.
#[tactic(auto, unfolding(crate::specs::Spelling::seq_line))]
fn put_seq_line(line: &mut Front, seq: &Seq)
    requires { line.old ≡ [] }
    ensures put { line.new ≡ seq_line seq.now }
    ensures within { length (seq_line seq.now) ≤ MAX_SEQ_LINE }
{
    put_field(line, seq.window);
    put_field(line, seq.ackno);
    put_field(line, seq.channel);
    line.put_few(b"SEQ");
}

fn keyword_of(kind: Kind) -> &'static [u8]
    ensures text { result.now ≡ keyword kind }
    ensures len { length result.now ≡ 3 }
{
    match kind {
        Kind::Msg => b"MSG",
        Kind::Rpy => b"RPY",
        Kind::Err => b"ERR",
        Kind::Ans => b"ANS",
        Kind::Nul => b"NUL",
    }
}

/// Puts a space and a number, which has at most ten digits.
fn put_field(line: &mut Front, number: u32)
    requires { length line.old + MAX_FIELD ≤ FRONT_MAX }
    ensures put { line.new ≡ field number ++ line.old }
    ensures within { length (field number) ≤ MAX_FIELD }
{
    line.put_number(number);
    line.put(b' ');
}

fn put_continuation(line: &mut Front, more: bool)
    requires { length line.old + 2 ≤ FRONT_MAX }
    ensures { line.new ≡ 32 ∷ continuation more ∷ line.old }
{
    line.put(if more { b'*' } else { b'.' });
    line.put(b' ');
}

fn put_answer(line: &mut Front, kind: Kind, ansno: u32)
    requires { length line.old + MAX_FIELD ≤ FRONT_MAX }
    ensures put { line.new ≡ answer_field kind ansno ++ line.old }
    ensures within { length (answer_field kind ansno) ≤ MAX_FIELD }
{
    match kind {
        Kind::Ans => put_field(line, ansno),
        Kind::Msg | Kind::Rpy | Kind::Err | Kind::Nul => {}
    }
}
