//! The lines of a report.
ghost use Rattle.std.specs.Prelude.{◌≡◌, ◌++◌, ◌∷◌, [], length, codes, OnOk, OnErr};
ghost use Rattle.std.specs.Fmt.{decimal};
ghost use Rattle.beep_frame.specs.Spelling.{header_line, seq_line};
ghost use Rattle.beep_journal.specs.Texts.{side_mark};

use beep_frame::{Head, MAX_HEADER_LINE, MAX_SEQ_LINE, Seq, spell_header_line, spell_seq_line};
use beep_history::Side;
use beep_octets::{NoMemory, Octets};
use itoa::Buffer;

/// The octets of a line beside those of its header or SEQ: a mark of two, and LF.
const REST_OF_LINE: usize = 3;

/// What a line begins with.
fn mark(side: Side) -> &'static [u8]
    ensures text { result.now ≡ side_mark side }
    ensures len { length result.now ≡ 2 }
{
    match side {
        Side::Received => b"< ",
        Side::Sent => b"> ",
    }
}

/// Appends the line of a frame.
pub(crate) fn put_frame_line(side: Side, head: &Head, out: &mut Octets) -> Result<(), NoMemory>
    ensures appended { OnOk result (out.new.octets
        ≡ out.old.octets ++ (side_mark side ++ header_line head.now ++ 10 ∷ [])) }
    ensures err { OnErr result (out.new.octets ≡ out.old.octets) }
{
    out.reserve(MAX_HEADER_LINE + REST_OF_LINE)?;
    out.extend_spare(mark(side));
    spell_header_line(head, out);
    out.extend_spare(b"\n");
    Ok(())
}

/// Appends the line of a SEQ.
pub(crate) fn put_seq_line(side: Side, seq: &Seq, out: &mut Octets) -> Result<(), NoMemory>
    ensures appended { OnOk result (out.new.octets
        ≡ out.old.octets ++ (side_mark side ++ seq_line seq.now ++ 10 ∷ [])) }
    ensures err { OnErr result (out.new.octets ≡ out.old.octets) }
{
    out.reserve(MAX_SEQ_LINE + REST_OF_LINE)?;
    out.extend_spare(mark(side));
    spell_seq_line(seq, out);
    out.extend_spare(b"\n");
    Ok(())
}

/// Appends the last line.
pub(crate) fn put_summary(
    arrived: u128,
    written: u128,
    left: u64,
    out: &mut Octets,
) -> Result<(), NoMemory>
    ensures appended { OnOk result (out.new.octets ≡ out.old.octets
        ++ (codes "frames " ++ decimal arrived ++ codes " " ++ decimal written
        ++ codes " left " ++ decimal left ++ 10 ∷ [])) }
    ensures err { OnErr result (out.new.octets ≡ out.old.octets) }
{
    let mut line = Octets::new(out.alloc());
    line.extend(b"frames ")?;
    line.extend(Buffer::new().format(arrived).as_bytes())?;
    line.extend(b" ")?;
    line.extend(Buffer::new().format(written).as_bytes())?;
    line.extend(b" left ")?;
    line.extend(Buffer::new().format(left).as_bytes())?;
    line.extend(b"\n")?;
    out.extend(line.as_slice())
}
