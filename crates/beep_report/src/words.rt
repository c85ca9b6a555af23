//! The lines of a report.
ghost use Rattle.std.specs.Prelude.{◌≡◌, ◌++◌, ◌∷◌, [], ◌<◌, take, codes, flat_map, OnOk};
ghost use Rattle.beep_peer.specs.beep_frame.specs.Spelling.{keyword, answer_field};
ghost use Rattle.beep_schedule.specs.Events.{field, end_text};
ghost use Rattle.beep_report.specs.Texts.{start_text, ask_text, give_text, close_text, release_text, answer_text, act_name, channel_text, act_line, emit_text, send_line, drain_line, get_line, hex_digit as hex_of_digit, hex_of, hex_text, end_mark, part_text, take_line, flow_text, total_line, account_lines, still_line};

use crate::answer::Answer;
use crate::put::{put_end, put_field, put_word};
use beep_peer::beep_channel::AskError;
use beep_peer::beep_frame::{
    Kind, MAX_HEADER_LINE, MAX_SEQ_LINE, spell_header_line, spell_seq_line,
};
use beep_peer::beep_inbox::Part;
use beep_peer::beep_octets::{NoMemory, Octets};
use beep_peer::beep_outbox::GiveError;
use beep_peer::beep_speaking::Emit;
use beep_peer::{CloseError, ReleaseError, StartError};
use beep_schedule::{Act, End};
use beep_tally::{Account, Flow};

// ---- answers

fn put_start(out: &mut Octets, cause: StartError) -> Result<(), NoMemory>
    ensures { OnOk result (out.new.octets ≡ out.old.octets ++ start_text cause) }
{
    match cause {
        StartError::Ended => put_word(out, "Ended"),
        StartError::NoGreeting => put_word(out, "NoGreeting"),
        StartError::Closing => put_word(out, "Closing"),
        StartError::NumberTaken => put_word(out, "NumberTaken"),
        StartError::ChannelsFull => put_word(out, "ChannelsFull"),
        StartError::TooManyAsked => put_word(out, "TooManyAsked"),
        StartError::TooLong { size } => {
            put_word(out, "TooLong")?;
            put_field(out, u64::from(size))
        }
        StartError::NoMemory => put_word(out, "NoMemory"),
    }
}

/// Appends what a full outbox holds, and how much it may hold.
fn put_full(out: &mut Octets, queued: u32, limit: u32) -> Result<(), NoMemory>
    ensures { OnOk result (out.new.octets
        ≡ out.old.octets ++ (codes "Full" ++ field queued ++ field limit)) }
{
    put_word(out, "Full")?;
    put_field(out, u64::from(queued))?;
    put_field(out, u64::from(limit))
}

fn put_ask(out: &mut Octets, cause: AskError) -> Result<(), NoMemory>
    ensures { OnOk result (out.new.octets ≡ out.old.octets ++ ask_text cause) }
{
    match cause {
        AskError::Closing => put_word(out, "Closing"),
        AskError::TooManyAsked => put_word(out, "TooManyAsked"),
        AskError::Full { queued, limit } => put_full(out, queued, limit),
        AskError::NoMemory => put_word(out, "NoMemory"),
    }
}

fn put_give(out: &mut Octets, cause: GiveError) -> Result<(), NoMemory>
    ensures { OnOk result (out.new.octets ≡ out.old.octets ++ give_text cause) }
{
    match cause {
        GiveError::Full { queued, limit } => put_full(out, queued, limit),
        GiveError::NoMemory => put_word(out, "NoMemory"),
    }
}

/// Appends a word and a number.
fn put_numbered(out: &mut Octets, word: &str, n: u64) -> Result<(), NoMemory>
    ensures { OnOk result (out.new.octets ≡ out.old.octets ++ (word.now ++ field n)) }
{
    put_word(out, word)?;
    put_field(out, n)
}

fn put_close(out: &mut Octets, cause: CloseError) -> Result<(), NoMemory>
    ensures { OnOk result (out.new.octets ≡ out.old.octets ++ close_text cause) }
{
    match cause {
        CloseError::Busy(number) => put_numbered(out, "Busy", u64::from(number)),
        CloseError::TooManyAsked => put_word(out, "TooManyAsked"),
        CloseError::NoMemory => put_word(out, "NoMemory"),
    }
}

fn put_release(out: &mut Octets, cause: ReleaseError) -> Result<(), NoMemory>
    ensures { OnOk result (out.new.octets ≡ out.old.octets ++ release_text cause) }
{
    match cause {
        ReleaseError::Ended => put_word(out, "Ended"),
        ReleaseError::NoGreeting => put_word(out, "NoGreeting"),
        ReleaseError::Closing => put_word(out, "Closing"),
        ReleaseError::Busy(number) => put_numbered(out, "Busy", u64::from(number)),
        ReleaseError::Unanswered(number) => put_numbered(out, "Unanswered", u64::from(number)),
        ReleaseError::NoMemory => put_word(out, "NoMemory"),
    }
}

fn put_answer(out: &mut Octets, answer: Answer) -> Result<(), NoMemory>
    ensures { OnOk result (out.new.octets ≡ out.old.octets ++ answer_text answer) }
{
    match answer {
        Answer::Done => put_word(out, "ok"),
        Answer::Numbered(number) => put_numbered(out, "ok", number),
        Answer::NoChannel => put_word(out, "NoChannel"),
        Answer::NotOwed => put_word(out, "NotOwed"),
        Answer::Answering => put_word(out, "Answering"),
        Answer::Start(cause) => put_start(out, cause),
        Answer::Ask(cause) => put_ask(out, cause),
        Answer::Give(cause) => put_give(out, cause),
        Answer::Close(cause) => put_close(out, cause),
        Answer::Release(cause) => put_release(out, cause),
    }
}

// ---- lines of events

fn put_act(out: &mut Octets, act: Act) -> Result<(), NoMemory>
    ensures { OnOk result (out.new.octets ≡ out.old.octets ++ act_name act) }
{
    match act {
        Act::Start => put_word(out, " start"),
        Act::Ask => put_word(out, " ask"),
        Act::Reply => put_word(out, " reply"),
        Act::Refuse => put_word(out, " refuse"),
        Act::Answer => put_word(out, " answer"),
        Act::Done => put_word(out, " done"),
        Act::Close => put_word(out, " close"),
        Act::Release => put_word(out, " release"),
    }
}

fn put_channel(out: &mut Octets, act: Act, n: u32) -> Result<(), NoMemory>
    ensures { OnOk result (out.new.octets ≡ out.old.octets ++ channel_text act n) }
{
    match act {
        Act::Release => Ok(()),
        Act::Start | Act::Ask | Act::Reply | Act::Refuse | Act::Answer | Act::Done | Act::Close =>
            put_field(out, u64::from(n)),
    }
}

/// Appends the line of an act.
pub fn put_act_line(
    out: &mut Octets,
    at: End,
    act: Act,
    n: u32,
    answer: Answer,
) -> Result<(), NoMemory>
    ensures { OnOk result (out.new.octets ≡ out.old.octets ++ act_line at act n answer) }
{
    put_end(out, at)?;
    put_act(out, act)?;
    put_channel(out, act, n)?;
    put_word(out, " ")?;
    put_answer(out, answer)?;
    put_word(out, "\n")
}

fn put_emit(out: &mut Octets, emit: &Emit) -> Result<(), NoMemory>
    ensures { OnOk result (out.new.octets ≡ out.old.octets ++ emit_text emit.now) }
{
    match emit {
        Emit::Data(head) => {
            out.reserve(MAX_HEADER_LINE)?;
            spell_header_line(head, out);
            Ok(())
        }
        Emit::Seq(seq) => {
            out.reserve(MAX_SEQ_LINE)?;
            spell_seq_line(seq, out);
            Ok(())
        }
        Emit::Nothing => put_word(out, "nothing"),
    }
}

/// Appends the line of a send.
pub fn put_send_line(out: &mut Octets, at: End, emit: &Emit) -> Result<(), NoMemory>
    ensures { OnOk result (out.new.octets ≡ out.old.octets ++ send_line at emit.now) }
{
    put_end(out, at)?;
    put_word(out, " send ")?;
    put_emit(out, emit)?;
    put_word(out, "\n")
}

/// Appends the line of a send of a drain, where it isn't nothing.
pub fn put_drain_line(out: &mut Octets, at: End, emit: &Emit) -> Result<(), NoMemory>
    ensures { OnOk result (out.new.octets ≡ out.old.octets ++ drain_line at emit.now) }
{
    match emit {
        Emit::Nothing => Ok(()),
        Emit::Data(_) | Emit::Seq(_) => put_send_line(out, at, emit),
    }
}

/// Appends the line of a get.
pub fn put_get_line(out: &mut Octets, at: End, used: u64) -> Result<(), NoMemory>
    ensures { OnOk result (out.new.octets ≡ out.old.octets ++ get_line at used) }
{
    put_end(out, at)?;
    put_word(out, " get")?;
    put_field(out, used)?;
    put_word(out, "\n")
}

fn hex_digit(n: u8) -> u8
    requires { n < 16 }
    ensures { result ≡ hex_of_digit n }
{
    if n < 10 { b'0' + n } else { b'a' + (n - 10) }
}

/// Appends octets by two digits each.
fn put_digits(out: &mut Octets, octets: &[u8]) -> Result<(), NoMemory>
    ensures { OnOk result (out.new.octets ≡ out.old.octets ++ flat_map hex_of octets.now) }
{
    for octet in octets {
        out.extend(&[hex_digit(*octet / 16), hex_digit(*octet % 16)])?;
    }
    Ok(())
}

fn put_hex(out: &mut Octets, octets: &[u8]) -> Result<(), NoMemory>
    ensures { OnOk result (out.new.octets ≡ out.old.octets ++ hex_text octets.now) }
{
    if octets.is_empty() {
        put_word(out, "-")
    } else {
        put_digits(out, octets)
    }
}

fn put_kind(out: &mut Octets, kind: Kind) -> Result<(), NoMemory>
    ensures { OnOk result (out.new.octets ≡ out.old.octets ++ keyword kind) }
{
    match kind {
        Kind::Msg => put_word(out, "MSG"),
        Kind::Rpy => put_word(out, "RPY"),
        Kind::Err => put_word(out, "ERR"),
        Kind::Ans => put_word(out, "ANS"),
        Kind::Nul => put_word(out, "NUL"),
    }
}

fn put_ansno(out: &mut Octets, kind: Kind, ansno: u32) -> Result<(), NoMemory>
    ensures { OnOk result (out.new.octets ≡ out.old.octets ++ answer_field kind ansno) }
{
    match kind {
        Kind::Ans => put_field(out, u64::from(ansno)),
        Kind::Msg | Kind::Rpy | Kind::Err | Kind::Nul => Ok(()),
    }
}

fn put_mark(out: &mut Octets, ended: bool) -> Result<(), NoMemory>
    ensures { OnOk result (out.new.octets ≡ out.old.octets ++ end_mark ended) }
{
    if ended {
        put_word(out, " .")
    } else {
        put_word(out, " *")
    }
}

fn put_part(out: &mut Octets, part: Option<Part>, octets: &[u8]) -> Result<(), NoMemory>
    ensures { OnOk result (out.new.octets ≡ out.old.octets ++ part_text part octets.now) }
{
    let Some(part) = part else {
        return put_word(out, "nothing");
    };
    put_kind(out, part.tag.kind)?;
    put_field(out, part.tag.request)?;
    put_ansno(out, part.tag.kind, part.tag.ansno)?;
    put_word(out, " ")?;
    put_hex(out, front(octets, part.len as usize))?;
    put_mark(out, part.ended)
}

/// The first octets, or all where there are fewer.
fn front(octets: &[u8], count: usize) -> &[u8]
    ensures { result.now ≡ take count octets.now }
{
    if count <= octets.len() {
        &octets[..count]
    } else {
        octets
    }
}

/// Appends the line of a take.
pub fn put_take_line(
    out: &mut Octets,
    at: End,
    n: u32,
    part: Option<Part>,
    octets: &[u8],
) -> Result<(), NoMemory>
    ensures { OnOk result (out.new.octets ≡ out.old.octets ++ take_line at n part octets.now) }
{
    put_end(out, at)?;
    put_word(out, " take")?;
    put_field(out, u64::from(n))?;
    put_word(out, " ")?;
    put_part(out, part, octets)?;
    put_word(out, "\n")
}

// ---- the end of a report

fn put_flow(out: &mut Octets, flow: &Flow) -> Result<(), NoMemory>
    ensures { OnOk result (out.new.octets ≡ out.old.octets ++ flow_text flow.now) }
{
    put_word(out, " given")?;
    put_field(out, flow.given.octets)?;
    put_field(out, flow.given.ends)?;
    put_word(out, " taken")?;
    put_field(out, flow.taken.octets)?;
    put_field(out, flow.taken.ends)?;
    put_word(out, "\n")
}

fn put_total(out: &mut Octets, account: &Account, at: End, flow: &Flow) -> Result<(), NoMemory>
    ensures { OnOk result (out.new.octets
        ≡ out.old.octets ++ total_line account.now at flow.now) }
{
    put_word(out, "total")?;
    put_field(out, u64::from(account.number))?;
    put_field(out, account.life)?;
    put_word(out, " ")?;
    put_end(out, at)?;
    put_flow(out, flow)
}

fn put_account(out: &mut Octets, account: &Account) -> Result<(), NoMemory>
    ensures { OnOk result (out.new.octets ≡ out.old.octets ++ account_lines account.now) }
{
    put_total(out, account, End::A, &account.from_a)?;
    put_total(out, account, End::B, &account.from_b)
}

/// Appends the totals of all lives.
pub fn put_totals(out: &mut Octets, accounts: &[Account]) -> Result<(), NoMemory>
    ensures { OnOk result (out.new.octets
        ≡ out.old.octets ++ flat_map account_lines accounts.now) }
{
    for account in accounts {
        put_account(out, account)?;
    }
    Ok(())
}

/// Appends whether nothing can move.
pub fn put_still(out: &mut Octets, still: bool) -> Result<(), NoMemory>
    ensures { OnOk result (out.new.octets ≡ out.old.octets ++ still_line still) }
{
    if still {
        put_word(out, "still yes\n")
    } else {
        put_word(out, "still no\n")
    }
}
