//! Acts that stand for several lines, which most cases begin with.

use session_lines::{Stop, Words, push_number, push_numbered};
use std::alloc::Global;

/// Both greetings have passed between B and a peer that is played by hand.
const OPENS: &str = "say -> RPY 0 0 . 0 103\nsays RPY 0 <greeting /> -> greeted\n";

/// Both greetings have passed between A and B, and channel 1 of A lives.
const MEETS: &str = "A say -> RPY 0 0 . 0 103\nB say -> RPY 0 0 . 0 103\nA get -> greeted\n\
     B get -> greeted\nA start 1\nA say -> MSG 0 1 . 103 108\nB get -> peer starts 1 0\n\
     B say -> RPY 0 1 . 103 82\nA get -> begun 1 0\nA say -> nothing\nB say -> nothing\n";

/// A rule is broken.
const BREAKS: &str = "frame MSG 999 0 . 0 0 - -> NoSuchChannel header\n";

/// A SEQ with which all of channel zero goes out.
const WIDE: &str = "seq SEQ 0 0 2147483647 -> more\n";

/// How many frames of the window's size a message of channel zero has that is too long, after the
/// one that fills the window in which the greeting was.
const WHOLE_FRAMES: u32 = 15;

/// The lines for which an act stands, or none: `opens`, `meets`, `breaks`; `begins NUMBER`, the
/// peer's channel lives; `begun NUMBER`, an own one does, whose start is the first own request;
/// `fills COUNT`, so many channels of the peer live; `stale COUNT`, so many own closes wait whose
/// lives have ended; `asked NUMBER COUNT`, so many own requests without an octet are given; `long
/// KIND NUMBER`, all but the last frame of a message of channel zero that is too long is heard.
pub(crate) fn lines_of(alloc: Global, act: &str) -> Result<String, Stop> {
    let words = Words::of(act);
    let mut lines = String::new(alloc);
    match words.act {
        "opens" => lines.push_str(OPENS)?,
        "meets" => lines.push_str(MEETS)?,
        "breaks" => lines.push_str(BREAKS)?,
        "begins" => push_begins(&mut lines, words.number)?,
        "begun" => push_begun(&mut lines, words.number)?,
        "fills" => push_fills(&mut lines, words.number)?,
        "stale" => push_stale(&mut lines, words.number)?,
        "asked" => push_asked(&mut lines, words.number, words.len)?,
        "long" => push_long(&mut lines, act.strip_prefix("long ").unwrap_or(""))?,
        _ => {}
    }
    Ok(lines)
}

fn push_begins(lines: &mut String, number: u32) -> Result<(), Stop> {
    push_numbered(lines, "starts", u64::from(number))?;
    push_numbered(lines, " -> peer starts", u64::from(number))?;
    lines.push_str(" 0\nall\n")?;
    Ok(())
}

fn push_begun(lines: &mut String, number: u32) -> Result<(), Stop> {
    push_numbered(lines, "start", u64::from(number))?;
    lines.push_str("\nall\nsays RPY 1 <profile uri='http://beep.example/pair' />")?;
    push_numbered(lines, " -> begun", u64::from(number))?;
    lines.push_str(" 0\n")?;
    Ok(())
}

fn push_fills(lines: &mut String, count: u32) -> Result<(), Stop> {
    lines.push_str(WIDE)?;
    for i in 0..count {
        push_begins(lines, i.saturating_mul(2).saturating_add(1))?;
    }
    Ok(())
}

/// Channel 1 begins, both ends close it, and the peer's close is granted, again and again.
fn push_stale(lines: &mut String, count: u32) -> Result<(), Stop> {
    lines.push_str(WIDE)?;
    for _ in 0..count {
        push_begins(lines, 1)?;
        lines.push_str("close 1\ncloses 1 -> peer closes 1 200\nall\n")?;
    }
    Ok(())
}

fn push_asked(lines: &mut String, number: u32, count: u32) -> Result<(), Stop> {
    for i in 0..count {
        push_numbered(lines, "ask", u64::from(number))?;
        lines.push_str(" 0 -> ok ")?;
        push_number(lines, u64::from(i))?;
        lines.push_str("\n")?;
    }
    Ok(())
}

/// The first frame has what the greeting left of the window.
fn push_long(lines: &mut String, message: &str) -> Result<(), Stop> {
    push_long_frame(lines, message, " * 4044 -> more\nall\n")?;
    for _ in 0..WHOLE_FRAMES {
        push_long_frame(lines, message, " * 4096 -> more\nall\n")?;
    }
    Ok(())
}

fn push_long_frame(lines: &mut String, message: &str, rest: &str) -> Result<(), Stop> {
    lines.push_str("part ")?;
    lines.push_str(message)?;
    lines.push_str(rest)?;
    Ok(())
}
