//! The messages that an end has to have given by its log.
ghost use Rattle.beep_talk.specs.Plan.{HasAllowedUris};
ghost use Rattle.beep_talk.specs.Plain.{plain_plan};

use crate::frames::octets_of;
use beep_frame::Kind;
use beep_octets::{NoMemory, Octets};
use beep_record::Entry;
use beep_script::script;
use beep_shown::Shown;
use beep_talk::{Message, Plan};
use case_lines::{Bad, put_number, put_word};
use std::alloc::Global;

/// The first life of a channel.
const FIRST: usize = 1;

/// The frames that carry a message whole.
const NAMES: [&str; 9] = [
    "offers", "greeting", "start", "chosen", "close", "ok", "release", "ready", "line",
];

/// Appends the messages of the first life of a channel: of each its kind, the position of its
/// request, an answer's number, and the name of a frame that says the same, or `-` for no octet.
pub(crate) fn put_script(
    alloc: Global,
    plan: &Plan,
    log: &[Entry],
    channel: u32,
    out: &mut Octets,
) -> Result<(), Bad>
    requires { HasAllowedUris (plain_plan plan.now) }
{
    let session = Shown::of(alloc, log)?;
    for message in &script(alloc, plan, channel, FIRST, session.journal())? {
        put_message(alloc, message, out)?;
    }
    Ok(())
}

fn put_message(alloc: Global, message: &Message, out: &mut Octets) -> Result<(), NoMemory> {
    put_word(keyword(message.tag.kind), out)?;
    put_number(message.tag.request, out)?;
    if message.tag.kind.is_ans() {
        put_number(u64::from(message.tag.ansno), out)?;
    }
    put_word(name_of(alloc, message.content.as_slice())?, out)
}

fn keyword(kind: Kind) -> &'static str {
    match kind {
        Kind::Msg => "MSG",
        Kind::Rpy => "RPY",
        Kind::Err => "ERR",
        Kind::Ans => "ANS",
        Kind::Nul => "NUL",
    }
}

/// The name of a frame that carries this.
fn name_of(alloc: Global, content: &[u8]) -> Result<&'static str, NoMemory> {
    if content.is_empty() {
        return Ok("-");
    }
    for name in NAMES {
        if carries(alloc, name, content)? {
            return Ok(name);
        }
    }
    Ok("another")
}

/// Whether the frame of a name carries this.
fn carries(alloc: Global, name: &str, content: &[u8]) -> Result<bool, NoMemory> {
    let Some(frame) = octets_of(alloc, name)? else {
        return Ok(false);
    };
    let Ok(text) = str::from_utf8(frame.as_slice()) else {
        return Ok(false);
    };
    let Some((_header, rest)) = text.split_once("\r\n") else {
        return Ok(false);
    };
    Ok(rest.strip_suffix("END\r\n").map(|it| it.as_bytes()) == Some(content))
}
