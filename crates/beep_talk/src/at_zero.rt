//! What an end has to say on channel zero: the messages that are listed, and the answers that
//! aren't.
ghost use Rattle.std.specs.Prelude.{◌≡◌};
ghost use Rattle.beep_mgmt.specs.Form.{form_of};
ghost use Rattle.beep_talk.specs.Plain.{plain_zero, plain_answer};
ghost use Rattle.beep_talk.specs.AtZero.{kind_of, answer_message, zero_message};

use crate::words::Words;
use beep_frame::{Kind, Tag};
use beep_mgmt::Mgmt;

/// A message of channel zero: what its octets are marked with, and what it says.
#[derive(Drop)]
pub struct ZeroMessage {
    /// What each octet and the end are marked with.
    pub tag: Tag,
    /// What it says.
    pub words: Words,
}

/// An answer to the peer's request at a position that isn't listed yet.
#[derive(Drop)]
pub struct OwedAnswer {
    /// The position of the request.
    pub position: usize,
    /// What it says.
    pub words: Words,
    /// Of an `ok`, the number of the close that it grants.
    pub closes: Option<u32>,
}

/// What is listed, and the answers that aren't, in the order of their requests.
#[derive(Drop)]
pub struct Desk {
    /// The messages that are listed.
    pub listed: Vec<ZeroMessage>,
    /// The answers that aren't.
    pub owed: Vec<OwedAnswer>,
}

/// A message of this kind to the request at a position, or as that request.
pub fn zero_message(kind: Kind, position: usize, words: Words) -> ZeroMessage
    ensures { plain_zero result ≡ zero_message kind position words }
{
    ZeroMessage {
        tag: Tag {
            kind,
            request: position as u64,
            ansno: 0,
        },
        words,
    }
}

/// The kind of a reply that says this.
pub fn kind_of(form: &Mgmt) -> Kind
    ensures { result ≡ kind_of (form_of form.now) }
{
    match form {
        Mgmt::Fault { .. } => Kind::Err,
        Mgmt::Greeting { .. }
        | Mgmt::Start { .. }
        | Mgmt::Chosen { .. }
        | Mgmt::Close { .. }
        | Mgmt::Okay => Kind::Rpy,
    }
}

/// What an end gives to channel zero for an answer that it owes.
pub fn answer_message(answer: OwedAnswer) -> ZeroMessage
    ensures { plain_zero result ≡ answer_message (plain_answer answer) }
{
    let kind = kind_of(answer.words.form());
    zero_message(kind, answer.position, answer.words)
}
