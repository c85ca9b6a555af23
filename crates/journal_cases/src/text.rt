//! The words of a story: sides, keywords and SEQs.

use beep_frame::{Kind, Seq};
use beep_history::Side;
use case_lines::{Bad, number_of};

/// The first word of a text, and what stands after it.
pub(crate) fn first_word(text: &str) -> (&str, &str) {
    match text.split_once(' ') {
        Some(both) => both,
        None => (text, ""),
    }
}

pub(crate) fn side_of(word: &str) -> Result<Side, Bad> {
    match word {
        "R" => Ok(Side::Received),
        "S" => Ok(Side::Sent),
        _ => Err(Bad::Field),
    }
}

pub(crate) fn kind_of(word: &str) -> Result<Kind, Bad> {
    match word {
        "MSG" => Ok(Kind::Msg),
        "RPY" => Ok(Kind::Rpy),
        "ERR" => Ok(Kind::Err),
        "ANS" => Ok(Kind::Ans),
        "NUL" => Ok(Kind::Nul),
        _ => Err(Bad::Field),
    }
}

/// The SEQ of a channel, an ackno and a window.
pub(crate) fn seq_of(text: &str) -> Result<Seq, Bad> {
    let (channel, rest) = first_word(text);
    let (ackno, window) = first_word(rest);
    Ok(Seq {
        channel: number_of(channel)?,
        ackno: number_of(ackno)?,
        window: number_of(window)?,
    })
}
