//! What an act is answered: a word, and the numbers that belong to it.

use crate::stop::Stop;
use beep_session::beep_channel::AskError;
use beep_session::beep_frame::{Kind, Rule};
use beep_session::beep_outbox::GiveError;
use beep_session::{CloseError, ReleaseError, Settled, StartError};
use itoa::Buffer;

/// What an act is answered.
#[derive(Clone, Copy, Debug)]
pub enum Answer {
    /// A word alone.
    Word(&'static str),
    /// A number alone.
    Number(u64),
    /// A word and a number.
    One(&'static str, u64),
    /// A word and two numbers.
    Two(&'static str, u64, u64),
}

impl Answer {
    /// The line is no act, or asks for what a program mustn't ask.
    pub fn usage() -> Answer {
        Answer::Word("usage")
    }

    /// Out of memory.
    pub fn no_memory() -> Answer {
        Answer::Word("no memory")
    }

    /// `yes` or `no`.
    pub fn of_test(is: bool) -> Answer {
        Answer::Word(if is { "yes" } else { "no" })
    }

    /// Notes the answer, after a comma where something was noted.
    pub fn note(self, notes: &mut String) -> Result<(), Stop> {
        if !notes.is_empty() {
            notes.push_str(", ")?;
        }
        match self {
            Answer::Word(word) => notes.push_str(word)?,
            Answer::Number(number) => push_number(notes, number)?,
            Answer::One(word, number) => push_numbered(notes, word, number)?,
            Answer::Two(word, first, second) => {
                push_numbered(notes, word, first)?;
                push_numbered(notes, "", second)?;
            }
        }
        Ok(())
    }
}

/// A number in decimal after what was noted.
pub fn push_number(notes: &mut String, number: u64) -> Result<(), Stop> {
    let mut buffer = Buffer::new();
    notes.push_str(buffer.format(number))?;
    Ok(())
}

/// A word, a space and a number after what was noted.
pub fn push_numbered(notes: &mut String, word: &str, number: u64) -> Result<(), Stop> {
    notes.push_str(word)?;
    notes.push_str(" ")?;
    push_number(notes, number)
}

/// The number that a word says, or 0.
pub fn number_in(word: Option<&str>) -> u32 {
    match word {
        Some(word) => word.parse().unwrap_or(0),
        None => 0,
    }
}

/// What a start is answered.
pub fn of_start(answer: Result<(), StartError>) -> Answer {
    match answer {
        Ok(()) => Answer::Word("ok"),
        Err(StartError::Ended) => Answer::Word("Ended"),
        Err(StartError::NoGreeting) => Answer::Word("NoGreeting"),
        Err(StartError::Closing) => Answer::Word("Closing"),
        Err(StartError::NumberTaken) => Answer::Word("NumberTaken"),
        Err(StartError::ChannelsFull) => Answer::Word("ChannelsFull"),
        Err(StartError::TooManyAsked) => Answer::Word("TooManyAsked"),
        Err(StartError::TooLong { size }) => Answer::One("TooLong", u64::from(size)),
        Err(StartError::NoMemory) => Answer::no_memory(),
    }
}

/// What a release is answered.
pub fn of_release(answer: Result<(), ReleaseError>) -> Answer {
    match answer {
        Ok(()) => Answer::Word("ok"),
        Err(ReleaseError::Ended) => Answer::Word("Ended"),
        Err(ReleaseError::NoGreeting) => Answer::Word("NoGreeting"),
        Err(ReleaseError::Closing) => Answer::Word("Closing"),
        Err(ReleaseError::Busy(number)) => Answer::One("Busy", u64::from(number)),
        Err(ReleaseError::Unanswered(number)) => Answer::One("Unanswered", u64::from(number)),
        Err(ReleaseError::NoMemory) => Answer::no_memory(),
    }
}

/// What a close is answered.
pub fn of_close(answer: Result<(), CloseError>) -> Answer {
    match answer {
        Ok(()) => Answer::Word("ok"),
        Err(CloseError::Busy(asked)) => Answer::One("Busy", u64::from(asked)),
        Err(CloseError::TooManyAsked) => Answer::Word("TooManyAsked"),
        Err(CloseError::NoMemory) => Answer::no_memory(),
    }
}

/// What a request is answered: its position, or why it isn't given.
pub fn of_ask(answer: Result<u64, AskError>) -> Answer {
    match answer {
        Ok(position) => Answer::One("ok", position),
        Err(AskError::Closing) => Answer::Word("Closing"),
        Err(AskError::TooManyAsked) => Answer::Word("TooManyAsked"),
        Err(AskError::Full { queued, limit }) => {
            Answer::Two("Full", u64::from(queued), u64::from(limit))
        }
        Err(AskError::NoMemory) => Answer::no_memory(),
    }
}

/// What a message of a reply is answered that isn't given.
pub fn of_give_error(error: GiveError) -> Answer {
    match error {
        GiveError::Full { queued, limit } => {
            Answer::Two("Full", u64::from(queued), u64::from(limit))
        }
        GiveError::NoMemory => Answer::no_memory(),
    }
}

/// As what a message of channel zero was settled.
pub fn of_settled(settled: &Settled) -> Answer {
    match settled {
        Settled::Greeted => Answer::Word("greeted"),
        Settled::Denied(code) => Answer::One("denied", u64::from(*code)),
        Settled::Begun { number, chosen, .. } => two("begun", *number, *chosen),
        Settled::NotBegun { number, code } => two("not begun", *number, u32::from(*code)),
        Settled::PeerStarts { number, offer } => two("peer starts", *number, *offer),
        Settled::PeerRefused { code } => Answer::One("peer refused", u64::from(*code)),
        Settled::PeerCloses { number, code } => two("peer closes", *number, u32::from(*code)),
        Settled::Closed { number } => Answer::One("closed", u64::from(*number)),
        Settled::NotClosed { number, code } => two("not closed", *number, u32::from(*code)),
        Settled::Stale(Some(code)) => Answer::One("stale", u64::from(*code)),
        Settled::Stale(None) => Answer::Word("stale"),
        Settled::Released => Answer::Word("released"),
    }
}

fn two(word: &'static str, first: u32, second: u32) -> Answer {
    Answer::Two(word, u64::from(first), u64::from(second))
}

/// The keyword of a kind.
pub fn kind_name(kind: Kind) -> &'static str {
    match kind {
        Kind::Msg => "MSG",
        Kind::Rpy => "RPY",
        Kind::Err => "ERR",
        Kind::Ans => "ANS",
        Kind::Nul => "NUL",
    }
}

/// How a case writes a rule: its name as docs/RULES.md has it.
pub fn rule_name(rule: Rule) -> &'static str {
    match rule {
        Rule::Header => "Header",
        Rule::Trailer => "Trailer",
        Rule::Size => "Size",
        Rule::NoGreeting => "NoGreeting",
        Rule::NoSuchChannel => "NoSuchChannel",
        Rule::NotAlone => "NotAlone",
        Rule::NulShape => "NulShape",
        Rule::NotContinued => "NotContinued",
        Rule::KindChanged => "KindChanged",
        Rule::NumberInUse => "NumberInUse",
        Rule::NeverAsked => "NeverAsked",
        Rule::EarlyReply => "EarlyReply",
        Rule::AlreadyAnswered => "AlreadyAnswered",
        Rule::OutOfTurn => "OutOfTurn",
        Rule::NulNotAfterAns => "NulNotAfterAns",
        Rule::NulTooSoon => "NulTooSoon",
        Rule::Sequence => "Sequence",
        Rule::Long => "Long",
        Rule::Window => "Window",
        Rule::EmptyAnswer => "EmptyAnswer",
        Rule::TooManyRequests => "TooManyRequests",
        Rule::TooManyAnswers => "TooManyAnswers",
        Rule::BadAck => "BadAck",
        Rule::ZeroReply => "ZeroReply",
    }
}
