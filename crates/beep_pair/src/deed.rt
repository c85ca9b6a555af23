//! The acts of an end, by their names.
ghost use Rattle.std.specs.Prelude.{◌≡◌, ◌<◌, true, length, IfOk, OnOk};
ghost use Rattle.beep_schedule.specs.declared.event.Act.{Act as ActValue};
ghost use Rattle.beep_two_sessions.specs.beep_decide.specs.Numbers.{may_start};
ghost use Rattle.beep_two_sessions.specs.beep_answering.specs.Sent.{is_uri};
ghost use Rattle.beep_two_sessions.specs.beep_session.specs.Lawfully.{KeepsUpright};
ghost use Rattle.beep_pair.specs.Acts.{pair_uri};
ghost use Rattle.beep_pair.specs.Sessions.{IsReady, Acts, acted, is_given as was_given};

use crate::acts::{answer, ask, close, done, refuse, release, reply, start};
use beep_report::Answer;
use beep_report::beep_tally::Accounts;
use beep_schedule::{Act, End};
use beep_two_sessions::beep_chars::Text;
use beep_two_sessions::beep_octets::NoMemory;
use beep_two_sessions::beep_session::Session;
use std::alloc::Global;

/// What an end does: its act, the channel, and the octets of its message.
#[derive(Clone, Copy)]
pub(crate) struct Deed {
    pub(crate) at: End,
    pub(crate) act: Act,
    pub(crate) channel: u32,
    pub(crate) len: u32,
}

/// An end does something, with this message.
fn answered(
    alloc: Global,
    session: &mut Session,
    act: Act,
    n: u32,
    octets: &[u8],
    uri: &Text,
) -> Result<Answer, NoMemory>
    requires ready { IsReady session.old }
    requires may { act ≡ ActValue.Start → may_start session.old.role n ≡ true }
    requires some { act ≡ ActValue.Answer → 0 < length octets.now }
    requires uri { uri.now ≡ pair_uri }
    requires valid { is_uri uri.now ≡ true }
    ensures answered { IfOk result (Acts act n octets.now session.old session.new) }
    ensures upright { OnOk result (KeepsUpright session.old session.new) }
{
    match act {
        Act::Start => start(alloc, session, n, uri),
        Act::Ask => ask(session, n, octets),
        Act::Reply => reply(session, n, octets),
        Act::Refuse => refuse(session, n, octets),
        Act::Answer => answer(session, n, octets),
        Act::Done => done(session, n),
        Act::Close => close(session, n),
        Act::Release => release(session),
    }
}

/// The same, and what it leaves of the session.
pub(crate) fn act_on(
    alloc: Global,
    session: &mut Session,
    act: Act,
    n: u32,
    octets: &[u8],
    uri: &Text,
) -> Result<Answer, NoMemory>
    requires ready { IsReady session.old }
    requires may { act ≡ ActValue.Start → may_start session.old.role n ≡ true }
    requires some { act ≡ ActValue.Answer → 0 < length octets.now }
    requires uri { uri.now ≡ pair_uri }
    requires valid { is_uri uri.now ≡ true }
    ensures answered { IfOk result (Acts act n octets.now session.old session.new) }
    ensures upright { OnOk result (KeepsUpright session.old session.new) }
    ensures ready { OnOk result (IsReady session.new) }
    ensures role { OnOk result (session.new.role ≡ session.old.role) }
{
    let answer = answered(alloc, session, act, n, octets, uri)?;
    Ok(answer)
}

/// The same, and the message that was given is counted.
pub(crate) fn act_counted(
    alloc: Global,
    deed: &Deed,
    session: &mut Session,
    octets: &[u8],
    uri: &Text,
    accounts: &mut Accounts,
) -> Result<Answer, NoMemory>
    requires ready { IsReady session.old }
    requires may { deed.now.act ≡ ActValue.Start
        → may_start session.old.role deed.now.channel ≡ true }
    requires some { deed.now.act ≡ ActValue.Answer → 0 < length octets.now }
    requires uri { uri.now ≡ pair_uri }
    requires valid { is_uri uri.now ≡ true }
    ensures answered { IfOk result
        (Acts deed.now.act deed.now.channel octets.now session.old session.new) }
    ensures upright { OnOk result (KeepsUpright session.old session.new) }
    ensures counted { IfOk result (λ answer. accounts.new ≡ acted deed.now.at deed.now.act
        deed.now.channel deed.now.len answer accounts.old) }
    ensures ready { OnOk result (IsReady session.new) }
    ensures role { OnOk result (session.new.role ≡ session.old.role) }
{
    let answer = act_on(alloc, session, deed.act, deed.channel, octets, uri)?;
    if is_given(deed.act, &answer) {
        accounts.give(deed.at, deed.channel, u64::from(deed.len));
        return Ok(answer);
    }
    Ok(answer)
}

/// Whether a message was given in a channel above zero.
pub(crate) fn is_given(act: Act, answer: &Answer) -> bool
    ensures { result ≡ was_given act answer.now }
{
    match answer {
        Answer::Numbered(_) => true,
        Answer::Done => matches!(act, Act::Reply | Act::Refuse | Act::Done),
        Answer::NoChannel
        | Answer::NotOwed
        | Answer::Answering
        | Answer::Start(_)
        | Answer::Ask(_)
        | Answer::Give(_)
        | Answer::Close(_)
        | Answer::Release(_) => false,
    }
}
