//! What an end takes of what arrived.
ghost use Rattle.std.specs.Prelude.{◌≡◌, ◌<◌, false, length};
ghost use Rattle.beep_two_sessions.specs.beep_octets.specs.Numbers.{numbers_32};
ghost use Rattle.beep_two_sessions.specs.beep_peer.specs.Peering.{zero_waits};
ghost use Rattle.beep_pair.specs.Sessions.{IsReady, TakesPart, counted_take};

use beep_report::beep_tally::Accounts;
use beep_schedule::End;
use beep_two_sessions::beep_inbox::Part;
use beep_two_sessions::beep_session::Session;

/// Takes the first octets of the first untaken message of a channel, as many as `buf` holds.
pub(crate) fn take_part(session: &mut Session, n: u32, buf: &mut [u8]) -> Option<Part>
    requires settled { zero_waits session.old.peer ≡ false }
    requires some { 0 < length buf.old }
    requires fits { length buf.old < numbers_32 }
    ensures { TakesPart n result buf.new session.old session.new }
{
    if session.is_over() || !session.live(n) {
        return None;
    }
    if let Some(mut channel) = session.open_channel(n) {
        return channel.take(buf);
    }
    match session.closing_channel(n) {
        Some(mut channel) => channel.take(buf),
        None => None,
    }
}

/// The same, and what it leaves of the session.
pub(crate) fn take_ready(session: &mut Session, n: u32, buf: &mut [u8]) -> Option<Part>
    requires ready { IsReady session.old }
    requires some { 0 < length buf.old }
    requires fits { length buf.old < numbers_32 }
    ensures taken { TakesPart n result buf.new session.old session.new }
    ensures ready { IsReady session.new }
    ensures role { session.new.role ≡ session.old.role }
{
    let part = take_part(session, n, buf);
    part
}

/// The same, and what is taken is counted.
pub(crate) fn take_on(
    at: End,
    session: &mut Session,
    n: u32,
    buf: &mut [u8],
    accounts: &mut Accounts,
) -> Option<Part>
    requires ready { IsReady session.old }
    requires some { 0 < length buf.old }
    requires fits { length buf.old < numbers_32 }
    ensures taken { TakesPart n result buf.new session.old session.new }
    ensures counted { accounts.new ≡ counted_take at n result accounts.old }
    ensures ready { IsReady session.new }
    ensures role { session.new.role ≡ session.old.role }
{
    match take_ready(session, n, buf) {
        Some(part) => {
            accounts.take(at, n, u64::from(part.len), part.ended);
            Some(part)
        }
        None => None,
    }
}
