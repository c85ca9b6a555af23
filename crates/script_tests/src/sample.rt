//! Three lines that are sent and listened for, frame by frame.
ghost use Rattle.beep_talk.specs.Plan.{HasAllowedUris};
ghost use Rattle.beep_talk.specs.Plain.{plain_plan};

use crate::story::{Story, are, plan_of};
use beep_history::{JournalItem, Side};
use beep_journal::is_released;
use beep_lawful::is_lawful;
use beep_script::{is_settled, lines, refusal, script};
use beep_talk::{Command, Plan};
use std::alloc::Global;
use std::test::Fail;

/// The URI of the profile RAW (RFC 3195, section 6.2).
const RAW_URI: &str = "http://xml.resource.org/profiles/syslog/RAW";

/// The lines that a sender is to send.
const LINES: [&str; 3] = [
    "<34>Oct 11 22:14:15 mymachine su: 'su root' failed for lonvick on /dev/pts/8",
    "<13>Oct 11 22:14:16 mymachine sshd: session opened",
    "<165>Oct 11 22:14:17 mymachine cron: job done",
];

/// What a listener writes of them.
const WRITTEN: &str = "<34>Oct 11 22:14:15 mymachine su: 'su root' failed for lonvick on /dev/pts/8
<13>Oct 11 22:14:16 mymachine sshd: session opened
<165>Oct 11 22:14:17 mymachine cron: job done
";

/// What happens, as the sender sees it.
const SENDER: &str = "S RPY 0 0 . greeting; R RPY 0 0 . raw_offers; S MSG 0 1 . raw_start;
    R RPY 0 1 . raw_chosen; R MSG 1 0 . =|ready|;
    S ANS 1 0 . =|<34>Oct_11_22:14:15_mymachine_su:_'su_root'_failed_for_lonvick_on_/dev/pts/8| 0;
    S ANS 1 0 . =|<13>Oct_11_22:14:16_mymachine_sshd:_session_opened| 1;
    S ANS 1 0 . =|<165>Oct_11_22:14:17_mymachine_cron:_job_done| 2; S NUL 1 0 . =;
    S MSG 0 2 . close1; R RPY 0 2 . ok; S MSG 0 3 . close0; R RPY 0 3 . ok";

/// The same, as the listener sees it.
const LISTENER: &str = "S RPY 0 0 . raw_offers; R RPY 0 0 . greeting; R MSG 0 1 . raw_start;
    S RPY 0 1 . raw_chosen; S MSG 1 0 . =|ready|;
    R ANS 1 0 . =|<34>Oct_11_22:14:15_mymachine_su:_'su_root'_failed_for_lonvick_on_/dev/pts/8| 0;
    R ANS 1 0 . =|<13>Oct_11_22:14:16_mymachine_sshd:_session_opened| 1;
    R ANS 1 0 . =|<165>Oct_11_22:14:17_mymachine_cron:_job_done| 2; R NUL 1 0 . =;
    R MSG 0 2 . close1; S RPY 0 2 . ok; R MSG 0 3 . close0; S RPY 0 3 . ok";

/// The sequence number and the octets of each frame of the sender (RFC 3080, section 2.2.1.1).
const SENT: [(u32, u32); 8] = [
    (0, 52),
    (52, 127),
    (0, 80),
    (80, 54),
    (134, 49),
    (183, 0),
    (179, 71),
    (250, 71),
];

/// The same of the listener.
const RECEIVED: [(u32, u32); 5] = [(0, 122), (122, 101), (0, 9), (223, 46), (269, 46)];

/// Whether the frames of a side have these sequence numbers and octets.
fn has_frames(story: &Story, side: Side, wanted: &[(u32, u32)]) -> bool {
    let mut at = wanted.len();
    for item in &story.items {
        if let JournalItem::Passed(by, head, _) = item {
            if !by.is_same(side) {
                continue;
            }
            at = at.saturating_sub(1);
            if wanted.get(at).copied() != Some((head.seqno, head.size)) {
                return false;
            }
        }
    }
    at == 0
}

/// Whether a whole run is lawful, was refused nowhere, is released at its end, and leaves nothing
/// due.
fn is_well(alloc: Global, plan: &Plan, story: &Story) -> Result<bool, Fail>
    requires { HasAllowedUris (plain_plan plan.now) }
{
    let items = story.items.as_slice();
    Ok(
        is_lawful(alloc, &plan.terms, &[], items)?
            && is_released(alloc, items)?
            && refusal(alloc, plan.command, items)?.is_none()
            && is_settled(alloc, plan, items)?,
    )
}

#[test]
fn a_sender_says_three_lines_and_their_end(rt: HostRuntime) -> Result<(), Fail> {
    let plan = plan_of(rt.alloc(), Command::Send, RAW_URI, &LINES)?;
    let mut story = Story::new(rt.alloc(), Command::Send)?;
    story.play(SENDER)?;
    assert_eq!(rt; has_frames(&story, Side::Sent, &SENT), true);
    assert_eq!(rt; has_frames(&story, Side::Received, &RECEIVED), true);
    assert_eq!(rt; is_well(rt.alloc(), &plan, &story)?, true);
    let zero = script(rt.alloc(), &plan, 0, 0, &story.items)?;
    assert_eq!(rt;
        are(
            rt.alloc(),
            &zero,
            "RPY 0 greeting; MSG 1 raw_start; MSG 2 close1; MSG 3 close0"
        )?,
        true
    );
    let answers = script(rt.alloc(), &plan, 1, 1, &story.items)?;
    assert_eq!(rt;
        are(
            rt.alloc(),
            &answers,
            "ANS 0 0 =|<34>Oct_11_22:14:15_mymachine_su:_'su_root'_failed_for_lonvick_\
             on_/dev/pts/8|;
            ANS 0 1 =|<13>Oct_11_22:14:16_mymachine_sshd:_session_opened|;
            ANS 0 2 =|<165>Oct_11_22:14:17_mymachine_cron:_job_done|; NUL 0 ="
        )?,
        true
    );
    Ok(())
}

#[test]
fn a_listener_writes_the_three_lines(rt: HostRuntime) -> Result<(), Fail> {
    let plan = plan_of(rt.alloc(), Command::Listen, RAW_URI, &[])?;
    let mut story = Story::new(rt.alloc(), Command::Listen)?;
    story.play(LISTENER)?;
    assert_eq!(rt; has_frames(&story, Side::Sent, &RECEIVED), true);
    assert_eq!(rt; is_well(rt.alloc(), &plan, &story)?, true);
    let zero = script(rt.alloc(), &plan, 0, 0, &story.items)?;
    assert_eq!(rt;
        are(
            rt.alloc(),
            &zero,
            "RPY 0 raw_offers; RPY 1 raw_chosen; RPY 2 ok; RPY 3 ok"
        )?,
        true
    );
    let asked = script(rt.alloc(), &plan, 1, 1, &story.items)?;
    assert_eq!(rt; are(rt.alloc(), &asked, "MSG 0 =|ready|")?, true);
    let text = lines(rt.alloc(), &plan, &story.items)?;
    assert_eq!(rt; text.as_slice(), WRITTEN.as_bytes());
    Ok(())
}
