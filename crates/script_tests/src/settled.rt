ghost use Rattle.beep_talk.specs.Plan.{HasAllowedUris};
ghost use Rattle.beep_talk.specs.Plain.{plain_plan};

use crate::story::{Story, plan_of};
use beep_lawful::is_lawful;
use beep_script::is_settled;
use beep_talk::{Command, Plan};
use std::alloc::Global;
use std::test::Fail;

/// What has happened, and whether nothing is due.
type Row = (&'static str, bool);

/// The first row at which something else is due, or whose past isn't lawful.
fn first_wrong(
    alloc: Global,
    plan: &Plan,
    rows: &'static [Row],
) -> Result<Option<&'static Row>, Fail>
    requires { HasAllowedUris (plain_plan plan.now) }
{
    for row in rows {
        let (past, wanted) = row;
        let mut story = Story::new(alloc, plan.command)?;
        story.play(past)?;
        let lawful = is_lawful(alloc, &plan.terms, &[], &story.items)?;
        if !lawful || is_settled(alloc, plan, &story.items)? != *wanted {
            return Ok(Some(row));
        }
    }
    Ok(None)
}

/// Whether a sender of one line may wait.
static SENDER: [Row; 14] = [
    ("", false),
    ("S RPY 0 0 . greeting", true),
    ("R RPY 0 0 . offers", false),
    ("R RPY 0 0 . offers; S RPY 0 0 . greeting", false),
    ("greet; S MSG 0 1 . start1", true),
    ("greet; start", true),
    ("greet; start; ask", false),
    ("greet; start; ask; S ANS 1 0 . =|one| 0", false),
    // An octet waits for room, the end of the answers for none.
    ("greet; start; R SEQ 1 0 0; ask", true),
    ("greet; start; R SEQ 1 0 2; ask; S ANS 1 0 * =| 0", true),
    (
        "greet; start; R SEQ 1 0 7; ask; S ANS 1 0 . =|one| 0",
        false,
    ),
    (
        "greet; start; ask; S ANS 1 0 . =|one| 0; S NUL 1 0 . =",
        false,
    ),
    (
        "greet; start; ask; S ANS 1 0 . =|one| 0; S NUL 1 0 . =; S MSG 0 2 . close1",
        true,
    ),
    ("greet; start; ask; S ANS 1 0 * =|o 0", false),
];

#[test]
fn a_sender_waits_where_nothing_is_due(rt: HostRuntime) -> Result<(), Fail> {
    let plan = plan_of(rt.alloc(), Command::Send, "urn:x", &["one"])?;
    assert_eq!(rt; first_wrong(rt.alloc(), &plan, &SENDER)?, None);
    Ok(())
}

/// Whether a listener may wait.
static LISTENER: [Row; 8] = [
    ("greet", true),
    ("greet; R MSG 0 1 . start1", false),
    ("greet; start", false),
    ("greet; start; ask", true),
    // A SEQ is due once half of a window has arrived and was taken.
    ("greet; start; ask; R ANS 1 0 * #2047 0", true),
    ("greet; start; ask; R ANS 1 0 * #2048 0", false),
    ("greet; start; ask; R MSG 0 2 . close1", true),
    (
        "greet; start; ask; R MSG 0 2 . close1; R NUL 1 0 . =",
        false,
    ),
];

#[test]
fn a_listener_waits_where_nothing_is_due(rt: HostRuntime) -> Result<(), Fail> {
    let plan = plan_of(rt.alloc(), Command::Listen, "urn:x", &[])?;
    assert_eq!(rt; first_wrong(rt.alloc(), &plan, &LISTENER)?, None);
    Ok(())
}
