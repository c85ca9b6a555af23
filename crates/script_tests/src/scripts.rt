ghost use Rattle.beep_talk.specs.Plan.{HasAllowedUris};
ghost use Rattle.beep_talk.specs.Plain.{plain_plan};

use crate::story::{Story, are, plan_of};
use beep_lawful::is_lawful;
use beep_script::script;
use beep_talk::{Command, Plan};
use std::alloc::Global;
use std::test::Fail;

/// What is to be said in a life once this has happened: the journal, the number and count of the
/// life, and the messages.
type Row = (&'static str, u32, usize, &'static str);

/// The first row that says another thing, or whose past isn't lawful.
fn first_wrong(
    alloc: Global,
    plan: &Plan,
    rows: &'static [Row],
) -> Result<Option<&'static Row>, Fail>
    requires { HasAllowedUris (plain_plan plan.now) }
{
    for row in rows {
        let (past, number, count, wanted) = row;
        let mut story = Story::new(alloc, plan.command)?;
        story.play(past)?;
        let lawful = is_lawful(alloc, &plan.terms, &[], &story.items)?;
        let messages = script(alloc, plan, *number, *count, &story.items)?;
        if !lawful || !are(alloc, &messages, wanted)? {
            return Ok(Some(row));
        }
    }
    Ok(None)
}

/// What a sender of two lines says on channel zero.
static SENDER: [Row; 17] = [
    ("", 0, 0, "RPY 0 greeting"),
    ("R RPY 0 0 . offers", 0, 0, "RPY 0 greeting; MSG 1 start1"),
    ("R ERR 0 0 . error", 0, 0, "RPY 0 greeting"),
    ("greet; start; ask", 0, 0, "RPY 0 greeting; MSG 1 start1"),
    // The close follows the end of the lines.
    (
        "greet; start; ask; S ANS 1 0 . =|one| 0; S ANS 1 0 . =|two| 1; S NUL 1 0 . =",
        0,
        0,
        "RPY 0 greeting; MSG 1 start1; MSG 2 close1",
    ),
    // The first NUL alone brings it.
    (
        "greet; start; ask; R MSG 1 1 . =|more|; S ANS 1 0 . =|one| 0; S ANS 1 0 . =|two| 1;
        S NUL 1 0 . =; S NUL 1 1 . =",
        0,
        0,
        "RPY 0 greeting; MSG 1 start1; MSG 2 close1",
    ),
    // The release follows the grant of the close, and no refusal of it.
    (
        "greet; start; ask; S ANS 1 0 . =|one| 0; S ANS 1 0 . =|two| 1; S NUL 1 0 . =;
        S MSG 0 2 . close1; R RPY 0 2 . ok",
        0,
        0,
        "RPY 0 greeting; MSG 1 start1; MSG 2 close1; MSG 3 close0",
    ),
    (
        "greet; start; ask; S ANS 1 0 . =|one| 0; S ANS 1 0 . =|two| 1; S NUL 1 0 . =;
        S MSG 0 2 . close1; R ERR 0 2 . error",
        0,
        0,
        "RPY 0 greeting; MSG 1 start1; MSG 2 close1",
    ),
    // A close that crosses the own one is granted at once, and the release waits for the answer.
    (
        "greet; start; ask; S ANS 1 0 . =|one| 0; S ANS 1 0 . =|two| 1; S NUL 1 0 . =;
        S MSG 0 2 . close1; R MSG 0 1 . close1",
        0,
        0,
        "RPY 0 greeting; MSG 1 start1; MSG 2 close1; RPY 1 ok",
    ),
    (
        "greet; start; ask; S ANS 1 0 . =|one| 0; S ANS 1 0 . =|two| 1; S NUL 1 0 . =;
        S MSG 0 2 . close1; R MSG 0 1 . close1; S RPY 0 1 . ok; R RPY 0 2 . ok",
        0,
        0,
        "RPY 0 greeting; MSG 1 start1; MSG 2 close1; RPY 1 ok; MSG 3 close0",
    ),
    // A release that comes while the own close waits is granted after its answer, before the own
    // release.
    (
        "greet; start; ask; S ANS 1 0 . =|one| 0; S ANS 1 0 . =|two| 1; S NUL 1 0 . =;
        S MSG 0 2 . close1; R MSG 0 1 . close0",
        0,
        0,
        "RPY 0 greeting; MSG 1 start1; MSG 2 close1",
    ),
    (
        "greet; start; ask; S ANS 1 0 . =|one| 0; S ANS 1 0 . =|two| 1; S NUL 1 0 . =;
        S MSG 0 2 . close1; R MSG 0 1 . close0; R RPY 0 2 . ok",
        0,
        0,
        "RPY 0 greeting; MSG 1 start1; MSG 2 close1; RPY 1 ok; MSG 3 close0",
    ),
    // One that crosses the own release is granted at once.
    (
        "greet; start; ask; S ANS 1 0 . =|one| 0; S ANS 1 0 . =|two| 1; S NUL 1 0 . =;
        S MSG 0 2 . close1; R RPY 0 2 . ok; S MSG 0 3 . close0; R MSG 0 1 . close0",
        0,
        0,
        "RPY 0 greeting; MSG 1 start1; MSG 2 close1; MSG 3 close0; RPY 1 ok",
    ),
    // While the own start waits a close of 0 is granted after its answer.
    (
        "greet; S MSG 0 1 . start1; R MSG 0 1 . close0",
        0,
        0,
        "RPY 0 greeting; MSG 1 start1",
    ),
    (
        "greet; S MSG 0 1 . start1; R MSG 0 1 . close0; R ERR 0 1 . error",
        0,
        0,
        "RPY 0 greeting; MSG 1 start1; RPY 1 ok",
    ),
    // A sender offers nothing, and the listener may start even channels.
    (
        "greet; R MSG 0 1 . start2",
        0,
        0,
        "RPY 0 greeting; MSG 1 start1; ERR 1 error",
    ),
    (
        "greet; R MSG 0 1 . start1",
        0,
        0,
        "RPY 0 greeting; MSG 1 start1; ERR 1 parameter",
    ),
];

#[test]
fn a_sender_says_on_channel_zero_what_is_called_for(rt: HostRuntime) -> Result<(), Fail> {
    let plan = plan_of(rt.alloc(), Command::Send, "urn:x", &["one", "two"])?;
    assert_eq!(rt; first_wrong(rt.alloc(), &plan, &SENDER)?, None);
    Ok(())
}

/// What a sender of two lines says on channel 1.
static ANSWERS: [Row; 6] = [
    ("greet; start", 1, 1, ""),
    ("greet; start; R MSG 1 0 * =|rea", 1, 1, ""),
    (
        "greet; start; ask",
        1,
        1,
        "ANS 0 0 =|one|; ANS 0 1 =|two|; NUL 0 =",
    ),
    (
        "greet; start; R MSG 1 7 * =any; R MSG 1 7 . =thing",
        1,
        1,
        "ANS 0 0 =|one|; ANS 0 1 =|two|; NUL 0 =",
    ),
    // A further request is answered by its NUL alone, also while the own close waits.
    (
        "greet; start; ask; R MSG 1 1 . =|more|",
        1,
        1,
        "ANS 0 0 =|one|; ANS 0 1 =|two|; NUL 0 =; NUL 1 =",
    ),
    (
        "greet; start; ask; S ANS 1 0 . =|one| 0; S ANS 1 0 . =|two| 1; S NUL 1 0 . =;
        S MSG 0 2 . close1; R MSG 1 1 . =|more|",
        1,
        1,
        "ANS 0 0 =|one|; ANS 0 1 =|two|; NUL 0 =; NUL 1 =",
    ),
];

#[test]
fn a_sender_answers_its_lines_once(rt: HostRuntime) -> Result<(), Fail> {
    let plan = plan_of(rt.alloc(), Command::Send, "urn:x", &["one", "two"])?;
    assert_eq!(rt; first_wrong(rt.alloc(), &plan, &ANSWERS)?, None);
    Ok(())
}

#[test]
fn a_sender_without_lines_answers_their_end(rt: HostRuntime) -> Result<(), Fail> {
    let plan = plan_of(rt.alloc(), Command::Send, "urn:x", &[])?;
    let mut story = Story::new(rt.alloc(), Command::Send)?;
    story.play("greet; start; ask")?;
    let messages = script(rt.alloc(), &plan, 1, 1, &story.items)?;
    assert_eq!(rt; are(rt.alloc(), &messages, "NUL 0 =")?, true);
    Ok(())
}

/// What a listener says on channel zero.
static LISTENER: [Row; 20] = [
    ("", 0, 0, "RPY 0 offers"),
    (
        "greet; R MSG 0 1 . start1",
        0,
        0,
        "RPY 0 offers; RPY 1 chosen",
    ),
    (
        "greet; R MSG 0 1 . start2",
        0,
        0,
        "RPY 0 offers; ERR 1 parameter",
    ),
    (
        "greet; R MSG 0 1 . other1",
        0,
        0,
        "RPY 0 offers; ERR 1 error",
    ),
    (
        "greet; R MSG 0 1 . unreadable",
        0,
        0,
        "RPY 0 offers; ERR 1 syntax",
    ),
    (
        "greet; R MSG 0 1 * =abc; R MSG 0 1 . =def",
        0,
        0,
        "RPY 0 offers; ERR 1 syntax",
    ),
    ("greet; R MSG 0 1 * =abc", 0, 0, "RPY 0 offers"),
    // A number is starting until its grant has passed: no further start of it, and no close.
    (
        "greet; R MSG 0 1 . start1; R MSG 0 2 . start1; R MSG 0 3 . close1",
        0,
        0,
        "RPY 0 offers; RPY 1 chosen; ERR 2 error; ERR 3 error",
    ),
    // A close of 0 after a start is granted after it, and refuses what comes after.
    (
        "greet; R MSG 0 1 . start1; R MSG 0 2 . close0; R MSG 0 3 . start3; R MSG 0 4 . close0",
        0,
        0,
        "RPY 0 offers; RPY 1 chosen; RPY 2 ok; ERR 3 error; ERR 4 error",
    ),
    // A close too early waits for the word of the listener to go and to be answered.
    (
        "greet; start; R MSG 0 2 . close1",
        0,
        0,
        "RPY 0 offers; RPY 1 chosen",
    ),
    (
        "greet; start; R MSG 0 2 . close1; ask",
        0,
        0,
        "RPY 0 offers; RPY 1 chosen",
    ),
    (
        "greet; start; R MSG 0 2 . close1; ask; R NUL 1 0 . =",
        0,
        0,
        "RPY 0 offers; RPY 1 chosen; RPY 2 ok",
    ),
    // So does one with answers under way.
    (
        "greet; start; ask; R ANS 1 0 * =|o 0; R MSG 0 2 . close1; R ANS 1 0 . =ne| 0",
        0,
        0,
        "RPY 0 offers; RPY 1 chosen",
    ),
    (
        "greet; start; ask; R ANS 1 0 * =|o 0; R MSG 0 2 . close1; R ANS 1 0 . =ne| 0;
        R NUL 1 0 . =",
        0,
        0,
        "RPY 0 offers; RPY 1 chosen; RPY 2 ok",
    ),
    // What comes after such a close waits for it, and is listed with it.
    (
        "greet; start; ask; R MSG 0 2 . close1; R MSG 0 3 . start3; R MSG 0 4 . close1",
        0,
        0,
        "RPY 0 offers; RPY 1 chosen",
    ),
    (
        "greet; start; ask; R MSG 0 2 . close1; R MSG 0 3 . start3; R MSG 0 4 . close1;
        R NUL 1 0 . =",
        0,
        0,
        "RPY 0 offers; RPY 1 chosen; RPY 2 ok; RPY 3 chosen; ERR 4 error",
    ),
    // A start of a number whose close is granted, and isn't sent, is refused.
    (
        "greet; start; ask; R NUL 1 0 . =; R MSG 0 2 . close1; R MSG 0 3 . start1",
        0,
        0,
        "RPY 0 offers; RPY 1 chosen; RPY 2 ok; ERR 3 error",
    ),
    (
        "greet; start; ask; R NUL 1 0 . =; R MSG 0 2 . close1; S RPY 0 2 . ok; R MSG 0 3 . start1",
        0,
        0,
        "RPY 0 offers; RPY 1 chosen; RPY 2 ok; RPY 3 chosen",
    ),
    // Once listed it stays, though a request comes.
    (
        "greet; start; ask; R NUL 1 0 . =; R MSG 0 2 . close1; R MSG 1 0 . =|late|",
        0,
        0,
        "RPY 0 offers; RPY 1 chosen; RPY 2 ok",
    ),
    // A request that is refused has to be answered first.
    (
        "greet; start; ask; R NUL 1 0 . =; R MSG 1 0 . =|x|; R MSG 0 2 . close0; S ERR 1 0 . error",
        0,
        0,
        "RPY 0 offers; RPY 1 chosen; RPY 2 ok",
    ),
];

#[test]
fn a_listener_says_on_channel_zero_what_is_called_for(rt: HostRuntime) -> Result<(), Fail> {
    let plan = plan_of(rt.alloc(), Command::Listen, "urn:x", &[])?;
    assert_eq!(rt; first_wrong(rt.alloc(), &plan, &LISTENER)?, None);
    Ok(())
}

/// What a listener says on the channels that it granted.
static READY: [Row; 12] = [
    ("greet; R MSG 0 1 . start1", 1, 1, ""),
    ("greet; start", 1, 1, "MSG 0 =|ready|"),
    ("greet; start", 1, 2, ""),
    ("greet; start", 3, 1, ""),
    (
        "greet; start; ask; R MSG 1 0 . =|x|",
        1,
        1,
        "MSG 0 =|ready|; ERR 0 error",
    ),
    (
        "greet; start; ask; R MSG 1 0 . =|x|; S ERR 1 0 . error; R MSG 1 1 . =|y|",
        1,
        1,
        "MSG 0 =|ready|; ERR 0 error; ERR 1 error",
    ),
    // Each channel has its own, and so has each life of one number.
    (
        "greet; start; R MSG 0 2 . start3; S RPY 0 2 . chosen; R MSG 3 0 . =|x|",
        3,
        1,
        "MSG 0 =|ready|; ERR 0 error",
    ),
    (
        "greet; start; ask; R NUL 1 0 . =; R MSG 0 2 . close1; S RPY 0 2 . ok; R MSG 0 3 . start1;
        S RPY 0 3 . chosen",
        1,
        2,
        "MSG 0 =|ready|",
    ),
    // A request whose life ended before its last frame passed is answered in no life.
    (
        "greet; start; ask; R NUL 1 0 . =; R MSG 0 2 . close1; R begins MSG 1 0 . =|x|;
        S RPY 0 2 . ok; R ends",
        1,
        1,
        "MSG 0 =|ready|",
    ),
    (
        "greet; start; ask; R NUL 1 0 . =; R MSG 0 2 . close1; R begins MSG 1 0 . =|x|;
        S RPY 0 2 . ok; R ends; R MSG 0 3 . start1; S RPY 0 3 . chosen",
        1,
        2,
        "MSG 0 =|ready|",
    ),
    // Nothing is asked where a close of 0 had come before the life began.
    (
        "greet; R MSG 0 1 . start1; R MSG 0 2 . close0; S RPY 0 1 . chosen",
        1,
        1,
        "",
    ),
    ("greet; start; R MSG 0 2 . close0", 1, 1, "MSG 0 =|ready|"),
];

#[test]
fn a_listener_asks_on_each_channel_once(rt: HostRuntime) -> Result<(), Fail> {
    let plan = plan_of(rt.alloc(), Command::Listen, "urn:x", &[])?;
    assert_eq!(rt; first_wrong(rt.alloc(), &plan, &READY)?, None);
    Ok(())
}
