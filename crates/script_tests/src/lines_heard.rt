use crate::story::{Story, plan_of};
use beep_lawful::is_lawful;
use beep_script::lines;
use beep_talk::{Command, Plan};
use std::alloc::Global;
use std::test::Fail;

/// What has happened, and the lines that are written.
type Row = (&'static str, &'static str);

/// The first row whose lines are others, or whose past isn't lawful.
fn first_wrong(
    alloc: Global,
    plan: &Plan,
    rows: &'static [Row],
) -> Result<Option<&'static Row>, Fail> {
    for row in rows {
        let (past, wanted) = row;
        let mut story = Story::new(alloc, plan.command)?;
        story.play(past)?;
        let lawful = is_lawful(alloc, &plan.terms, &[], &story.items)?;
        let text = lines(alloc, plan, &story.items)?;
        if !lawful || text.as_slice() != wanted.as_bytes() {
            return Ok(Some(row));
        }
    }
    Ok(None)
}

/// What a listener writes (docs/DECISIONS.md, "The lines of a listener").
static LINES: [Row; 14] = [
    ("greet; start; ask", ""),
    ("greet; start; ask; R NUL 1 0 . =", ""),
    ("greet; start; ask; R ANS 1 0 . =|one| 0", "one\n"),
    (
        "greet; start; ask; R ANS 1 0 . =|one|two||three 0",
        "one\ntwo\nthree\n",
    ),
    ("greet; start; ask; R ANS 1 0 . =| 0; R ANS 1 0 . =| 1", ""),
    ("greet; start; ask; R ANS 1 0 . =one| 0", "one\n"),
    (
        "greet; start; ask; R ANS 1 0 . =Content-Type:_text/plain||one| 0",
        "one\n",
    ),
    ("greet; start; ask; R ANS 1 0 * =|o 0; R ANS 1 0 * =n 0", ""),
    (
        "greet; start; ask; R ANS 1 0 * =|o 0; R ANS 1 0 * =n 0; R ANS 1 0 . =e| 0",
        "one\n",
    ),
    // Answers stand in the order of their last frames, and a number begins anew.
    (
        "greet; start; ask; R ANS 1 0 * =|o 0; R ANS 1 0 . =|two| 1; R ANS 1 0 . =ne| 0;
        R ANS 1 0 . =|three| 0",
        "two\none\nthree\n",
    ),
    // So do those of two channels.
    (
        "greet; start; ask; R MSG 0 2 . start3; S RPY 0 2 . chosen; S MSG 3 0 . =|ready|;
        R ANS 1 0 * =|o 0; R ANS 3 0 * =|th 0; R ANS 1 0 . =ne| 0; R ANS 3 0 . =ree| 0;
        R ANS 1 0 . =|two| 1; R NUL 3 0 . =; R NUL 1 0 . =",
        "one\nthree\ntwo\n",
    ),
    // What arrived counts, also where the peer has closed the channel.
    (
        "greet; start; ask; R ANS 1 0 * =|o 0; R MSG 0 2 . close1; R ANS 1 0 . =ne| 0;
        R NUL 1 0 . =; S RPY 0 2 . ok",
        "one\n",
    ),
    // A new life of the number has answers of its own.
    (
        "greet; start; ask; R ANS 1 0 . =|one| 0; R NUL 1 0 . =; R MSG 0 2 . close1;
        S RPY 0 2 . ok; R MSG 0 3 . start1; S RPY 0 3 . chosen; anew; ask;
        R ANS 1 0 . =|two| 0",
        "one\ntwo\n",
    ),
    ("greet; start; ask; R MSG 1 0 . =|no_line|", ""),
];

#[test]
fn a_listener_writes_the_entries_of_each_whole_answer(rt: HostRuntime) -> Result<(), Fail> {
    let plan = plan_of(rt.alloc(), Command::Listen, "urn:x", &[])?;
    assert_eq!(rt; first_wrong(rt.alloc(), &plan, &LINES)?, None);
    Ok(())
}
