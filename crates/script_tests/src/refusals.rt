use crate::story::Story;
use beep_script::refusal;
use beep_talk::Command;
use std::test::Fail;

/// What has happened, and the code with which a sender was refused.
static SENDER: [(&str, Option<u16>); 17] = [
    ("greet", None),
    ("S RPY 0 0 . greeting; R ERR 0 0 . away", Some(421)),
    ("greet; S MSG 0 1 . start1; R ERR 0 1 . error", Some(550)),
    ("greet; R MSG 0 1 . busy0", Some(421)),
    ("greet; start; R MSG 0 1 . busy0", Some(421)),
    ("greet; start; R MSG 0 1 . busy1", Some(421)),
    ("greet; S MSG 0 1 . start1; R MSG 0 1 . busy1", None),
    ("greet; start; R MSG 0 1 . close3", None),
    ("greet; start; R MSG 0 1 . start2", None),
    ("greet; start; R MSG 0 1 * =abc", None),
    // The listener closes before the own close has begun, also after the end of the lines.
    (
        "greet; start; ask; S NUL 1 0 . =; R MSG 0 1 . busy1",
        Some(421),
    ),
    (
        "greet; start; ask; S NUL 1 0 . =; S begins MSG 0 2 . close1; R MSG 0 1 . busy1",
        None,
    ),
    (
        "greet; start; ask; S NUL 1 0 . =; S MSG 0 2 . close1; R MSG 0 1 . busy0",
        None,
    ),
    (
        "greet; start; ask; S NUL 1 0 . =; S MSG 0 2 . close1; R ERR 0 2 . error",
        Some(550),
    ),
    (
        "greet; start; ask; S NUL 1 0 . =; S MSG 0 2 . close1; R RPY 0 2 . ok;
        S MSG 0 3 . close0; R ERR 0 3 . away",
        Some(421),
    ),
    (
        "greet; start; ask; S NUL 1 0 . =; S MSG 0 2 . close1; R RPY 0 2 . ok;
        S MSG 0 3 . close0; R RPY 0 3 . ok",
        None,
    ),
    // The first refusal counts.
    (
        "greet; S MSG 0 1 . start1; R MSG 0 1 . busy0; R ERR 0 1 . error",
        Some(421),
    ),
];

#[test]
fn a_sender_is_refused_by_an_error_and_by_an_early_close(rt: HostRuntime) -> Result<(), Fail> {
    for (past, wanted) in SENDER {
        let mut story = Story::new(rt.alloc(), Command::Send)?;
        story.play(past)?;
        assert_eq!(rt;
            refusal(rt.alloc(), Command::Send, &story.items)?,
            wanted,
            "at {past}"
        );
    }
    Ok(())
}

/// What has happened, and the code with which a listener was refused.
static LISTENER: [(&str, Option<u16>); 3] = [
    ("S RPY 0 0 . offers; R ERR 0 0 . away", Some(421)),
    ("greet; start; R MSG 0 2 . busy1", None),
    ("greet; start; R MSG 0 2 . busy0", None),
];

#[test]
fn a_listener_is_refused_by_an_error_alone(rt: HostRuntime) -> Result<(), Fail> {
    for (past, wanted) in LISTENER {
        let mut story = Story::new(rt.alloc(), Command::Listen)?;
        story.play(past)?;
        assert_eq!(rt;
            refusal(rt.alloc(), Command::Listen, &story.items)?,
            wanted,
            "at {past}"
        );
    }
    Ok(())
}
