//! Logs that are replayed: how a session begins, and then a line more. The opening has 73 octets
//! that were read.

use beep_frame::Rule;
use beep_octets::Octets;
use beep_record::{Verdict, read_record, replay};
use std::test::Fail;

static OPENING: &[u8] = b"beep-record 1 listener\n\
W RPY 0 0 . 0 52\\r\\nContent-Type: application/beep+xml\\r\\n\\r\\n<greeting />\\r\\nEND\\r\\n\n\
R RPY 0 0 . 0 52\\r\\nContent-Type: application/beep+xml\\r\\n\\r\\n<greeting />\\r\\nEND\\r\\n\n";

/// A line after the opening, what is reported after both greetings, and the verdict.
static CASES: [(&[u8], &[u8], Verdict); 2] = [
    (b"R MSG 0\n", b"frames 1 1 left 5\n", Verdict::Fine),
    (b"R MSG 01\n", b"", Verdict::Broken(Rule::Header, 78)),
];

#[test]
fn a_log_has_its_report_and_verdict(rt: HostRuntime) -> Result<(), Fail> {
    for (at, (line, after, verdict)) in CASES.iter().enumerate() {
        let mut text = Octets::new(rt.alloc());
        text.extend(OPENING)?;
        text.extend(line)?;
        let mut report = Octets::new(rt.alloc());
        report.extend(b"> RPY 0 0 . 0 52\n< RPY 0 0 . 0 52\n")?;
        report.extend(after)?;
        let log = read_record(rt.alloc(), text.as_slice())?;
        let mut out = Octets::new(rt.alloc());
        assert_eq!(rt; replay(rt.alloc(), &log, &mut out)?, *verdict, "at {at}");
        assert_eq!(rt; out.as_slice(), report.as_slice(), "at {at}");
    }
    Ok(())
}
