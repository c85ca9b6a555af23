//! Texts of records, from the grammar of docs/FORMATS.md, "Records". The places are counted by
//! hand: the first line of a listener has 23 octets.

use beep_journal::Role;
use beep_octets::Octets;
use beep_record::{Entry, MAX_ENTRY, RecordError, read_record, write_record};
use std::alloc::Global;
use std::test::Fail;

/// The record that is written of what a text says.
fn again(alloc: Global, text: &[u8]) -> Result<Octets, RecordError> {
    let log = read_record(alloc, text)?;
    let mut out = Octets::new(alloc);
    match write_record(&log, &mut out) {
        Ok(()) => Ok(out),
        Err(_) => Err(RecordError::NoMemory),
    }
}

// One spelling of each kind of octet, and writing after the end.
#[test]
fn a_record_is_written_as_it_was_read(rt: HostRuntime) -> Result<(), Fail> {
    let texts: [&[u8]; 3] = [
        b"beep-record 1 initiator\n",
        b"beep-record 1 listener\nR \\00\\09\\0b\\0c\\0e\\1f ~\\7f\\80\\ff\\\\\\r\\n\n",
        b"beep-record 1 listener\nQ\nE\nW a\nW  \n",
    ];
    for (at, text) in texts.iter().enumerate() {
        let out = again(rt.alloc(), text)?;
        assert_eq!(rt; out.as_slice(), *text, "at {at}");
    }
    Ok(())
}

// What a status says isn't kept, and each piece stands in its own entry.
#[test]
fn what_lines_say(rt: HostRuntime) -> Result<(), Fail> {
    let text = b"beep-record 1 listener\nR a\\\\\nW \\00\\r\nE\nS 11\n";
    let log = read_record(rt.alloc(), text)?;
    assert_eq!(rt; log.role, Role::Listener);
    assert_eq!(rt; log.entries.len(), 3);
    let (Some(Entry::Read(read)), Some(Entry::Wrote(wrote)), Some(Entry::Ended)) = (
        log.entries.get(0),
        log.entries.get(1),
        log.entries.get(2),
    ) else {
        return Err("other entries".into());
    };
    assert_eq!(rt; read.as_slice(), b"a\\".as_slice());
    assert_eq!(rt; wrote.as_slice(), b"\0\r".as_slice());
    Ok(())
}

// Each is refused at the first octet after which no record can go on, or at its end.
static REFUSED: [(&[u8], u64); 3] = [
    (b"beep-record 3 listener\n", 12),
    (b"beep-record 1 listener\nE\nR a\n", 25),
    (b"beep-record 1 listener\nQ", 24),
];

#[test]
fn what_is_no_record_is_refused_at_its_place(rt: HostRuntime) -> Result<(), Fail> {
    for (at, (text, place)) in REFUSED.iter().enumerate() {
        assert_eq!(rt;
            read_record(rt.alloc(), text).err(),
            Some(RecordError::BadRecord(*place)),
            "at {at}"
        );
    }
    Ok(())
}

// A line has room for 4096 octets.
#[test]
fn a_full_line_is_written_as_it_was_read(rt: HostRuntime) -> Result<(), Fail> {
    let mut text = Octets::new(rt.alloc());
    text.extend(b"beep-record 1 listener\nW ")?;
    for _ in 0..MAX_ENTRY {
        text.extend(b"a")?;
    }
    text.extend(b"\n")?;
    let out = again(rt.alloc(), text.as_slice())?;
    assert_eq!(rt; out.as_slice(), text.as_slice());
    Ok(())
}
