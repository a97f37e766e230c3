//! Whole calls over objects in memory: the texts of both commands.
use crate::call_end::CallEnd;
use crate::same::assert_same;
use cell_driver::drive;
use lists::{List, NoMemory};
use outside_io::{MemDisk, MemFiles, MemSink};
use standby_commands::{Follow, run_feed};
use std::alloc::Global;
use std::test::Fail;

/// Two machines, and a type that goes through them.
const CELL: &str = r#"version = 1
resource = [{ name = "M1", capacity = 1 }, { name = "M2", capacity = 1 }]
type = [{ name = "A", route = ["M1", "M2"] }]
"#;

const LOAD: [u8; 24] = [
    0, 0, 0, 0, 0, 0, 0, 0, 1, 0, 0, 1, 0, 0, 0, 1, 0, 0, 0, 7, 0, 0, 0, 0,
];

const PROCESS: [u8; 24] = [
    0, 0, 0, 0, 0, 0, 0, 1, 2, 0, 0, 1, 0, 0, 0, 1, 0, 0, 0, 0, 0, 0, 0, 0,
];

const OTHER_LOAD: [u8; 24] = [
    0, 0, 0, 0, 0, 0, 0, 0, 1, 0, 0, 1, 0, 0, 0, 1, 0, 0, 0, 8, 0, 0, 0, 0,
];

const OTHER_TYPE: [u8; 24] = [
    0, 0, 0, 0, 0, 0, 0, 0, 1, 0, 0, 1, 0, 0, 0, 1, 0, 0, 0, 7, 0, 0, 0, 1,
];

const MOVE: [u8; 24] = [
    0, 0, 0, 0, 0, 0, 0, 0, 3, 0, 0, 1, 0, 0, 0, 1, 0, 0, 0, 7, 0, 0, 0, 0,
];

const NONE: [u8; 24] = [
    255, 255, 255, 255, 255, 255, 255, 255, 0, 0, 0, 0, 0, 0, 0, 0, 0, 0, 0, 0, 0, 0, 0, 0,
];

fn follow(alloc: Global, frames: &[[u8; 24]], more: &[u8]) -> Result<CallEnd, NoMemory> {
    let mut bytes = List::new(alloc);
    for frame in frames {
        bytes.try_append(frame)?;
    }
    bytes.try_append(more)?;
    let mut files = MemFiles::new(alloc, List::new(alloc));
    files.add("cell", CELL.as_bytes())?;
    files.add("frames", bytes.as_slice())?;
    let mut out = MemSink::new(alloc, List::new(alloc));
    let disk = MemDisk::new(alloc, b"", List::new(alloc))?;
    let follow = Follow { frames: "frames" };
    let end = drive(&follow, alloc, &mut files, &mut out, "cell", disk);
    Ok(CallEnd::new(end, out))
}

fn feed(alloc: Global, journal: &[u8], from: &str) -> Result<CallEnd, NoMemory> {
    let mut files = MemFiles::new(alloc, List::new(alloc));
    files.add("cell", CELL.as_bytes())?;
    let mut out = MemSink::new(alloc, List::new(alloc));
    let disk = MemDisk::new(alloc, journal, List::new(alloc))?;
    let end = run_feed(
        alloc,
        &mut files,
        &mut out,
        "cell",
        from,
        b"usage: feed\n",
        disk,
    );
    Ok(CallEnd::new(end, out))
}

#[test]
fn fed_and_followed(rt: HostRuntime) -> Result<(), Fail> {
    let alloc = rt.alloc();
    let first = follow(alloc, &[PROCESS, LOAD, LOAD, PROCESS], b"")?;
    let text: &[u8] = b"ack 0\nack 1\nack 1\nack 2\nleft 1\n";
    assert_same(&rt, first.told(), (0, text));
    let table: [(&str, u8, &[u8]); 4] = [
        ("1", 0, &PROCESS),
        ("2", 0, b""),
        ("3", 10, b"feed refused 2\n"),
        ("01", 2, b"usage: feed\n"),
    ];
    for (from, status, bytes) in table {
        let end = feed(alloc, first.journal(), from)?;
        assert_same(&rt, end.told(), (status, bytes));
    }
    Ok(())
}

#[test]
fn frames_refused(rt: HostRuntime) -> Result<(), Fail> {
    let table: [(&[[u8; 24]], &[u8], u8, &[u8]); 7] = [
        (
            &[LOAD, OTHER_LOAD, PROCESS],
            b"",
            10,
            b"ack 1\nfollow refused 0 conflict\n",
        ),
        (
            &[LOAD, OTHER_TYPE, PROCESS],
            b"",
            10,
            b"ack 1\nfollow refused 0 conflict\n",
        ),
        (
            &[LOAD, MOVE, PROCESS],
            b"",
            10,
            b"ack 1\nfollow refused 0 conflict\n",
        ),
        (
            &[LOAD, NONE, PROCESS],
            b"",
            10,
            b"ack 1\nfollow refused 18446744073709551615 frame\n",
        ),
        (&[OTHER_TYPE], b"", 10, b"follow refused 0 fit\n"),
        (&[MOVE], b"", 10, b"follow refused 0 no-such-job\n"),
        (&[LOAD], &[0; 23], 5, b"frames refused\n"),
    ];
    for (frames, more, status, text) in table {
        let end = follow(rt.alloc(), frames, more)?;
        assert_same(&rt, end.told(), (status, text));
    }
    Ok(())
}
