//! Whole calls over objects in memory: the texts of both commands.
use crate::call_end::CallEnd;
use crate::same::assert_same;
use carry_commands::{Begin, Carry};
use cell_driver::drive;
use lists::{List, NoMemory};
use outside_io::{MemDisk, MemFiles, MemSink};
use std::alloc::Global;
use std::test::Fail;

/// Two machines with one place each, and two types that go through them in either direction.
const NARROW: &str = r#"version = 1
resource = [{ name = "M1", capacity = 1, order = 1 }, { name = "M2", capacity = 1, order = 2 }]
type = [{ name = "A", route = ["M1", "M2"] }, { name = "Z", route = ["M2", "M1"] }]
"#;

/// The same with two places on the second machine.
const WIDE: &str = r#"version = 1
resource = [{ name = "M1", capacity = 1, order = 1 }, { name = "M2", capacity = 2, order = 2 }]
type = [{ name = "A", route = ["M1", "M2"] }, { name = "Z", route = ["M2", "M1"] }]
"#;

/// The first type under another name.
const RENAMED: &str = r#"version = 1
resource = [{ name = "M1", capacity = 1, order = 1 }, { name = "M2", capacity = 1, order = 2 }]
type = [{ name = "B", route = ["M1", "M2"] }, { name = "Z", route = ["M2", "M1"] }]
"#;

/// The first type in the other direction.
const TURNED: &str = r#"version = 1
resource = [{ name = "M1", capacity = 1, order = 1 }, { name = "M2", capacity = 1, order = 2 }]
type = [{ name = "A", route = ["M2", "M1"] }, { name = "Z", route = ["M2", "M1"] }]
"#;

/// The second place of the first type doesn't work.
const HOLDING: &str = r#"version = 1
resource = [{ name = "M1", capacity = 1, order = 1 }, { name = "M2", capacity = 1, order = 2 }]
type = [{ name = "A", route = ["M1", "M2:hold"] }, { name = "Z", route = ["M2", "M1"] }]
"#;

fn begin(alloc: Global, cell: &str, start: &str, journal: &[u8]) -> Result<CallEnd, NoMemory> {
    let mut files = MemFiles::new(alloc, List::new(alloc));
    files.add("cell", cell.as_bytes())?;
    files.add("start", start.as_bytes())?;
    let mut out = MemSink::new(alloc, List::new(alloc));
    let disk = MemDisk::new(alloc, journal, List::new(alloc))?;
    let begin = Begin { start: "start" };
    let end = drive(&begin, alloc, &mut files, &mut out, "cell", disk);
    Ok(CallEnd::new(end, out))
}

fn carry(alloc: Global, old: &str, new: &str, journal: &[u8]) -> Result<CallEnd, NoMemory> {
    let mut files = MemFiles::new(alloc, List::new(alloc));
    files.add("old", old.as_bytes())?;
    files.add("new", new.as_bytes())?;
    let mut out = MemSink::new(alloc, List::new(alloc));
    let disk = MemDisk::new(alloc, journal, List::new(alloc))?;
    let carry = Carry { other: "new" };
    let end = drive(&carry, alloc, &mut files, &mut out, "old", disk);
    Ok(CallEnd::new(end, out))
}

const ON_M2: &str = "place 7 A 1 waiting\n";

const BOTH: &str = "place 7 A 0 waiting\nplace 8 Z 0 waiting\n";

#[test]
fn begun_and_gone_on_with(rt: HostRuntime) -> Result<(), Fail> {
    let alloc = rt.alloc();
    let first = begin(alloc, WIDE, ON_M2, b"")?;
    let table: [(&str, &[u8], u8, &[u8]); 3] = [
        (
            ON_M2,
            b"",
            0,
            b"shift 0 after 0\n0 place 7 A 1 waiting granted\nleft 1\nplan 2\nprocess M2\nunload 7\n",
        ),
        (
            ON_M2,
            first.journal(),
            0,
            b"shift 0 after 1\nleft 1\nplan 2\nprocess M2\nunload 7\n",
        ),
        (BOTH, first.journal(), 6, b"journal refused 6 0\n"),
    ];
    for (start, journal, status, text) in table {
        let end = begin(alloc, WIDE, start, journal)?;
        assert_same(&rt, end.told(), (status, text));
    }
    Ok(())
}

#[test]
fn starts_refused(rt: HostRuntime) -> Result<(), Fail> {
    let alloc = rt.alloc();
    let table: [(&str, u8, &[u8]); 5] = [
        ("", 0, b"shift 0 after 0\nleft 0\nplan 0\n"),
        (
            "place 7 A 0 waiting\nplace 7 A 0 waiting\n",
            10,
            b"start refused 2 job-loaded\n",
        ),
        (BOTH, 10, b"start refused 2 saturated M2 1 of 1\n"),
        ("place 7 A 0 waiting\nload 8 Z\n", 5, b"record refused 2\n"),
        ("place 7 A 1 waiting", 5, b"record refused 1\n"),
    ];
    for (start, status, text) in table {
        let end = begin(alloc, NARROW, start, b"")?;
        assert_same(&rt, end.told(), (status, text));
    }
    Ok(())
}

#[test]
fn carried_and_refused(rt: HostRuntime) -> Result<(), Fail> {
    let alloc = rt.alloc();
    let table: [(&str, &str, &str, u8, &[u8]); 7] = [
        (NARROW, ON_M2, WIDE, 0, b"place 7 A 1 waiting\n"),
        (NARROW, ON_M2, HOLDING, 0, b"place 7 A 1 done\n"),
        (NARROW, "", WIDE, 0, b""),
        (
            WIDE,
            BOTH,
            WIDE,
            0,
            b"place 7 A 0 waiting\nplace 8 Z 0 waiting\n",
        ),
        (NARROW, ON_M2, RENAMED, 10, b"carry refused 7 type\n"),
        (NARROW, ON_M2, TURNED, 10, b"carry refused 7 place\n"),
        (
            WIDE,
            BOTH,
            NARROW,
            10,
            b"carry refused 8 saturated M2 1 of 1\n",
        ),
    ];
    for (old, start, new, status, text) in table {
        let begun = begin(alloc, old, start, b"")?;
        let end = carry(alloc, old, new, begun.journal())?;
        assert_same(&rt, end.told(), (status, text));
        assert_same(&rt, end.journal(), begun.journal());
    }
    Ok(())
}
