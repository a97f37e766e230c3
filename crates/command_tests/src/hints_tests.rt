//! The lines as a person reads them, over files in memory. `checks/hints` compares those of the program over real files.
use crate::same::assert_same;
use hints::{Ended, hint};
use lists::List;
use outside_io::MemFiles;
use real_outside::Failure;
use std::alloc::Global;
use std::io::{Error, ErrorKind};
use std::test::Fail;

const USAGE: &str =
    "usage: solo CELL SHIFT, run CELL SHIFT JOURNAL, why CELL JOURNAL STEP, check CELL RECORD, make NUMBER, \
      carry CELL1 JOURNAL CELL2, begin CELL START JOURNAL, arrange CELL, feed CELL JOURNAL FROM, follow CELL FRAMES JOURNAL, \
      serve CELL JOURNAL\n";

/// A cell in which two parts can stand in each other's way.
const CELL: &str = r#"version = 1
resource = [{ name = "M1", capacity = 1, order = 1 }, { name = "M2", capacity = 1, order = 2 }]
type = [{ name = "A", route = ["M1", "M2"] }, { name = "Z", route = ["M2", "M1"] }]
"#;

/// For each fault of a cell file the file, what is printed, and the line.
const CELLS: &str = r#"= 1
cell refused 1
f: TOML parse error at line 1, column 1: invalid key, expected letters, numbers, `-`, `_` or a quoted key: no TOML document
color = 1
cell refused 2 top
f, "color": its keys are version, resource and type
version = 1
cell refused 2 top resource
f, resource: this key is missing
resource = [{ name = "M1", colour = 1 }]
cell refused 2 resource 0
f, resource 0 "M1", "colour": its keys are name, capacity and order
version = "1"
cell refused 3 top version
f, version "1": it has to be an integer
type = [{ name = "A", route = [1] }]
cell refused 3 type 0 route 0
f, type 0 "A", route 0, 1: it has to be a string
resource = [{ name = "M 1" }]
cell refused 4 resource 0 name
f, resource 0, name "M 1": no name, which is 1 to 32 of A-Z a-z 0-9 _ -
resource = [{ name = "M1", capacity = 0 }]
cell refused 5 resource 0 capacity
f, resource 0 "M1", capacity 0: it has to be from 1 to 1000
version = 3
cell refused 5 top version
f, version 3: it has to be 1 or 2
resource = [{ name = "M1" }, { name = "M1" }]
cell refused 6 resource 1 name
f, resource 1, name "M1": an earlier one has this name
type = [{ name = "A", route = ["M9"] }]
cell refused 7 type 0 route 0
f, type 0 "A", route 0, "M9": no resource has this name

cell refused 8 top 65537
f: more than 65536 bytes

cell refused 8 top resource 65
f, resource, 65 elements: more than 64
type = [{ name = "A" }]
cell refused 8 type 0 next 3 9
f, type 0 "A", next 3, 9 elements: more than 8
resource = []
cell refused 9 top resource
f, resource, an array of 0: it needs an element

cell refused 10
f: some resources have an order and some have none; give one to all, or to none

cell refused 11 5000
f, units 5000: the capacities of all resources add up to more than 4096

cell refused 12 17
f, resources 17: more than this command serves; advise takes 7, arrange 16
"#;

/// The same for each fault of a shift file.
const SHIFTS: &str = r#"session
shift refused 1
f: TOML parse error at line 1, column 8: key with no value, expected `=`: no TOML document
session = [{ job = 7, x = 1 }]
shift refused 2 session 1
f, session 1, "x": its keys are steps; or job, type and path; or machine and turns
session = [{ steps = [1] }]
shift refused 3 session 1 steps 0
f, session 1, step 0, 1: it has to be a string
session = [{}, { steps = ["unload 7", "go"] }]
shift refused 4 session 2 steps 1
f, session 2, step 1, "go": no step; these are load JOB TYPE, process RESOURCE, move JOB, move JOB BRANCH and unload JOB
patience = 0
shift refused 5 top patience
f, patience 0: it has to be from 1 to 1000
session = [{ path = [0, 9] }]
shift refused 5 session 1 path 1
f, session 1, path 1, 9: it has to be from 0 to 7
session = [{}, { steps = ["process M9"] }]
shift refused 6 session 2 steps 0
f, session 2, step 0, "process M9": the cell has no resource or type of this name
session = [{ steps = ["load 7 Q"] }]
shift refused 6 session 1 steps 0
f, session 1, step 0, "load 7 Q": the cell has no resource or type of this name
session = [{ type = "Q" }]
shift refused 6 session 1 type
f, session 1, type "Q": the cell has no type of this name
session = []
shift refused 7 top session
f, session, an array of 0: it needs an element

shift refused 8 top session 65
f, session, 65 elements: more than 64

shift refused 9 16385
f, steps 16385: all sessions together have more than 16384

shift refused 10 1048577
f, asks 1048577: the steps of all sessions times the patience are more than 1048576
"#;

/// The same for records, where a stroke stands for a newline.
const RECORDS: &str = r#"shift 1 after 2/left 0/plan 0/
no 1 after
f, line 1, "shift 1 after 2": the head has to name the grants before it
shift 1 after 0/1 unload 7 granted/left 0/plan 0/
no 2 reply
f, line 2, "1 unload 7 granted": the policy answers otherwise
shift 1 after 0/1 load 7 A halted/shift 1 after 1/1 process M1 granted/1 unload 7 granted/left 0/plan 0/
no 5 reply
f, line 5, "1 unload 7 granted": the policy answers otherwise
shift 1 after 0/1 load 7 A granted/left 2/plan 0/
no 3 left
f, line 3, "left 2": another number of parts is left
shift 1 after 0/1 load 7 A granted/left 1/plan 2/process M1/process M1/
no 6 step
f, line 6, "process M1": this step of the plan is not granted in its turn
shift 1 after 0/1 load 7 A granted/left 1/plan 1/process M1/
no 4 parts
f, line 4, "plan 1": parts remain when all steps of this plan are taken
shift 1 after 0/1 load 7 A grantd/
record refused 2
f, line 2, "1 load 7 A grantd": no record has this line after those before it
shift 1 after 0/left
record refused 2
f, line 2, "left", which lacks its newline: no record has this line after those before it
shift 1 after 0/
record refused 2
f, line 2, before which the file ends: no record has this line after those before it
shift 1 after 0/
record refused 0
f: more than 160000000 bytes
"#;

/// Words, a status with what is printed, and the line, where the files are those of `other_files`.
const OTHERS: &str = r#"check c pipe
5 record refused 4
pipe, line 4: no record has this line after those before it
check c pipe
1 no 4 left
pipe, line 4: another number of parts is left
check pipe r
4 cell refused 5 resource 0 capacity
pipe, resource 0, capacity: it has to be from 1 to 1000
carry c j start
4 cell refused 1
c or start: no TOML document
begin c start j
5 record refused 1
start, line 1, "place 7 A 0 waiting": no line place JOB TYPE PLACE done, or place JOB TYPE PLACE waiting, of a place that the cell has
why c j go
5 step refused
"go": no step of this cell; these are load JOB TYPE, process RESOURCE, move JOB, move JOB BRANCH and unload JOB, with the names of the cell file
follow c frames j
5 frames refused
frames, 10 bytes: no frames; these have 24 bytes each, and at most 50331648 together
run c s j
6 journal refused 5 2
j, session 2: another shift has this number; give the shift a new number, or the shift file that began it
begin c start j
6 journal refused 6 3
j, grant 3: no grant of this start file; begin wants a new journal, or one that the same begin was cut off in
carry c j d
10 carry refused 7 type
d, part 7: the other cell has no type of its name
carry c j d
10 carry refused 7 place
d, part 7: its type has no such place there on a resource of the same name
carry c j d
10 carry refused 7 saturated M2 1 of 1
d, part 7: the neighborhood of this resource would get more parts than it has units
begin c start j
10 start refused 1 job-loaded
start, line 1, "place 7 A 0 waiting": a part of this job is in the cell already
feed c j 9
10 feed refused 5
j, grants 5: FROM is above this number
follow c frames j
10 follow refused 3 frame
frames, grant 3: its record is none; the file was not made by feed, or was changed
follow c frames j
10 follow refused 3 conflict
frames, grant 3: the journal has another grant of this number; another controller made the frames
follow c frames j
10 follow refused 3 fit
frames, grant 3: the cell has no such type, resource or place; the frames are of another cell file
follow c frames j
10 follow refused 3 at-last
frames, grant 3: the part is at a last place, from which it is unloaded
follow c frames j
10 follow refused 3 no-branch
frames, grant 3: the part's place has no such branch

2 usage: ..
no word was given
sole c
2 usage: ..
"sole": no command
run c
2 usage: ..
run CELL SHIFT JOURNAL: another number of words was given
make x
2 usage: ..
make NUMBER, "x": no number from 0 to 18446744073709551615
serve c j
3 read fault
standard input: could not read it
run c s j
9 want of memory
there was not enough memory
"#;

/// What a person is told of a file that is no journal, of one of another cell file, and of a damaged one.
const NO_JOURNAL: &str =
    "no journal, and nothing was written to it; name a journal, or a file that isn't there";

const OTHER_CELL: &str =
    "made with another text of the cell file (a comment counts too); give that one, or bring its parts to this one by carry and begin (docs/MOVING.md)";

const DAMAGED: &str =
    "cut off or changed by another program; nothing was written to it. Keep it, and go on with a copy from before";

/// Journals as they stand, a zero for a point, with what is printed, where the fault is, and what it is.
const JOURNALS: [(&str, &str, &str, &str); 7] = [
    ("Dear reader", "1", "bytes 1 to 8, \"ear read\"", NO_JOURNAL),
    (
        "\u{1}RUNCELL1....",
        "2 12",
        "byte 12 of its cell text, line 2 of c",
        OTHER_CELL,
    ),
    (
        "\u{1}RUNCELL1.",
        "3 9",
        "byte 9, where the head ends early",
        DAMAGED,
    ),
    (
        "\u{1}RUNCELL1...\u{1}x",
        "3 14",
        "byte 14, where the file ends and a gate is wanted",
        DAMAGED,
    ),
    (
        "\u{1}RUNCELL1...\u{1}x\u{1}.",
        "3 14",
        "byte 14, an open gate with fewer than 16 bytes after it",
        DAMAGED,
    ),
    (
        "\u{1}RUNCELL1...\u{1}x\u{1}xxxxxxxxxxxxxxxx.",
        "3 14",
        "byte 14, an open gate with 16 bytes after it that are no grant, or none that can come there",
        DAMAGED,
    ),
    (
        "\u{1}RUNCELL1...\u{1}x\u{1}\u{1}......\u{1}...\u{7}.....",
        "3 14",
        "byte 14, an open gate with 16 bytes after it that are no grant, or none that can come there",
        DAMAGED,
    ),
];

// A text with one byte in the place of another.
fn replaced(alloc: Global, text: &str, old: u8, new: u8) -> Result<Vec<u8>, Fail> {
    let mut bytes = Vec::new(alloc);
    for byte in text.bytes() {
        bytes.push(if byte == old { new } else { byte })?;
    }
    Ok(bytes)
}

// The hint of a command that ended so, over these files.
fn told(
    alloc: Global,
    words: &str,
    files: &[(&str, &[u8])],
    status: u8,
    line: &str,
    failure: Option<Failure<'_>>,
) -> Result<String, Fail> {
    let mut held = MemFiles::new(alloc, List::new(alloc));
    for (name, bytes) in files {
        held.add(name, bytes)?;
    }
    let mut given = Vec::new(alloc);
    for word in words.split_whitespace() {
        given.push(String::from_str(alloc, word)?)?;
    }
    let ended = Ended {
        usage: USAGE.as_bytes(),
        words: &given,
        status,
        line: line.as_bytes(),
        failure,
    };
    match hint(alloc, &mut held, &ended) {
        Some(hint) => Ok(hint),
        None => Ok(String::from_str(alloc, "nothing")?),
    }
}

// The status of a line about a file.
fn status_of(line: &str) -> u8 {
    match line.split_whitespace().next() {
        Some("no") => 1,
        Some("cell") => 4,
        _ => 5,
    }
}

#[test]
fn each_fault_of_a_file_has_its_line(rt: HostRuntime) -> Result<(), Fail> {
    let mut seen = 0u32;
    for (words, cases) in [
        ("arrange f", CELLS),
        ("solo c f", SHIFTS),
        ("check c f", RECORDS),
    ] {
        let mut lines = cases.lines();
        for _ in 0..100 {
            let (Some(text), Some(line), Some(wanted)) = (lines.next(), lines.next(), lines.next())
            else {
                break;
            };
            let text = replaced(rt.alloc(), text, b'/', b'\n')?;
            let files: [(&str, &[u8]); 2] = [("c", CELL.as_bytes()), ("f", &text)];
            let told = told(rt.alloc(), words, &files, status_of(line), line, None)?;
            assert!(rt; told.as_str() == wanted, "{line}: {told}");
            seen = seen.saturating_add(1);
        }
    }
    assert_same(&rt, seen, 41);
    Ok(())
}

#[test]
fn other_refusals_have_their_lines(rt: HostRuntime) -> Result<(), Fail> {
    let files: [(&str, &[u8]); 3] = [
        ("c", CELL.as_bytes()),
        ("start", b"place 7 A 0 waiting\n"),
        ("frames", b"0123456789"),
    ];
    let mut seen = 0u32;
    let mut lines = OTHERS.lines();
    for _ in 0..100 {
        let (Some(words), Some(printed), Some(wanted)) = (lines.next(), lines.next(), lines.next())
        else {
            break;
        };
        let (status, line) = printed.split_once(" ").unwrap_or(("", ""));
        let status = status.parse::<u8>().unwrap_or(0);
        let told = told(rt.alloc(), words, &files, status, line, None)?;
        assert!(rt; told.as_str() == wanted, "{words}: {line}: {told}");
        seen = seen.saturating_add(1);
    }
    assert_same(&rt, seen, 25);
    Ok(())
}

#[test]
fn each_fault_of_a_journal_has_its_line(rt: HostRuntime) -> Result<(), Fail> {
    for (text, printed, there, fault) in JOURNALS {
        let bytes = replaced(rt.alloc(), text, b'.', 0)?;
        let files: [(&str, &[u8]); 2] = [("c", CELL.as_bytes()), ("j", &bytes)];
        let line = format!(in rt.alloc(); "journal refused {printed}\n")?;
        let told = told(rt.alloc(), "run c s j", &files, 6, line.as_str(), None)?;
        let wanted = format!(in rt.alloc(); "j, {there}: {fault}")?;
        assert!(rt; told.as_str() == wanted.as_str(), "{told}");
    }
    Ok(())
}

#[test]
fn calls_outside_that_fail(rt: HostRuntime) -> Result<(), Fail> {
    let absent = Error::from(ErrorKind::NotFound);
    let locked = Error::from(ErrorKind::WouldBlock);
    let advice = "copy the journal or restart the computer before you go on with it";
    let cases = [
        (3, "open", absent, ""),
        (7, "open", absent, ""),
        (7, "open", locked, "another program has it open"),
        (7, "sync", absent, advice),
        (7, "write", absent, advice),
        (8, "write", absent, ""),
    ];
    for (status, call, error, advice) in cases {
        let failure = Some(Failure {
            call,
            name: "j",
            error,
        });
        let told = told(
            rt.alloc(),
            "run c s j",
            &[],
            status,
            "device fault\n",
            failure,
        )?;
        let between = if advice.is_empty() { "" } else { "; " };
        let wanted = format!(in rt.alloc(); "j: could not {call} it: {error}{between}{advice}")?;
        assert!(rt; told.as_str() == wanted.as_str(), "{told}");
    }
    Ok(())
}

#[test]
fn nothing_is_told_where_nothing_is_known(rt: HostRuntime) -> Result<(), Fail> {
    let cases: [(u8, &str); 8] = [
        (0, "yes"),
        (1, "no"),
        (4, "cell refused 13"),
        (5, "shift refused 0"),
        (6, "journal refused 7"),
        (7, "device fault"),
        (10, "carry refused 7 far"),
        (11, ""),
    ];
    for (status, line) in cases {
        let told = told(rt.alloc(), "run c s j", &[], status, line, None)?;
        assert!(rt; told.as_str() == "nothing", "{status} {line}: {told}");
    }
    Ok(())
}

#[test]
fn what_cannot_be_seen_of_a_line_is_told(rt: HostRuntime) -> Result<(), Fail> {
    let cases: [(&[u8], &str); 3] = [
        (b"\x1b[2J\xff\n", "\"\\x1b[2J\\xff\""),
        (
            b"left 1\r\n",
            "\"left 1\\x0d\", which ends in a carriage return; lines end in a newline alone",
        ),
        (
            b"\xef\xbb\xbfleft 1\n",
            "\"\u{feff}left 1\", which begins with a byte order mark",
        ),
    ];
    for (text, found) in cases {
        let files: [(&str, &[u8]); 2] = [("c", CELL.as_bytes()), ("f", text)];
        let told = told(rt.alloc(), "check c f", &files, 5, "record refused 1", None)?;
        let wanted = format!(in rt.alloc();
            "f, line 1, {found}: no record has this line after those before it"
        )?;
        assert!(rt; told.as_str() == wanted.as_str(), "{told}");
    }
    Ok(())
}
