//! The tables of files of which it is known what recovery answers.

use crate::answer::{Answer, check_bytes};
use crate::file::Start;
use crate::sample::ROOM;
use anyhow::{Context, Result};
use std::alloc::Global;

// A file, and what is answered.
#[derive(Clone, Copy)]
struct Given(Start, Answer);

const GIVEN: [Given; 7] = [
    Given(Start::Bytes(b""), Answer::Blank),
    Given(Start::Bytes(b"\x01"), Answer::Blank),
    Given(Start::Bytes(b"\x09RUNCELL1"), Answer::Blank),
    Given(Start::Bytes(b"hello"), Answer::NotAJournal),
    Given(Start::Bytes(b"\x01RUNCELL2"), Answer::NotAJournal),
    Given(Start::Bytes(b"RUNCELL1"), Answer::NotAJournal),
    Given(Start::Journal { grants: 5, gate: 2 }, Answer::Grants(5)),
];

// A file with so many bytes of any kind after it, and what is answered.
#[derive(Clone, Copy)]
struct Followed(Start, usize, Answer);

const FOLLOWED: [Followed; 6] = [
    Followed(Start::Bytes(b"\x00"), 40, Answer::Blank),
    Followed(Start::Bytes(b"\x09RUNCELL1"), 300, Answer::Blank),
    Followed(
        Start::Journal { grants: 0, gate: 1 },
        15,
        Answer::Damaged(203),
    ),
    Followed(
        Start::Journal { grants: 0, gate: 1 },
        16,
        Answer::Damaged(203),
    ),
    Followed(
        Start::Journal { grants: 0, gate: 1 },
        17,
        Answer::Damaged(203),
    ),
    Followed(Start::Journal { grants: 0, gate: 0 }, 30, Answer::Grants(0)),
];

// The bytes of any kind, each of which fills what comes after the file in its turn.
const FILLS: [u8; 5] = [0, 1, 2, b'R', 255];

/// Recovers the given files, and answers how many.
pub fn check_given(alloc: Global) -> Result<u64> {
    let mut files = check_followed(alloc)?;
    for Given(start, answer) in GIVEN {
        let bytes = start.followed_by(alloc, 0, 0)?;
        check_bytes(alloc, &bytes, ROOM, answer).context(format_args!("{start:?}"))?;
        files = files.wrapping_add(1);
    }
    Ok(files)
}

// The files with bytes of any kind after them.
fn check_followed(alloc: Global) -> Result<u64> {
    let mut files = 0u64;
    for Followed(start, count, answer) in FOLLOWED {
        check_fills(alloc, start, count, answer)?;
        files = files.wrapping_add(FILLS.len() as u64);
    }
    Ok(files)
}

fn check_fills(alloc: Global, start: Start, count: usize, answer: Answer) -> Result<()> {
    for fill in FILLS {
        let bytes = start.followed_by(alloc, count, fill)?;
        check_bytes(alloc, &bytes, ROOM, answer).context(format_args!(
            "{start:?} with {count} bytes {fill} after"
        ))?;
    }
    Ok(())
}
