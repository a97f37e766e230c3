//! The tables of journals that are cut short, or have more grants than room.

use crate::answer::{Answer, check_bytes};
use crate::file::journal;
use anyhow::{Context, Result, bail};
use std::alloc::Global;

/// A journal of so many grants, the first and the last of the lengths to which it is cut, the room, and what is answered.
#[derive(Clone, Copy)]
pub struct Cut(u64, usize, usize, u64, Answer);

/// A journal of five grants, length by length.
pub const EVERY_CUT: [Cut; 10] = [
    Cut(5, 0, 1, 5, Answer::Blank),
    Cut(5, 2, 8, 5, Answer::NotAJournal),
    Cut(5, 9, 202, 5, Answer::Damaged(9)),
    Cut(5, 203, 203, 5, Answer::Damaged(203)),
    Cut(5, 204, 220, 5, Answer::Damaged(203)),
    Cut(5, 221, 237, 5, Answer::Damaged(220)),
    Cut(5, 238, 254, 5, Answer::Damaged(237)),
    Cut(5, 255, 271, 5, Answer::Damaged(254)),
    Cut(5, 272, 288, 5, Answer::Damaged(271)),
    Cut(5, 289, 289, 5, Answer::Grants(5)),
];

/// More grants than room, and as many.
pub const ROOMS: [Cut; 6] = [
    Cut(0, 204, 204, 0, Answer::Grants(0)),
    Cut(1, 221, 221, 0, Answer::Long(1)),
    Cut(2, 238, 238, 2, Answer::Grants(2)),
    Cut(3, 255, 255, 2, Answer::Long(3)),
    Cut(4, 272, 272, 2, Answer::Long(3)),
    Cut(3, 254, 254, 2, Answer::Damaged(237)),
];

/// Journals that are read in pieces of 4,096 bytes.
pub const PIECES: [Cut; 4] = [
    Cut(229, 4097, 4097, 1000, Answer::Grants(229)),
    Cut(229, 4096, 4096, 1000, Answer::Damaged(4079)),
    Cut(470, 8194, 8194, 1000, Answer::Grants(470)),
    Cut(470, 8192, 8192, 1000, Answer::Damaged(8176)),
];

/// Recovers the journals of a table, and answers how many.
pub fn check_cuts(alloc: Global, cuts: &[Cut]) -> Result<u64> {
    let mut files = 0u64;
    for cut in cuts {
        files = files.wrapping_add(check_cut(alloc, *cut)?);
    }
    Ok(files)
}

fn check_cut(alloc: Global, cut: Cut) -> Result<u64> {
    let Cut(grants, from, to, room, answer) = cut;
    let bytes = journal(alloc, grants, 0)?;
    for len in from..=to {
        let Some(bytes) = bytes.get(..len) else {
            bail!("a journal of {grants} grants has no {len} bytes");
        };
        check_bytes(alloc, bytes, room, answer).context(format_args!(
            "{grants} grants cut to {len} bytes, room {room}"
        ))?;
    }
    Ok(to.saturating_sub(from).wrapping_add(1) as u64)
}
