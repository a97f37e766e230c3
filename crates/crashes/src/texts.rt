//! Cell texts that are not the one of the journal.

use crate::answer::{Answer, check_text};
use crate::file::journal;
use crate::sample::{CELL, ROOM};
use anyhow::{Context, Result};
use std::alloc::Global;

/// Recovers a journal with each text that has another byte or ends early, and answers how many. Of the first ones one has
/// another order of M2, at 106.
pub fn check_texts(alloc: Global) -> Result<u64> {
    let bytes = journal(alloc, 5, 0)?;
    check_changed(alloc, &bytes)?;
    check_shorter(alloc, &bytes)?;
    Ok(2 * CELL.len() as u64)
}

fn check_changed(alloc: Global, bytes: &[u8]) -> Result<()> {
    for at in 0..CELL.len() {
        let mut text = *CELL;
        text[at] ^= 1;
        check_text(alloc, bytes, &text, ROOM, Answer::OtherCell(at as u64)).context(format_args!(
            "a text with another byte at {at}"
        ))?;
    }
    Ok(())
}

fn check_shorter(alloc: Global, bytes: &[u8]) -> Result<()> {
    for len in 0..CELL.len() {
        check_text(
            alloc,
            bytes,
            &CELL[..len],
            ROOM,
            Answer::OtherCell(len as u64),
        )
        .context(format_args!("a text of {len} bytes"))?;
    }
    Ok(())
}
