//! One conversation compared with its call in which nothing failed, and then played with its puts failing in their turn, of
//! which the sink takes nothing or a first part, each read, and each call of the journal's device. Of a run whose lines are left
//! open some calls of the device fail.

use crate::scripted::call_end::CallEnd;
use crate::scripted::caller::{Caller, Failing};
use crate::scripted::command::{has_journal, may_write, piece_bytes};
use crate::scripted::conversation::Conversation;
use crate::scripted::cut::Cut;
use crate::scripted::device::play_device;
use crate::scripted::folder::Folder;
use crate::scripted::halts::play_halts;
use anyhow::{Context, Result, bail};
use std::alloc::Global;
use std::rt::Clock;
use std::sync::Wait;
use std::thread::Threads;

// Of a text of many pieces each of the first puts is made to fail, and the last.
const FIRST_PUTS: u64 = 64;

// Between these, one put in so many is.
const EACH_PUT: u64 = 64;

/// Ends with what was wanted and told where a conversation doesn't go as written, in the call that ended like this, or in
/// another one of which a part fails.
pub fn check<R: Print + Clock + Threads + Wait + Sync>(
    caller: &Caller<'_, R>,
    conversation: &Conversation,
    told: &CallEnd,
) -> Result<()> {
    if !conversation.is_met_by(told.status, told.text.as_slice()) {
        return caller.end_otherwise(conversation.written()?.as_str(), told);
    }
    check_left(caller, conversation, told)?;
    let words = conversation.words();
    if conversation.is_open_run() {
        return play_halts(caller, words, told);
    }
    play_puts(caller, words, told)?;
    play_reads(caller, words, told)?;
    if has_journal(words) {
        play_device(caller, words, told)?;
    }
    Ok(())
}

/// Plays a conversation with a file cut to each of the lengths, and ends at the first at which it goes otherwise.
pub fn check_cuts<R: Print + Clock + Threads + Wait + Sync>(
    rt: &R,
    alloc: Global,
    folder: &Folder,
    conversation: &Conversation,
    cut: &Cut,
) -> Result<()> {
    for length in cut.lengths() {
        let folder = folder.with_cut(cut.name(), *length)?;
        let caller = Caller::new(rt, alloc, &folder);
        let told = caller.call(conversation.words(), Failing::Nothing)?;
        check(&caller, conversation, &told).context(format_args!("cut to {length} bytes"))?;
    }
    Ok(())
}

// What a call leaves of its journal is as written, and as it was where the command doesn't write.
fn check_left<R: Print + Clock + Threads + Wait + Sync>(
    caller: &Caller<'_, R>,
    conversation: &Conversation,
    told: &CallEnd,
) -> Result<()> {
    let CallEnd { status, text, .. } = told;
    if let Some(name) = conversation.file_left() {
        match caller.folder().bytes_of(name.as_str()) {
            Some(left) => caller.check(told, *status, text.as_slice(), left)?,
            None => bail!("there is no file {name}"),
        }
    }
    let words = conversation.words();
    if may_write(words) {
        return Ok(());
    }
    caller.check(told, *status, text.as_slice(), caller.journal(words))
}

// Plays it with such puts failing in turn, whole and torn: the lines before it were taken, or these and the first half of
// its own, the status is 8, and the journal is left as without a failure.
fn play_puts<R: Print + Clock + Threads + Wait + Sync>(
    caller: &Caller<'_, R>,
    words: &[String],
    whole: &CallEnd,
) -> Result<()> {
    let mut put = 0u64;
    let mut taken = 0usize;
    for _ in 0..whole.text.len() {
        let rest = whole.text.get(taken..).unwrap_or(b"");
        if rest.is_empty() {
            break;
        }
        put = put.wrapping_add(1);
        let piece = first_piece(rest, piece_bytes(words, whole.status));
        if put <= FIRST_PUTS || put % EACH_PUT == 0 || piece == rest.len() {
            play_put(caller, words, whole, put, taken)?;
            play_torn_put(caller, words, whole, put, taken.wrapping_add(piece / 2))?;
        }
        taken = taken.wrapping_add(piece);
    }
    Ok(())
}

// How many bytes the first piece of a text has: so many, or the first line.
fn first_piece(text: &[u8], bytes: Option<usize>) -> usize {
    match bytes {
        Some(bytes) => bytes.min(text.len()),
        None => {
            let line = text.split_inclusive(|byte| *byte == b'\n').next();
            line.unwrap_or(text).len()
        }
    }
}

// Plays it with this put failing: so many bytes were taken before it.
fn play_put<R: Print + Clock + Threads + Wait + Sync>(
    caller: &Caller<'_, R>,
    words: &[String],
    whole: &CallEnd,
    put: u64,
    taken: usize,
) -> Result<()> {
    let told = caller.call(words, Failing::Put(put))?;
    let text = whole.text.get(..taken).unwrap_or(b"");
    caller
        .check(&told, 8, text, whole.left())
        .context(format_args!("where put {put} fails"))
}

// Plays it with this put torn: so many bytes were taken with the first half of its piece.
fn play_torn_put<R: Print + Clock + Threads + Wait + Sync>(
    caller: &Caller<'_, R>,
    words: &[String],
    whole: &CallEnd,
    put: u64,
    taken: usize,
) -> Result<()> {
    let told = caller.call(words, Failing::TornPut(put))?;
    let text = whole.text.get(..taken).unwrap_or(b"");
    caller
        .check(&told, 8, text, whole.left())
        .context(format_args!("where put {put} is torn"))
}

// Plays it with each read failing in its turn: that is told, up to the first read to which the call doesn't come.
fn play_reads<R: Print + Clock + Threads + Wait + Sync>(
    caller: &Caller<'_, R>,
    words: &[String],
    whole: &CallEnd,
) -> Result<()> {
    for read in 1..=u64::MAX {
        let mut told = caller.call(words, Failing::Read(read))?;
        if told.fails_next_read(caller.alloc())? {
            return caller.check(&told, whole.status, whole.text.as_slice(), whole.left());
        }
        caller
            .check(&told, 3, b"read fault\n", caller.journal(words))
            .context(format_args!("where read {read} fails"))?;
    }
    Ok(())
}
