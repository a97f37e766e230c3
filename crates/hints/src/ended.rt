//! How a command ended, and the line for a person about it.
use crate::asked::Asked;
use crate::failed::add_failure;
use crate::hint_line::HintLine;
use crate::no_command::add_words;
use crate::refusal::Refusal;
use crate::refused::{add_refused, limit_of, looked_at};
use crate::texts::NO_MEMORY;
use outside_io::Files;
use real_outside::Failure;
use std::alloc::Global;
use std::str;

/// A command that has ended: the line that tells how each command is written, the words that it had, its status, the last line that it
/// printed, and the call outside that failed last, of what the status is about.
#[derive(Clone, Copy)]
pub struct Ended<'a> {
    pub usage: &'a [u8],
    pub words: &'a [String],
    pub status: u8,
    pub line: &'a [u8],
    pub failure: Option<Failure<'a>>,
}

/// One line for a person after a refusal, without a newline: the file, the place, what was found there, and what is wrong. There is none
/// where nothing was refused, and where it can't be made, for any cause.
pub fn hint<F: Files>(alloc: Global, files: &mut F, ended: &Ended<'_>) -> Option<String> {
    let mut hint = HintLine::new(alloc);
    let asked = Asked::new(text_of(ended.usage), ended.words);
    match ended.status {
        0 => {}
        2 => add_words(&mut hint, &asked),
        3 | 7 | 8 => add_failure(&mut hint, ended.status, ended.failure),
        9 => hint.add(NO_MEMORY),
        _ => add_printed(alloc, files, &mut hint, &asked, text_of(ended.line)),
    }
    hint.finish()
}

// Adds what a line tells that was printed.
fn add_printed<F: Files>(
    alloc: Global,
    files: &mut F,
    hint: &mut HintLine,
    asked: &Asked<'_>,
    line: &str,
) {
    let refusal = Refusal::of(asked, line);
    let bytes = bytes_of(alloc, files, looked_at(&refusal), limit_of(&refusal));
    add_refused(alloc, hint, &refusal, &bytes);
}

// The bytes of a file, cut after one more than the limit; none where it is 0, and where the file can't be read again.
fn bytes_of<F: Files>(alloc: Global, files: &mut F, name: &str, limit: u32) -> Vec<u8> {
    let mut bytes = Vec::new(alloc);
    if limit > 0 {
        let _ = files.read_file(alloc, name, u64::from(limit), &mut bytes);
    }
    bytes
}

fn text_of(bytes: &[u8]) -> &str {
    str::from_utf8(bytes).unwrap_or("")
}
