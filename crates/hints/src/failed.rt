//! A failure outside: the call that failed, on what, and the system's own error.
use crate::hint_line::HintLine;
use crate::texts::{AFTER_WRITE, IS_LOCKED};
use real_outside::Failure;
use std::io::ErrorKind;

/// Adds the call that failed. Without one it was the input of `serve` that could not be read.
pub fn add_failure(hint: &mut HintLine, status: u8, failure: Option<Failure<'_>>) {
    match failure {
        Some(failure) => add_call(hint, status, &failure),
        None if status == 3 => hint.add("standard input: could not read it"),
        None => {}
    }
}

// Adds a call that failed, and what is to be said after it where it was one of a journal.
fn add_call(hint: &mut HintLine, status: u8, failure: &Failure<'_>) {
    hint.show(failure.name.as_bytes());
    hint.add(": could not ");
    hint.add(failure.call);
    hint.add(" it: ");
    hint.display(&failure.error);
    if status == 7 {
        hint.add(advice(failure));
    }
}

// What is to be said after a call on a journal that failed. After a write or a sync nobody knows what the disk holds.
fn advice(failure: &Failure<'_>) -> &'static str {
    match failure.call {
        "write" | "sync" => AFTER_WRITE,
        _ if failure.error.kind() == ErrorKind::WouldBlock => IS_LOCKED,
        _ => "",
    }
}
