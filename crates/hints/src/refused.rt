//! What is refused, where in it, and why; and which bytes of files are looked at for it.
use crate::hint_line::HintLine;
use crate::journal_place::{MARK_BYTES, add_cell_text, add_gate, add_mark, gate_limit};
use crate::line_place::{add_line, line_limit};
use crate::place::Place;
use crate::refusal::Refusal;
use crate::toml_place::{add_not_toml, add_toml_place};
use std::alloc::Global;

/// The most bytes of a cell file.
const MAX_CELL: u32 = 65_536;

/// The most bytes that are read of a cell file or a shift file.
const MAX_DOCUMENT: u32 = 1_048_576;

/// The most bytes that are read of a file of frames.
const MAX_FRAMES: u32 = 50_331_648;

/// The file whose bytes are looked at: where a journal has another cell text, the cell file.
pub fn looked_at<'a>(refusal: &Refusal<'a>) -> &'a str {
    match refusal.place {
        Place::CellText(cell) => cell,
        _ => refusal.given,
    }
}

/// How many of its bytes are looked at, and one more; none where 0.
pub fn limit_of(refusal: &Refusal<'_>) -> u32 {
    match refusal.place {
        Place::Word | Place::File | Place::OneOf(_) | Place::Numbered(_) => 0,
        Place::NotToml | Place::Key | Place::Value | Place::Elements => MAX_DOCUMENT,
        Place::Line => line_limit(refusal.number),
        Place::Mark => MARK_BYTES,
        Place::CellText(_) => MAX_CELL,
        Place::Gate => gate_limit(refusal.number),
        Place::Length => MAX_FRAMES,
    }
}

/// Adds what is refused, where in it, what stands there in these bytes, and why; nothing of a line that isn't in the table of texts.
pub fn add_refused(alloc: Global, hint: &mut HintLine, refusal: &Refusal<'_>, bytes: &[u8]) {
    if !refusal.text.is_empty() {
        add_given(hint, refusal);
        add_place(alloc, hint, refusal, bytes);
        hint.add(":");
        hint.add(refusal.text);
    }
}

// Adds the word that the line is about.
fn add_given(hint: &mut HintLine, refusal: &Refusal<'_>) {
    let given = refusal.given.as_bytes();
    match refusal.place {
        Place::Word => hint.quote(given),
        _ => hint.show(given),
    }
}

// Adds the place, of which these bytes were looked at.
fn add_place(alloc: Global, hint: &mut HintLine, refusal: &Refusal<'_>, bytes: &[u8]) {
    let number = refusal.number;
    match refusal.place {
        Place::Word | Place::File => {}
        Place::OneOf(second) => add_second(hint, second),
        Place::NotToml => add_not_toml(alloc, hint, bytes),
        Place::Key | Place::Value | Place::Elements => add_toml_place(alloc, hint, refusal, bytes),
        Place::Line => add_line(hint, number, bytes),
        Place::Mark => add_mark(hint, bytes),
        Place::CellText(cell) => add_cell_text(hint, cell, number, bytes),
        Place::Gate => add_gate(hint, number, bytes),
        Place::Length => add_length(hint, bytes.len() as u64),
        Place::Numbered(word) => hint.number(word, number),
    }
}

fn add_second(hint: &mut HintLine, name: &str) {
    hint.add(" or ");
    hint.show(name.as_bytes());
}

// Adds how many bytes a file has, unless there are more than the limit, or it can't be read again.
fn add_length(hint: &mut HintLine, length: u64) {
    if length > 0 && length <= u64::from(MAX_FRAMES) {
        hint.count(length, "bytes");
    }
}
