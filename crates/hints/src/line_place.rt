//! A line of a record or of a start file, and what stands there.
use crate::hint_line::HintLine;
use crate::unseen::{BEGINS_WITH_MARK, BYTE_ORDER_MARK, ENDS_IN_RETURN};

/// The most bytes that are read of a record.
const MAX_RECORD: u32 = 160_000_000;

/// No good line of a record or of a start file has more bytes.
const LINE_BYTES: u64 = 256;

/// How many bytes of a file that many good lines may have.
pub fn line_limit(number: u64) -> u32 {
    match u32::try_from(number.saturating_mul(LINE_BYTES)) {
        Ok(bytes) => bytes.min(MAX_RECORD),
        Err(_) => MAX_RECORD,
    }
}

/// Adds a line by its number, from 1, and what stands there, of the bytes that were read for it.
pub fn add_line(hint: &mut HintLine, number: u64, bytes: &[u8]) {
    hint.number("line", number);
    if bytes.is_empty() {
        return;
    }
    let mut lines = bytes.split(|byte| *byte == b'\n');
    let before = usize::try_from(number.saturating_sub(1)).unwrap_or(usize::MAX);
    let text = lines.nth(before).unwrap_or(b"");
    let is_whole = lines.next().is_some() || bytes.len() > line_limit(number) as usize;
    if text.is_empty() && !is_whole {
        hint.add(", before which the file ends");
        return;
    }
    hint.add(", ");
    hint.quote(text);
    hint.add(unseen(text, is_whole));
}

// What can't be seen of a line.
fn unseen(text: &[u8], is_whole: bool) -> &'static str {
    if !is_whole {
        ", which lacks its newline"
    } else if text.ends_with(b"\r") {
        ENDS_IN_RETURN
    } else if text.starts_with(BYTE_ORDER_MARK) {
        BEGINS_WITH_MARK
    } else {
        ""
    }
}
