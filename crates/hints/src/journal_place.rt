//! A place of a journal, and what stands there.
use crate::hint_line::HintLine;

/// The bytes of a journal's mark, after the gate of its head.
pub const MARK_BYTES: u32 = 8;

/// The offset that a head which ends early is refused at.
const HEAD: u64 = 9;

/// The bytes of a gate and of the record after it.
const ENTRY_SIZE: u64 = 17;

/// Adds the mark of a journal, of its first bytes.
pub fn add_mark(hint: &mut HintLine, bytes: &[u8]) {
    hint.add(", bytes 1 to 8");
    if let [_, found @ ..] = bytes {
        hint.add(", ");
        hint.quote(found);
    }
}

/// Adds the first byte of the cell text that isn't that of the cell file, and the line of the cell file in which it lies.
pub fn add_cell_text(hint: &mut HintLine, cell: &str, number: u64, bytes: &[u8]) {
    hint.number("byte", number);
    hint.add(" of its cell text, line ");
    hint.display(&line_at(bytes, number));
    hint.add(" of ");
    hint.show(cell.as_bytes());
}

// The number, from 1, of the line in which a byte lies.
fn line_at(bytes: &[u8], at: u64) -> u64 {
    let mut line = 1u64;
    for (index, byte) in bytes.iter().enumerate() {
        if index as u64 >= at {
            break;
        }
        if *byte == b'\n' {
            line = line.saturating_add(1);
        }
    }
    line
}

/// How many bytes of a journal reach to the end of what follows a gate.
pub fn gate_limit(at: u64) -> u32 {
    u32::try_from(at.saturating_add(ENTRY_SIZE)).unwrap_or(u32::MAX)
}

/// Adds the offset of a gate that no journal has, and what stands there, of the bytes up to its end.
pub fn add_gate(hint: &mut HintLine, at: u64, bytes: &[u8]) {
    hint.number("byte", at);
    let left = (bytes.len() as u64).saturating_sub(at);
    hint.add(if at == HEAD {
        ", where the head ends early"
    } else if left == 0 {
        ", where the file ends and a gate is wanted"
    } else if left < ENTRY_SIZE {
        ", an open gate with fewer than 16 bytes after it"
    } else {
        ", an open gate with 16 bytes after it that are no grant, or none that can come there"
    });
}
