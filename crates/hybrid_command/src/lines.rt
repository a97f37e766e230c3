//! The line of what a session asked a hybrid for and was told.
//!
//! It is the line of a record, but for the reason in the place of `saturated RESOURCE COUNT of CAPACITY`, which is
//! `blocked RESOURCE COUNT of CAPACITY stuck PARTS`.
ghost use Rattle.std.specs.Prelude.{codes, ◌≡◌, ◌+◌, ◌*◌, ◌<◌, ◌≤◌, ◌∷◌, ◌++◌, length};
ghost use Rattle.hybrid_command.specs.Clauses.{EntryFits, LINE_BYTES, blocked_words, entry_line, line_of, taken};

use arrayvec::ArrayVec;
use banker_check::HybridReply;
use cell_base::{Cell, ResId};
use hybrid_rounds::{HybridEntry, taken, taken_reply};
use record_text::{LINE_BYTES, Line, add_resource, line_of, reply_line};

/// The most bytes of a line: what stands before a reply, and a block.
const ENTRY_BYTES: usize = 2 * LINE_BYTES;

/// The bytes of a line, on the stack.
pub type EntryLine = ArrayVec<u8, ENTRY_BYTES>;

/// The line of an entry.
pub fn entry_line(cell: &Cell, entry: &HybridEntry) -> EntryLine
    requires { EntryFits cell.now (taken entry.now) }
    ensures { result.items ≡ entry_line cell.now entry.now }
{
    let recorded = line_of(cell, &taken(entry));
    let mut line = ArrayVec::new();
    match entry.told {
        HybridReply::Blocked {
            at,
            count,
            capacity,
            stuck,
        } => {
            let replied = reply_line(cell, &taken_reply(entry.told));
            let asked = recorded.bytes().len() - replied.bytes().len();
            append(&mut line, &recorded.bytes()[..asked]);
            append(
                &mut line,
                block_line(cell, at, count, capacity, stuck).bytes(),
            );
        }
        HybridReply::Granted | HybridReply::Refused(_) => append(&mut line, recorded.bytes()),
    }
    line
}

// A refusal by a block, on a line of its own.
fn block_line(cell: &Cell, at: ResId, count: u32, capacity: u32, stuck: u32) -> Line
    requires { at.0 < length cell.now.resources }
    ensures { result ≡ line_of (codes "refused" ∷ blocked_words cell.now at count capacity stuck) }
{
    let mut line = Line::of_word(b"refused");
    line.word(b"blocked");
    add_resource(&mut line, cell, at);
    line.number(count);
    line.word(b"of");
    line.number(capacity);
    line.word(b"stuck");
    line.number(stuck);
    line.end()
}

// More bytes on a line.
fn append(line: &mut EntryLine, bytes: &[u8])
    requires { length line.old.items + length bytes.now ≤ 2 * LINE_BYTES }
    ensures { line.new.items ≡ line.old.items ++ bytes.now }
{
    let _ = line.try_extend_from_slice(bytes);
}
