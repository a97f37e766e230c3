//! The stored cell text, compared with the given one piece by piece.
ghost use Rattle.std.specs.Prelude.{◌≡◌, ◌+◌, ◌^◌, ◌<◌, ◌≤◌, ℕ, List, ◌++◌, length, drop, IfSome, IfNone, IfOk, Some, OnOk, IsErrOf};
ghost use Rattle.std.specs.Option.{ForSome};
ghost use Rattle.outside_io.specs.Causes.{Rose};
ghost use Rattle.journal_format.specs.Readings.{first_difference};
ghost use Rattle.journal_format.specs.Reads.{OnlyReads};
ghost use Rattle.shift_recovery.specs.Windows.{IsTextEnd};

use crate::pieces::{PIECE, with_piece};
use crate::stop::Stop;
use journal_format::TEXT_AT;
use outside_io::Disk;
use std::alloc::Global;

// The first offset at which the bytes are not the text's, or at which the text ends, where they begin at an offset.
fn difference(from: u64, bytes: &[u8], text: &[u8]) -> Option<u64>
    requires { from + length bytes.now < 2 ^ 64 }
    ensures some { IfSome result (λ at. (more : List ℕ)
        → first_difference from (bytes.now ++ more) text.now ≡ Some at) }
    ensures none { IfNone result ((length bytes.now ≤ length text.now) × ((more : List ℕ)
        → first_difference from (bytes.now ++ more) text.now
        ≡ first_difference (from + length bytes.now) more (drop (length bytes.now) text.now))) }
{
    for (index, byte) in bytes.iter().enumerate() {
        if index >= text.len() || *byte != text[index] {
            return Some(from + index as u64);
        }
    }
    None
}

/// Where the reading of a file stands: the bytes before `at` have been read, and the last of them are kept.
#[derive(Drop)]
pub(crate) struct Window {
    pub(crate) at: u64,
    pub(crate) kept: Vec<u8>,
    pub(crate) used: usize,
}

/// What came of the comparison of the stored text.
#[derive(Drop)]
pub(crate) enum Compared {
    Differs(u64),
    Same(Window),
}

/// Compares the stored text of `size` bytes with the given one, from the start of the file's text on.
pub(crate) fn compare<D: Disk>(
    alloc: Global,
    disk: &mut D,
    len: u64,
    kept: Vec<u8>,
    size: u64,
    text: &[u8],
) -> Result<Compared, Stop>
    requires within { TEXT_AT + size ≤ len }
    requires read { (length kept.items ≤ len) × (TEXT_AT ≤ length kept.items) }
    requires bytes { ForSome (D.reads_as disk.old)
        (λ file. (length file ≡ len) × (file ≡ kept.items ++ drop (length kept.items) file)) }
    ensures reads { OnlyReads D.reads_as D.may_leave D.moment D.left_since disk.old disk.new }
    ensures compared { IfOk result (λ compared. IsTextEnd D.reads_as disk.old len size text.now compared) }
    ensures ok { OnOk result (D.faults disk.new ≡ D.faults disk.old) }
    ensures device { IsErrOf result Stop.Device → Rose (D.faults disk.old) (D.faults disk.new) }
    ensures memory { IsErrOf result Stop.Memory → D.faults disk.new ≡ D.faults disk.old }
{
    let mut at = kept.len() as u64;
    let mut kept = kept;
    let mut used = TEXT_AT as usize;
    let mut done = 0;
    'text: loop {
        let ready = ((kept.len() - used) as u64).min(size - done);
        let end = used + ready as usize;
        match difference(done, &kept[used..end], &text[done as usize..]) {
            Some(at) => return Ok(Compared::Differs(at)),
            None => {}
        }
        done += ready;
        used = end;
        if done == size {
            break;
        }
        kept = with_piece(alloc, disk, at, len, &kept[used..])?;
        used = 0;
        at += PIECE.min(len - at);
    }
    if size < text.len() as u64 {
        return Ok(Compared::Differs(size));
    }
    Ok(Compared::Same(Window { at, kept, used }))
}
