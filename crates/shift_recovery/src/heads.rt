//! The head of a file: the gate of the file, the name and the length of the cell text.
ghost use Rattle.std.specs.Prelude.{◌≡◌, ◌<◌, ◌≤◌, ℕ, min, length, slice_index};
ghost use Rattle.journal_format.specs.Readings.{head_of};

use journal_format::{BlankForm, Head, JournalFault, NAME, TEXT_AT};

/// The head of a file of `len` bytes, which begins with these.
#[tactic(auto, unfolding(journal_format::specs::Readings::head_of))]
pub(crate) fn read_head(start: &[u8], len: u64) -> Head
    requires { min TEXT_AT len ≤ length start.now }
    ensures head { result ≡ head_of len start.now }
    ensures in_range { (i : ℕ) → slice_index start.now i < 256 }
{
    if len < 2 {
        return Head::Blank(BlankForm::Short);
    }
    if start[0] == 0 {
        return Head::Blank(BlankForm::Shut);
    }
    if len < 9 || &start[1..9] != NAME.as_slice() {
        return Head::Faulty(JournalFault::NotAJournal);
    }
    if start[0] != 1 {
        return Head::Blank(BlankForm::Named);
    }
    if len < TEXT_AT {
        return Head::Faulty(JournalFault::Damaged { at: 9 });
    }
    let size = u32::from_be_bytes([start[9], start[10], start[11], start[12]]);
    if len < TEXT_AT + u64::from(size) {
        return Head::Faulty(JournalFault::Damaged { at: 9 });
    }
    Head::Open(size)
}
