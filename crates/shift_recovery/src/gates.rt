//! A gate and the record after it. `move_journal::entry_write` has the table of their bytes.
ghost use Rattle.std.specs.Prelude.{◌≡◌, ◌<◌, ◌≤◌, ℕ, List, [], ◌++◌, length, false, IsTrue, Some, Ok, IfSome, IfNone};
ghost use Rattle.cell_base.specs.declared.shifts.Grant.{Grant};
ghost use Rattle.journal_format.specs.Readings as spec;

use cell_base::Grant;
use entry_codec::{ENTRY_SIZE, decode};
use journal_format::JournalFault;

/// What begins with the gate at an offset, where the bytes from there on begin with the window. None where more bytes
/// are needed, and `is_last` says that there are no more.
#[inline(always)]
#[tactic(auto, unfolding(journal_format::specs::Readings::gate_at))]
pub(crate) fn gate_in(
    window: &[u8],
    at: u64,
    is_last: bool,
) -> Option<Result<Option<Grant>, JournalFault>>
    ensures found { IfSome result (λ found. (unread : List ℕ) → (IsTrue is_last → unread ≡ [])
        → spec.gate_at at (window.now ++ unread) ≡ found) }
    ensures whole { (grant : Grant) → result ≡ Some (Ok (Some grant)) → ENTRY_SIZE < length window.now }
    ensures more { IfNone result ((is_last ≡ false) × (length window.now ≤ ENTRY_SIZE)) }
{
    match window {
        [] if is_last => Some(Err(JournalFault::Damaged { at })),
        [] => None,
        [gate, rest @ ..] => {
            if *gate != 1 {
                return Some(Ok(None));
            }
            if rest.len() < ENTRY_SIZE as usize {
                return if is_last {
                    Some(Err(JournalFault::Damaged { at }))
                } else {
                    None
                };
            }
            match rest.first_chunk::<16>() {
                Some(bytes) => match decode(bytes) {
                    Some(grant) => Some(Ok(Some(grant))),
                    None => Some(Err(JournalFault::Damaged { at })),
                },
                None => None,
            }
        }
    }
}
