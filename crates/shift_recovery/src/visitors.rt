//! What is shown the grants of a journal, one after the other, as they are read.
ghost use Rattle.std.specs.Prelude.{◌≡◌, ℕ, ◌+◌, ◌*◌, List as Sequence, [], ◌∷◌, ◌++◌, length, OnOk, ⊤};
ghost use Rattle.cell_base.specs.declared.shifts.Grant.{Grant as OneGrant};

use cell_base::{Grant, List, NoMemory};
use entry_codec::ENTRY_SIZE;

/// Is shown grants in their order, and keeps of them what it wants.
pub trait GrantVisitor {
    /// From the one value to the other it saw these grants. The gate of the first stands at the offset, and each further gate
    /// after the record before it.
    ghost visited: { Self → ℕ → Sequence OneGrant → Self → Type 0 };

    /// Is shown one grant more, whose gate stands at an offset of the file. Where memory is wanting nothing is known of what it saw.
    fn visit(&mut self, at: u64, grant: Grant) -> Result<(), NoMemory>
        ensures { (start : Self) (first : ℕ) (grants : Sequence OneGrant) → at ≡ first + ENTRY_SIZE * length grants
            → visited start first grants self.old → OnOk result (visited start first (grants ++ grant ∷ []) self.new) };
}

/// A list keeps what it is shown.
impl GrantVisitor for List<Grant> {
    ghost visited = { λ _ _ grants list. list ≡ grants };

    fn visit(&mut self, _at: u64, grant: Grant) -> Result<(), NoMemory> {
        self.try_push(grant)
    }
}

/// Keeps nothing.
#[derive(Clone, Copy, Debug, PartialEq, Eq)]
pub struct Discard;

impl GrantVisitor for Discard {
    ghost visited = { λ _ _ _ _. ⊤ };

    fn visit(&mut self, _at: u64, _grant: Grant) -> Result<(), NoMemory> {
        Ok(())
    }
}
