//! A disk as it once was, which contracts alone read. It is the view of a seat, since a `Snapshot` beside a seat leaves `Send`
//! unproved.
ghost use Rattle.std.specs.Prelude.{◌≡◌, ◌∷◌, [], IfOk, ⊤};

use atomic_table::{Badge, Table, TableRule};
use outside_io::Disk;
use std::alloc::{AllocError, Global};

/// The rule of a table of which only the first view matters.
pub struct MarkRule;

impl<D: Disk> TableRule<u8, D, D> for MarkRule {
    ghost holds = { λ _ _. ⊤ };

    ghost first = { λ disk. disk };
}

/// Keeps a disk as it is now, in no bytes.
pub(crate) fn mark_of<D: Disk>(alloc: Global, disk: &D) -> Result<Badge<D>, AllocError>
    ensures { IfOk result (λ badge. badge.views ≡ disk.now ∷ []) }
{
    let (_table, seat) = Table::<u8, D, D, MarkRule, Global>::of_words(alloc, &[0], disk)?;
    Ok(seat.into_badge())
}
