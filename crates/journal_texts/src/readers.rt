//! A journal that is only read: the state after its grants, and the grants.
ghost use Rattle.std.specs.Prelude.{◌≡◌, ◌≤◌, ℕ, [], length, IfOk, IfErr};
ghost use Rattle.cell_walks.specs.Clauses.{IsNotOpened, IsOnlyRead, disk_told};
ghost use Rattle.cell_texts.specs.Clauses.{CellFits, MAX_CELL_BYTES, known};
ghost use Rattle.journal_texts.specs.Clauses.{GrantsFit, IsAfterGrants, IsFound, IsReplayed, IsStable, to_read};

use crate::refusals::at_open_fault;
use admission_core::Core;
use cell_base::{Grant, List};
use cell_texts::{Answered, CellFile, Made};
use cell_walks::EarlyEnd;
use durable_cell::{MAX_ROOM, Resumed, resume};
use outside_io::Disk;
use shift_recovery::{Discard, GrantVisitor, OpenError};
use std::alloc::Global;

/// A core in the state after grants, and how many these are.
#[derive(Drop)]
pub struct AfterGrants {
    pub core: Core,
    pub grants: u64,
}

/// The grants of a journal, and a core in the state after them.
#[derive(Drop)]
pub struct Found {
    pub core: Core,
    pub grants: List<Grant>,
}

/// The state after the grants of the cell that stand on a disk, or the end in its place. It only reads, and keeps no list of the grants. What
/// it tells is stable: it syncs once more after the last read.
pub fn read_journal<D: Disk>(alloc: Global, held: CellFile, disk: D) -> Answered<AfterGrants, D>
    requires fits { CellFits held.cell }
    requires short { length held.text.items ≤ MAX_CELL_BYTES }
    ensures read { IfOk result.made (IsAfterGrants
        (disk_told D.reads_as D.may_leave D.moment D.left_since D.faults disk result.disk) (to_read (known held))) }
    ensures ended { IfErr result.made (IsNotOpened
        (disk_told D.reads_as D.may_leave D.moment D.left_since D.faults disk result.disk) (to_read (known held))) }
    ensures only_read { IsOnlyRead (disk_told D.reads_as D.may_leave D.moment D.left_since D.faults disk result.disk) }
    ensures stable { IfOk result.made (λ _. IsStable
        (disk_told D.reads_as D.may_leave D.moment D.left_since D.faults disk result.disk)) }
{
    let Made { made, disk } = replay_journal(alloc, held, disk, Discard);
    let made = match made {
        Ok(replayed) => Ok(AfterGrants {
            core: replayed.core,
            grants: replayed.count,
        }),
        Err(end) => Err(end),
    };
    Made { made, disk }
}

/// The grants of the cell that stand on a disk, with the state after them, or the end in their place. It only reads, and what it tells is
/// stable.
pub fn find_grants<D: Disk>(alloc: Global, held: CellFile, disk: D) -> Answered<Found, D>
    requires fits { CellFits held.cell }
    requires short { length held.text.items ≤ MAX_CELL_BYTES }
    ensures found { IfOk result.made (IsFound
        (disk_told D.reads_as D.may_leave D.moment D.left_since D.faults disk result.disk) (to_read (known held))) }
    ensures fit { IfOk result.made GrantsFit }
    ensures ended { IfErr result.made (IsNotOpened
        (disk_told D.reads_as D.may_leave D.moment D.left_since D.faults disk result.disk) (to_read (known held))) }
    ensures only_read { IsOnlyRead (disk_told D.reads_as D.may_leave D.moment D.left_since D.faults disk result.disk) }
    ensures stable { IfOk result.made (λ _. IsStable
        (disk_told D.reads_as D.may_leave D.moment D.left_since D.faults disk result.disk)) }
{
    let Made { made, disk } = replay_journal(alloc, held, disk, List::new(alloc));
    match made {
        Ok(replayed) => Made {
            made: Ok(Found {
                core: replayed.core,
                grants: replayed.kept,
            }),
            disk,
        },
        Err(end) => Made::ended(end, disk),
    }
}

/// A core in the state after the grants of a journal, how many these are, and what is kept of them.
#[derive(Drop)]
pub(crate) struct Replayed<K> {
    core: Core,
    count: u64,
    kept: K,
}

// The state after the grants of the cell that stand on a disk, which somebody takes, or the end in its place.
fn replay_journal<D: Disk, K: GrantVisitor + Drop>(
    alloc: Global,
    held: CellFile,
    disk: D,
    kept: K,
) -> Answered<Replayed<K>, D>
    requires fits { CellFits held.cell }
    requires none { (first : ℕ) → K.visited kept first [] kept }
    ensures replayed { IfOk result.made (IsReplayed
        (disk_told D.reads_as D.may_leave D.moment D.left_since D.faults disk result.disk) (to_read (known held)) K.visited kept) }
    ensures ended { IfErr result.made (IsNotOpened
        (disk_told D.reads_as D.may_leave D.moment D.left_since D.faults disk result.disk) (to_read (known held))) }
    ensures only_read { IsOnlyRead (disk_told D.reads_as D.may_leave D.moment D.left_since D.faults disk result.disk) }
    ensures stable { IfOk result.made (λ _. IsStable
        (disk_told D.reads_as D.may_leave D.moment D.left_since D.faults disk result.disk)) }
{
    let CellFile { cell, text } = held;
    match resume(alloc, cell, &text, disk, MAX_ROOM, kept) {
        Ok(Resumed { core, stored, kept }) => {
            let count = stored.count();
            let mut disk = stored.into_disk();
            // While it was read another program may have added to it.
            if disk.sync().is_err() {
                return Made::ended(EarlyEnd::DeviceFailed, disk);
            }
            Made {
                made: Ok(Replayed { core, count, kept }),
                disk,
            }
        }
        Err(OpenError { disk, why }) => Made::ended(at_open_fault(why), disk),
    }
}
