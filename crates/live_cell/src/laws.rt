//! What holds of each live cell, and what follows of the clauses about each moment.
ghost use Rattle.std.specs.Prelude.{ℕ, ◌+◌, ◌≤◌, List, ◌++◌, length, IfSome};
ghost use Rattle.cell_base.specs.declared.shifts.Grant.{Grant};
ghost use Rattle.outside_io.specs.Disk.{LeavesOnly};
ghost use Rattle.move_journal.specs.Disks.{Shows};
ghost use Rattle.journal_format.specs.Journals.{StandsFor, IsBeforeOrAfterAll};
ghost use Rattle.durable_cell.specs.Clauses.{CellFits, IsAdmitted};
ghost use Rattle.live_cell.specs.Acknowledged.{HasSince};

use crate::LiveCell;
use outside_io::Disk;

/// The cell of a live cell fits, and its parts are admitted; the grants on its disk and the pending ones are no more than its room.
pub fn live_law<D: Disk>(live: &LiveCell<D>)
    ensures fits { CellFits live.now.cell }
    ensures admitted { IsAdmitted live.now.cell live.now.parts }
    ensures room { live.now.len + length live.now.pending ≤ live.now.room }
{
    let _core = live.core();
}

/// What a commit acknowledged is on each image at each later moment: the images have it at the return, and a later commit takes it
/// from none.
pub fn acknowledged_law<D: Disk>()
    ensures from_now_on { (disk : D) (text : List ℕ) (grants : List Grant)
        → Shows D.reads_as D.may_leave disk (λ file. StandsFor file text grants)
        → IfSome (D.reads_as disk) (λ _. HasSince D.moment D.left_since disk (D.moment disk) text grants) }
    ensures still { (old new : D) (then : ℕ) (text : List ℕ) (grants later more : List Grant)
        → HasSince D.moment D.left_since old then text grants
        → LeavesOnly D.moment D.left_since old new (IsBeforeOrAfterAll text (grants ++ later) more)
        → HasSince D.moment D.left_since new then text grants }
{}
