//! What a disk holds once it is recovered: nothing yet, or a journal.
ghost use Rattle.std.specs.Prelude.{◌≡◌, ◌≤◌, ℕ, List as Sequence, length};
ghost use Rattle.cell_base.specs.declared.shifts.Grant.{Grant};
ghost use Rattle.durable_cell.specs.Made.{IsMade};
ghost use Rattle.durable_cell.specs.StoredGrants.{disk_stored, IsStored};

use move_journal::{Blank, Journal, MAX_CELL_TEXT};
use outside_io::Disk;

/// A recovered disk.
#[derive(Drop)]
pub enum Stored<D: Disk> {
    /// It holds no journal.
    Nothing(Blank<D>),
    /// It holds a journal.
    Journal(Journal<D>),
}

impl<D: Disk> Stored<D> {
    /// The disk.
    pub(crate) fn disk(&self) -> &D
        ensures { result.now ≡ disk_stored self.now }
    {
        match self {
            Stored::Nothing(blank) => blank.disk(),
            Stored::Journal(journal) => journal.disk(),
        }
    }

    /// The number of its grants.
    pub fn count(&self) -> u64
        ensures { (text : Sequence ℕ) (grants : Sequence Grant) → IsStored D.reads_as D.may_leave text grants self.now
            → result ≡ length grants }
    {
        match self {
            Stored::Nothing(_) => 0,
            Stored::Journal(journal) => journal.len(),
        }
    }

    /// The disk, as it is.
    pub fn into_disk(self) -> D
        ensures { result ≡ disk_stored self }
    {
        match self {
            Stored::Nothing(blank) => blank.into_disk(),
            Stored::Journal(journal) => journal.into_disk(),
        }
    }

    /// The journal; where there is none, one of no grants is made. An `Err` hands the disk back; the device failed.
    pub fn into_journal(self, cell_text: &[u8]) -> Result<Journal<D>, D>
        requires { length cell_text.now ≤ MAX_CELL_TEXT }
        ensures { (grants : Sequence Grant) → IsStored D.reads_as D.may_leave cell_text.now grants self
            → IsMade D.reads_as D.may_leave D.moment D.left_since D.faults (disk_stored self) cell_text.now grants result }
    {
        match self {
            Stored::Nothing(blank) => blank.clear()?.create(cell_text),
            Stored::Journal(journal) => Ok(journal),
        }
    }
}
