//! The recovery of what stands on a disk.
ghost use Rattle.std.specs.Prelude.{◌≡◌, ℕ, List as Sequence, IfSome};
ghost use Rattle.cell_base.specs.declared.shifts.Grant.{Grant};
ghost use Rattle.journal_format.specs.Journals.{StandsFor};
ghost use Rattle.journal_format.specs.Reads.{OnlyReads};
ghost use Rattle.journal_format.specs.Readings.{IsFoundBy, read_as};
ghost use Rattle.shift_recovery.specs.Recovering.{disk_recovered, Answers, HasRoom, IsAnswer, HasOpeningCause};

use crate::open_error::{OpenError, OpenFault};
use crate::scans::{Scanned, scan};
use cell_base::{Grant, List};
use journal_format::JournalFault;
use move_journal::{Blank, Journal};
use outside_io::Disk;
use std::alloc::Global;

/// What stands on a disk. Each answer has the disk.
#[derive(Drop)]
pub enum Opened<D: Disk> {
    /// No journal.
    Fresh(Blank<D>),
    /// A journal of these grants.
    Found {
        journal: Journal<D>,
        grants: List<Grant>,
    },
    /// A file that is no journal of this cell, or one with more grants than room.
    Refused {
        disk: D,
        why: JournalFault,
    },
    /// The device failed.
    Device {
        disk: D,
    },
    /// There was no memory.
    Memory {
        disk: D,
    },
}

/// Finds what stands on a disk, with this cell text and with room for so many grants. Beside the grants it takes the memory
/// of a few pieces of the file.
pub fn recover<D: Disk>(alloc: Global, disk: D, cell_text: &[u8], room: u64) -> Opened<D>
    ensures reads { OnlyReads D.reads_as D.may_leave D.moment D.left_since disk (disk_recovered result) }
    ensures exact { IfSome (D.reads_as disk) (λ file. IsAnswer result (read_as file cell_text.now room)) }
    ensures found { Answers D.reads_as D.may_leave cell_text.now result }
    ensures few { HasRoom room result }
    ensures cause { HasOpeningCause (D.faults disk) (D.faults (disk_recovered result)) result }

    // What the calls of a journal may leave is found.
    ensures stands { (file : Sequence ℕ) (grants : Sequence Grant) → StandsFor file cell_text.now grants
        → IsFoundBy (read_as file cell_text.now room) room grants }
{
    let mut grants = List::new(alloc);
    match scan(alloc, disk, cell_text, room, &mut grants) {
        Ok(Scanned::Fresh(blank)) => Opened::Fresh(blank),
        Ok(Scanned::Found(journal)) => Opened::Found { journal, grants },
        Err(OpenError { disk, why }) => match why {
            OpenFault::Refused(why) => Opened::Refused { disk, why },
            OpenFault::Device => Opened::Device { disk },
            OpenFault::Memory => Opened::Memory { disk },
        },
    }
}
