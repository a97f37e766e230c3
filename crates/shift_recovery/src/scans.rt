//! The reading of what stands on a disk, whose grants are handed on one after the other.
ghost use Rattle.std.specs.Prelude.{◌≡◌, ◌<◌, ℕ, List as Sequence, [], IfOk, IfErr, IfSome, OnOk, IsErrOf, slice_index};
ghost use Rattle.outside_io.specs.Causes.{Rose};
ghost use Rattle.outside_io.specs.Disk.{Only};
ghost use Rattle.cell_base.specs.declared.shifts.Grant.{Grant};
ghost use Rattle.journal_format.specs.Journals.{StandsFor};
ghost use Rattle.journal_format.specs.Reads.{OnlyReads};
ghost use Rattle.journal_format.specs.declared.head.Head.TheVariants.{Open};
ghost use Rattle.journal_format.specs.Readings.{IsFoundBy, head_of, read_as};
ghost use Rattle.shift_recovery.specs.Windows.{IsFirstPiece};
ghost use Rattle.shift_recovery.specs.Scanning.{disk_scanned, IsScan, IsReading};
ghost use Rattle.shift_recovery.specs.Opening.{disk_of, HasOpenCause, IsRefusalOf, RestsWhereRefused};

use crate::heads::read_head;
use crate::open_error::{OpenError, OpenFault, at_stop};
use crate::pieces::{FirstPiece, first_piece};
use crate::stop::Stop;
use crate::texts::{Compared, compare};
use crate::visitors::GrantVisitor;
use crate::walks::{Walked, walk};
use journal_format::{BlankForm, Head, JournalFault, TEXT_AT};
use move_journal::{Blank, Journal};
use outside_io::Disk;
use std::alloc::Global;

/// What stands on a disk whose grants were handed on.
#[derive(Drop)]
pub enum Scanned<D: Disk> {
    /// No journal.
    Fresh(Blank<D>),
    /// A journal of the grants that were taken.
    Found(Journal<D>),
}

/// Finds what stands on a disk, with this cell text and with room for so many grants, and hands each grant on as it is read. It
/// keeps a few pieces of the file, however long that is. Of a file that is refused some grants may have been taken.
pub fn scan<D: Disk, T: GrantVisitor>(
    alloc: Global,
    disk: D,
    cell_text: &[u8],
    room: u64,
    visitor: &mut T,
) -> Result<Scanned<D>, OpenError<D>>
    requires none { (first : ℕ) → T.visited visitor.old first [] visitor.old }
    ensures reads { OnlyReads D.reads_as D.may_leave D.moment D.left_since disk (disk_of disk_scanned result) }
    ensures scan { IfOk result (IsScan D.reads_as D.may_leave disk cell_text.now room T.visited visitor.old visitor.new) }
    ensures refused { IfErr result (λ error. IsRefusalOf (D.reads_as disk) (λ file. read_as file cell_text.now room) error.why) }
    ensures rests { IfErr result (λ error. RestsWhereRefused D.reads_as D.may_leave error.disk error.why) }
    ensures cause { HasOpenCause (D.faults disk) (D.faults (disk_of disk_scanned result)) result }

    // What the calls of a journal may leave is found.
    ensures stands { (file : Sequence ℕ) (grants : Sequence Grant) → StandsFor file cell_text.now grants
        → IsFoundBy (read_as file cell_text.now room) room grants }
{
    let mut disk = disk;
    match read_journal(alloc, &mut disk, cell_text, room, visitor) {
        Ok(Reading::Blank(form)) => match Blank::new(alloc, disk, form) {
            Ok(blank) => Ok(Scanned::Fresh(blank)),
            Err(disk) => Err(OpenError {
                disk,
                why: OpenFault::Memory,
            }),
        },
        Ok(Reading::Found { gate, count }) => {
            Ok(Scanned::Found(Journal::found(disk, gate, count)))
        }
        Ok(Reading::Faulty(why)) => Err(OpenError {
            disk,
            why: OpenFault::Refused(why),
        }),
        Err(stop) => Err(OpenError {
            disk,
            why: at_stop(stop),
        }),
    }
}

/// What the bytes are read as.
#[derive(Drop)]
pub(crate) enum Reading {
    Blank(BlankForm),
    Found { gate: u64, count: u64 },
    Faulty(JournalFault),
}

// Makes what the disk reads as stable, and reads it.
fn read_journal<D: Disk, T: GrantVisitor>(
    alloc: Global,
    disk: &mut D,
    cell_text: &[u8],
    room: u64,
    visitor: &mut T,
) -> Result<Reading, Stop>
    requires none { (first : ℕ) → T.visited visitor.old first [] visitor.old }
    ensures reads { OnlyReads D.reads_as D.may_leave D.moment D.left_since disk.old disk.new }
    ensures exact { IfOk result (IsReading (D.reads_as disk.old) cell_text.now room T.visited visitor.old visitor.new) }
    ensures stable { OnOk result (IfSome (D.reads_as disk.new) (λ file. Only file (D.may_leave disk.new))) }
    ensures ok { OnOk result (D.faults disk.new ≡ D.faults disk.old) }
    ensures device { IsErrOf result Stop.Device → Rose (D.faults disk.old) (D.faults disk.new) }
    ensures memory { IsErrOf result Stop.Memory → D.faults disk.new ≡ D.faults disk.old }
{
    disk.sync()?;
    let start = first_piece(alloc, disk)?;
    match read_head(&start.bytes, start.len) {
        Head::Blank(form) => Ok(Reading::Blank(form)),
        Head::Faulty(why) => Ok(Reading::Faulty(why)),
        Head::Open(size) => read_open(alloc, disk, start, size, cell_text, room, visitor),
    }
}

// Reads what stands after an open head: the text of so many bytes, and the grants.
fn read_open<D: Disk, T: GrantVisitor>(
    alloc: Global,
    disk: &mut D,
    start: FirstPiece,
    size: u32,
    cell_text: &[u8],
    room: u64,
    visitor: &mut T,
) -> Result<Reading, Stop>
    requires start { IsFirstPiece (D.reads_as disk.old) start.len start.bytes.items }
    requires bytes { (i : ℕ) → slice_index start.bytes.items i < 256 }
    requires head { head_of start.len start.bytes.items ≡ Open size }
    requires none { (first : ℕ) → T.visited visitor.old first [] visitor.old }
    ensures reads { OnlyReads D.reads_as D.may_leave D.moment D.left_since disk.old disk.new }
    ensures exact { IfOk result (IsReading (D.reads_as disk.old) cell_text.now room T.visited visitor.old visitor.new) }
    ensures ok { OnOk result (D.faults disk.new ≡ D.faults disk.old) }
    ensures device { IsErrOf result Stop.Device → Rose (D.faults disk.old) (D.faults disk.new) }
    ensures memory { IsErrOf result Stop.Memory → D.faults disk.new ≡ D.faults disk.old }
{
    let FirstPiece { len, bytes } = start;
    let size = u64::from(size);
    match compare(alloc, disk, len, bytes, size, cell_text)? {
        Compared::Differs(at) => Ok(Reading::Faulty(JournalFault::OtherCell { at })),
        Compared::Same(window) => {
            match walk(alloc, disk, len, TEXT_AT + size, window, room, visitor)? {
                Walked::Faulty(why) => Ok(Reading::Faulty(why)),
                Walked::Closed { gate, count } => Ok(Reading::Found { gate, count }),
            }
        }
    }
}
