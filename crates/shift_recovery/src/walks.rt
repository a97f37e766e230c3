//! The walk over the gates of a file, with a part of a record kept from one piece to the next.
ghost use Rattle.std.specs.Prelude.{◌≡◌, ◌+◌, [], IfOk, OnOk, IsErrOf};
ghost use Rattle.outside_io.specs.Causes.{Rose};
ghost use Rattle.journal_format.specs.Reads.{OnlyReads};
ghost use Rattle.shift_recovery.specs.Windows.{BeginsAt, AreOfFile};
ghost use Rattle.shift_recovery.specs.Walked.{IsWalkFrom};

use crate::gates::gate_in;
use crate::pieces::{PIECE, with_piece};
use crate::stop::Stop;
use crate::texts::Window;
use crate::visitors::GrantVisitor;
use entry_codec::ENTRY_SIZE;
use journal_format::JournalFault;
use outside_io::Disk;
use std::alloc::Global;

/// What came of the walk over the gates.
#[derive(Drop)]
pub(crate) enum Walked {
    /// Where the closed gate stands, and how many grants come before it.
    Closed { gate: u64, count: u64 },
    Faulty(JournalFault),
}

/// Walks from the gate at an offset to the first closed one, and hands on at most so many grants.
pub(crate) fn walk<D: Disk, T: GrantVisitor>(
    alloc: Global,
    disk: &mut D,
    len: u64,
    first: u64,
    window: Window,
    room: u64,
    visitor: &mut T,
) -> Result<Walked, Stop>
    requires window { BeginsAt first len window.at window.used window.kept.items }
    requires shows { AreOfFile (D.reads_as disk.old) first len window.at window.used window.kept.items }
    requires none { T.visited visitor.old first [] visitor.old }
    ensures reads { OnlyReads D.reads_as D.may_leave D.moment D.left_since disk.old disk.new }
    ensures walked { IfOk result (IsWalkFrom (D.reads_as disk.old) first room T.visited visitor.old visitor.new) }
    ensures ok { OnOk result (D.faults disk.new ≡ D.faults disk.old) }
    ensures device { IsErrOf result Stop.Device → Rose (D.faults disk.old) (D.faults disk.new) }
    ensures memory { IsErrOf result Stop.Memory → D.faults disk.new ≡ D.faults disk.old }
{
    let Window {
        mut at,
        mut kept,
        mut used,
    } = window;
    let mut gate = first;
    let mut count = 0;
    'gates: loop {
        match gate_in(&kept[used..], gate, at == len) {
            None => {
                kept = with_piece(alloc, disk, at, len, &kept[used..])?;
                used = 0;
                at += PIECE.min(len - at);
            }
            Some(Err(why)) => return Ok(Walked::Faulty(why)),
            Some(Ok(None)) => return Ok(Walked::Closed { gate, count }),
            Some(Ok(Some(grant))) => {
                if count == room {
                    return Ok(Walked::Faulty(JournalFault::Long { len: room + 1 }));
                }
                visitor.visit(gate, grant)?;
                used += ENTRY_SIZE as usize;
                gate += ENTRY_SIZE;
                count += 1;
            }
        }
    }
}
