//! The pieces in which a file is read.
ghost use Rattle.std.specs.Prelude.{◌≡◌, ◌+◌, ◌-◌, ◌<◌, ◌++◌, min, length, drop, IfOk, IfSome, OnOk, IsErrOf};
ghost use Rattle.std.specs.Option.{ForSome};
ghost use Rattle.outside_io.specs.Causes.{Rose};
ghost use Rattle.journal_format.specs.Reads.{OnlyReads};
ghost use Rattle.shift_recovery.specs.Windows.{IsFirstPiece};
ghost use Rattle.shift_recovery.specs.declared.pieces.TheConstants.{PIECE};

use crate::stop::Stop;
use outside_io::Disk;
use std::alloc::Global;

/// The most bytes that one call reads.
pub(crate) const PIECE: u64 = 4_096;

/// The kept bytes and after them the next piece of a file of `len` bytes, of which those before `at` have been read.
pub(crate) fn with_piece<D: Disk>(
    alloc: Global,
    disk: &mut D,
    at: u64,
    len: u64,
    kept: &[u8],
) -> Result<Vec<u8>, Stop>
    requires unread { at < len }
    requires size { ForSome (D.reads_as disk.old) (λ file. length file ≡ len) }
    ensures reads { OnlyReads D.reads_as D.may_leave D.moment D.left_since disk.old disk.new }
    ensures longer { IfOk result (λ window. length window.items ≡ length kept.now + min PIECE (len - at)) }
    ensures bytes { IfOk result (λ window. IfSome (D.reads_as disk.old) (λ file.
        kept.now ++ drop at file ≡ window.items ++ drop (at + min PIECE (len - at)) file)) }
    ensures ok { OnOk result (D.faults disk.new ≡ D.faults disk.old) }
    ensures device { IsErrOf result Stop.Device → Rose (D.faults disk.old) (D.faults disk.new) }
    ensures memory { IsErrOf result Stop.Memory → D.faults disk.new ≡ D.faults disk.old }
{
    let size = PIECE.min(len - at) as usize;
    let mut piece = vec![in alloc; 0; size]?;
    let mut window = Vec::from_slice(alloc, kept)?;
    disk.read_at(at, &mut piece)?;
    window.extend_from_slice(&piece)?;
    Ok(window)
}

/// How many bytes a file has, and the first piece of them.
#[derive(Drop)]
pub(crate) struct FirstPiece {
    pub(crate) len: u64,
    pub(crate) bytes: Vec<u8>,
}

/// The first piece of a file.
pub(crate) fn first_piece<D: Disk>(alloc: Global, disk: &mut D) -> Result<FirstPiece, Stop>
    ensures reads { OnlyReads D.reads_as D.may_leave D.moment D.left_since disk.old disk.new }
    ensures piece { IfOk result (λ start. IsFirstPiece (D.reads_as disk.old) start.len start.bytes.items) }
    ensures ok { OnOk result (D.faults disk.new ≡ D.faults disk.old) }
    ensures device { IsErrOf result Stop.Device → Rose (D.faults disk.old) (D.faults disk.new) }
    ensures memory { IsErrOf result Stop.Memory → D.faults disk.new ≡ D.faults disk.old }
{
    let len = disk.len()?;
    if len == 0 {
        return Ok(FirstPiece {
            len,
            bytes: Vec::new(alloc),
        });
    }
    let bytes = with_piece(alloc, disk, 0, len, &[])?;
    Ok(FirstPiece { len, bytes })
}
