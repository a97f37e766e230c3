//! What the opening of a durable cell answers.
ghost use Rattle.std.specs.Prelude.{◌≡◌, Err};
ghost use Rattle.durable_cell.specs.Openings.{opened_of};

use crate::Durable;
use crate::recalled::Recall;
use outside_io::Disk;
use shift_recovery::{JournalFault, OpenError, OpenFault};

/// What was opened, a durable cell unless it says otherwise, or the disk of which none could be made.
#[derive(Drop)]
pub enum Opening<D: Disk, O = Durable<D>> {
    /// It was opened.
    Open(O),
    /// The file is no journal of this cell, has more grants than room, or one that is not granted in its turn.
    Refused { disk: D, why: JournalFault },
    /// The device failed.
    Device { disk: D },
    /// There was no memory.
    Memory { disk: D },
}

/// A durable cell, and the visitor to which the grants of its opening were handed on.
#[derive(Drop)]
pub struct Heard<D: Disk, G: Recall, K> {
    pub durable: Durable<D, G>,
    pub kept: K,
}

/// Nothing was opened, for this cause.
pub(crate) fn unopened<D: Disk, O>(error: OpenError<D>) -> Opening<D, O>
    ensures { opened_of result ≡ Err error }
{
    let OpenError { disk, why } = error;
    match why {
        OpenFault::Refused(why) => Opening::Refused { disk, why },
        OpenFault::Device => Opening::Device { disk },
        OpenFault::Memory => Opening::Memory { disk },
    }
}
