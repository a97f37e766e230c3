//! Why the reading of a disk stopped.
ghost use Rattle.std.specs.Prelude.{◌≡◌};
ghost use Rattle.shift_recovery.specs.declared.stop.Stop.TheVariants.{Device, Memory};

use cell_base::NoMemory;
use outside_io::Failed;
use std::alloc::AllocError;

/// Why the reading stopped.
#[derive(Clone, Copy, Debug, PartialEq, Eq)]
pub(crate) enum Stop {
    Device,
    Memory,
}

impl From<Failed> for Stop {
    ghost from_gives = { λ _ stop. stop ≡ Device };

    fn from(_: Failed) -> Self {
        Stop::Device
    }
}

impl From<AllocError> for Stop {
    ghost from_gives = { λ _ stop. stop ≡ Memory };

    fn from(_: AllocError) -> Self {
        Stop::Memory
    }
}

impl From<NoMemory> for Stop {
    ghost from_gives = { λ _ stop. stop ≡ Memory };

    fn from(_: NoMemory) -> Self {
        Stop::Memory
    }
}
