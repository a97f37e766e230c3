//! Why sessions do not begin.
ghost use Rattle.std.specs.Prelude.{◌≡◌};
ghost use Rattle.cell_sessions.specs.declared.fault.BeginFault.TheVariants.{Memory};

use cell_base::NoMemory;

/// Why the sessions of a shift do not begin after the grants of a journal.
#[derive(Clone, Copy, Debug, PartialEq, Eq)]
pub enum BeginFault {
    /// A grant with the shift's number is not the next step of its session's script, or the shift has no such session. It is
    /// the first such grant.
    OtherShift { session: u16 },
    /// Want of memory.
    Memory,
}

impl From<NoMemory> for BeginFault {
    ghost from_gives = { λ _ fault. fault ≡ Memory };

    fn from(_: NoMemory) -> BeginFault {
        BeginFault::Memory
    }
}
