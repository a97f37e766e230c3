//! A shift that runs to its end.
ghost use Rattle.std.specs.Prelude.{◌≡◌, ◌*◌, ◌≤◌, [], IfOk};
ghost use Rattle.cell_base.specs.Fits.{CellFits, ShiftFits, steps_of};
ghost use Rattle.cell_base.specs.Histories.{after};
ghost use Rattle.cell_base.specs.Rounds.{IsRoundRobin};
ghost use Rattle.solo_rounds.specs.SoloRuns.{IsSoloRun};

use crate::counts::asks_of;
use crate::rounds::Rounds;
use admission_core::Core;
use cell_base::{Cell, Entry, NoMemory, Shelf, Shift};
use std::alloc::Global;

/// A shift that ran: the core after it, its number and its history.
#[derive(Drop)]
pub struct SoloRun {
    pub core: Core,
    pub number: u32,
    pub history: Shelf<Entry>,
}

/// Runs a shift on the empty cell, its sessions in rounds. All memory is taken before the first one asks.
pub fn run_rounds(alloc: Global, cell: Cell, shift: &Shift) -> Result<SoloRun, NoMemory>
    requires cell { CellFits cell }
    requires shift { ShiftFits cell shift.now }
    ensures run { IfOk result (IsSoloRun cell shift.now) }
{
    let mut history = Shelf::with_room(alloc, asks_of(shift))?;
    let mut core = Core::open(alloc, cell)?;
    solo(&mut core, shift, &mut history);
    Ok(SoloRun {
        core,
        number: shift.number,
        history,
    })
}

/// In each round every session that has not ended asks once, in the order of their numbers, until all have ended. Session `k`
/// has script `k - 1`. It takes no memory.
pub fn solo(core: &mut Core, shift: &Shift, history: &mut Shelf<Entry>)
    requires shift { ShiftFits core.old.cell shift.now }
    requires empty { history.old.items ≡ [] }
    requires room { steps_of shift.now * shift.now.patience ≤ history.old.spare }
    ensures rounds { IsRoundRobin core.old.cell core.old.parts shift.now history.new.items }
    ensures state { core.new ≡ record core.old { parts = after core.old.cell core.old.parts history.new.items } }
{
    let mut rounds = Rounds::begin();
    while let Some(entry) = rounds.ask(core, shift) {
        history.push(entry);
    }
}
