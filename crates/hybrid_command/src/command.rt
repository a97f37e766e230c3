//! `hybrid CELL SHIFT`: a shift on the empty cell under the hybrid policy, its sessions in rounds on one thread.
ghost use Rattle.std.specs.Prelude.{◌≡◌, IfOk};
ghost use Rattle.cell_walks.specs.Clauses.{Ends, IsTaken, disk_seen, files_seen, observed, sink_seen};
ghost use Rattle.cell_walks.specs.declared.status.Status.TheVariants.{Done};
ghost use Rattle.printer.specs.Printing.{Prints};
ghost use Rattle.hybrid_command.specs.Clauses.{CellFits, HistoryFits, IsHybridRun, ShiftFits, lines_of_run};
ghost use Rattle.hybrid_command.specs.Hybrid.{hybrid};

use crate::printing::print_block;
use banker_check::Hybrid;
use cell_base::{Cell, NoMemory, Shelf, Shift};
use cell_driver::{Command, drive};
use cell_texts::{Answered, CellFile, CommandEnd, Made, read_shift};
use cell_walks::{EarlyEnd, Status};
use hybrid_rounds::{HybridEntry, ask_in_rounds};
use outside_io::{Disk, Files, Sink};
use printer::Printer;
use solo_rounds::steps_of;
use std::alloc::Global;

/// Runs `hybrid CELL SHIFT`.
pub fn run_hybrid<F: Files, K: Sink, D: Disk>(
    alloc: Global,
    files: &mut F,
    out: &mut K,
    cell: &str,
    shift: &str,
    disk: D,
) -> CommandEnd<D>
    ensures ends { Ends (observed (files_seen F.Files files.old files.new) (disk_seen D.Disk disk result.disk))
        (sink_seen K.Sink out.old out.new) (hybrid cell.now shift.now) result.status }
    ensures same { result.disk ≡ disk }
{
    drive(&HybridShift { shift }, alloc, files, out, cell, disk)
}

/// The command `hybrid`, with the name of the shift. All memory is taken before the first session asks.
#[derive(Drop)]
pub struct HybridShift<'a> {
    pub shift: &'a str,
}

/// A shift that ran: the hybrid after it, its number and its history.
#[derive(Drop)]
pub struct HybridRun {
    pub hybrid: Hybrid,
    pub number: u32,
    pub history: Shelf<HybridEntry>,
}

impl<'a> Command for HybridShift<'a> {
    ghost use Rattle.std.specs.Prelude.{⊤};
    ghost use Rattle.cell_walks.specs.Outcomes.{done};
    ghost use Rattle.hybrid_command.specs.Hybrid.{play_hybrid};

    type Answer = HybridRun;

    ghost onward = { λ command. play_hybrid command.shift.now };

    ghost outcome = { λ run. done (lines_of_run run) };

    ghost is_whole = { λ run. HistoryFits run.hybrid.cell run.history.items };

    ghost has_no_journal = { λ _. ⊤ };

    fn answer<F: Files, D: Disk>(
        &self,
        alloc: Global,
        held: CellFile,
        files: &mut F,
        disk: D,
    ) -> Answered<HybridRun, D> {
        match read_shift(alloc, files, &held.cell, self.shift) {
            Ok(shift) => match run_rounds(alloc, held.cell, &shift) {
                Ok(ran) => Made {
                    made: Ok(ran),
                    disk,
                },
                Err(_) => Made::ended(EarlyEnd::WantOfMemory, disk),
            },
            Err(end) => Made::ended(end, disk),
        }
    }

    fn print<K: Sink>(run: HybridRun, out: &mut Printer<K>) -> Status
        requires { HistoryFits run.hybrid.cell run.history.items }
        ensures printed { Prints K.Sink out.old out.new (lines_of_run run) }
        ensures status { result ≡ Done }
        ensures taken { IsTaken result }
    {
        let HybridRun {
            mut hybrid,
            number,
            history,
        } = run;
        print_block(out, &mut hybrid, number, history.as_slice());
        Status::Done
    }
}

// Runs a shift on the empty cell, its sessions in rounds. There is room for as many asks as its steps and its patience allow.
fn run_rounds(alloc: Global, cell: Cell, shift: &Shift) -> Result<HybridRun, NoMemory>
    requires cell { CellFits cell }
    requires shift { ShiftFits cell shift.now }
    ensures run { IfOk result (IsHybridRun cell shift.now) }
    ensures fits { IfOk result (λ run. HistoryFits run.hybrid.cell run.history.items) }
{
    let asks = steps_of(shift) * u64::from(shift.patience);
    let mut history = Shelf::with_room(alloc, asks)?;
    let mut hybrid = Hybrid::open(alloc, cell)?;
    ask_in_rounds(&mut hybrid, shift, &mut history);
    Ok(HybridRun {
        hybrid,
        number: shift.number,
        history,
    })
}
