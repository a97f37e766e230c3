//! `plan CELL JOURNAL`: the plan that empties the cell after the grants of the journal.
ghost use Rattle.cell_walks.specs.Clauses.{Ends, disk_seen, files_seen, observed, sink_seen};
ghost use Rattle.cell_commands.specs.Plan.{plan};

use cell_driver::{Command, drive};
use cell_texts::{Answered, CellFile, CommandEnd};
use cell_walks::Status;
use journal_texts::{AfterGrants, read_journal};
use outside_io::{Disk, Files, Sink};
use printer::Printer;
use record_printer::records::print_block;
use std::alloc::Global;

/// Runs `plan CELL JOURNAL`.
pub fn run_plan<F: Files, K: Sink, D: Disk>(
    alloc: Global,
    files: &mut F,
    out: &mut K,
    cell: &str,
    disk: D,
) -> CommandEnd<D>
    ensures { Ends (observed (files_seen F.Files files.old files.new) (disk_seen D.Disk disk result.disk))
        (sink_seen K.Sink out.old out.new) (plan cell.now) result.status }
{
    drive(&Plan, alloc, files, out, cell, disk)
}

/// The command `plan`.
pub struct Plan;

impl Command for Plan {
    ghost use Rattle.std.specs.Prelude.{[], ⊤};
    ghost use Rattle.cell_walks.specs.Outcomes.{done};
    ghost use Rattle.record_printer.specs.Blocks.{block_of};
    ghost use Rattle.cell_commands.specs.Plan.{plan_journal};

    type Answer = AfterGrants;

    ghost onward = { λ _. plan_journal };

    ghost outcome = { λ after. done (block_of after.core 0 after.grants []) };

    ghost is_whole = { λ _. ⊤ };

    ghost has_no_journal = { λ _. ⊥ };

    fn answer<F: Files, D: Disk>(
        &self,
        alloc: Global,
        held: CellFile,
        _files: &mut F,
        disk: D,
    ) -> Answered<AfterGrants, D> {
        read_journal(alloc, held, disk)
    }

    fn print<K: Sink>(after: AfterGrants, out: &mut Printer<K>) -> Status {
        print_block(out, after.core, 0, after.grants, &[]);
        Status::Done
    }
}
