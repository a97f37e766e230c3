//! `parts CELL JOURNAL`: where the parts stand after the grants of the journal, and how many each neighborhood counts.
ghost use Rattle.std.specs.Prelude.{◌≡◌, IfOk, IfErr};
ghost use Rattle.cell_walks.specs.Clauses.{Ends, disk_seen, files_seen, observed, sink_seen};
ghost use Rattle.cell_walks.specs.declared.early_end.EarlyEnd.TheVariants.{WantOfMemory};
ghost use Rattle.look_commands.specs.Parts.{parts, parts_lines};

use crate::locating::print_parts;
use admission_core::Core;
use cell_base::{List, Part};
use cell_driver::{Command, drive};
use cell_texts::{Answered, CellFile, CommandEnd, Made};
use cell_walks::{EarlyEnd, Status};
use journal_texts::read_journal;
use outside_io::{Disk, Files, Sink};
use printer::Printer;
use std::alloc::Global;

/// Runs `parts CELL JOURNAL`.
pub fn run_parts<F: Files, K: Sink, D: Disk>(
    alloc: Global,
    files: &mut F,
    out: &mut K,
    cell: &str,
    disk: D,
) -> CommandEnd<D>
    ensures { Ends (observed (files_seen F.Files files.old files.new) (disk_seen D.Disk disk result.disk))
        (sink_seen K.Sink out.old out.new) (parts cell.now) result.status }
{
    drive(&Parts, alloc, files, out, cell, disk)
}

/// The command `parts`.
pub struct Parts;

/// A core, and its parts in the order of arrival.
#[derive(Drop)]
pub struct Standing {
    core: Core,
    parts: List<Part>,
}

impl Command for Parts {
    ghost use Rattle.cell_walks.specs.Outcomes.{done};
    ghost use Rattle.look_commands.specs.Parts.{locate_parts};

    type Answer = Standing;

    ghost onward = { λ _. locate_parts };

    ghost outcome = { λ standing. done (parts_lines standing.core.cell standing.core.parts) };

    ghost is_whole = { λ standing. standing.parts ≡ standing.core.parts };

    ghost has_no_journal = { λ _. ⊥ };

    fn answer<F: Files, D: Disk>(
        &self,
        alloc: Global,
        held: CellFile,
        _files: &mut F,
        disk: D,
    ) -> Answered<Standing, D> {
        let Made { made, disk } = read_journal(alloc, held, disk);
        match made {
            Ok(after) => Made {
                made: parts_of_core(alloc, after.core),
                disk,
            },
            Err(end) => Made::ended(end, disk),
        }
    }

    fn print<K: Sink>(standing: Standing, out: &mut Printer<K>) -> Status {
        print_parts(out, &standing.core, standing.parts.as_slice());
        Status::Done
    }
}

// Lists the parts of a core.
fn parts_of_core(alloc: Global, core: Core) -> Result<Standing, EarlyEnd>
    ensures core { IfOk result (λ standing. standing.core ≡ core) }
    ensures listed { IfOk result (λ standing. standing.parts ≡ standing.core.parts) }
    ensures starved { IfErr result (λ end. end ≡ WantOfMemory) }
{
    match core.parts(alloc) {
        Ok(parts) => Ok(Standing { core, parts }),
        Err(_) => Err(EarlyEnd::WantOfMemory),
    }
}
