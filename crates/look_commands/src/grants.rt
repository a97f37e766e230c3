//! `grants CELL JOURNAL`: the grants of the journal as one record, with the plan that empties the cell after them.
ghost use Rattle.cell_walks.specs.Clauses.{Ends, disk_seen, files_seen, observed, sink_seen};
ghost use Rattle.journal_texts.specs.Clauses.{GrantsFit};
ghost use Rattle.look_commands.specs.Grants.{found_lines, grants};

use crate::listing::print_found;
use cell_driver::{Command, drive};
use cell_texts::{Answered, CellFile, CommandEnd};
use cell_walks::Status;
use journal_texts::{Found, find_grants};
use outside_io::{Disk, Files, Sink};
use printer::Printer;
use std::alloc::Global;

/// Runs `grants CELL JOURNAL`.
pub fn run_grants<F: Files, K: Sink, D: Disk>(
    alloc: Global,
    files: &mut F,
    out: &mut K,
    cell: &str,
    disk: D,
) -> CommandEnd<D>
    ensures { Ends (observed (files_seen F.Files files.old files.new) (disk_seen D.Disk disk result.disk))
        (sink_seen K.Sink out.old out.new) (grants cell.now) result.status }
{
    drive(&Grants, alloc, files, out, cell, disk)
}

/// The command `grants`. The grants are held once: each line is made of its grant.
pub struct Grants;

impl Command for Grants {
    ghost use Rattle.cell_walks.specs.Outcomes.{done};
    ghost use Rattle.look_commands.specs.Grants.{list_grants};

    type Answer = Found;

    ghost onward = { λ _. list_grants };

    ghost outcome = { λ found. done (found_lines found) };

    ghost is_whole = { GrantsFit };

    ghost has_no_journal = { λ _. ⊥ };

    fn answer<F: Files, D: Disk>(
        &self,
        alloc: Global,
        held: CellFile,
        _files: &mut F,
        disk: D,
    ) -> Answered<Found, D> {
        find_grants(alloc, held, disk)
    }

    fn print<K: Sink>(found: Found, out: &mut Printer<K>) -> Status {
        print_found(out, found);
        Status::Done
    }
}
