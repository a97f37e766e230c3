//! `carry CELL1 JOURNAL CELL2`: the start file of the parts after the grants of the journal, carried to the second cell.
ghost use Rattle.std.specs.Prelude.{◌≡◌, ◌≤◌, length, map, IfOk, IfErr};
ghost use Rattle.std.specs.List.{All};
ghost use Rattle.cell_walks.specs.Clauses.{Ends, IsOnlyRead, IsTaken, disk_seen, files_seen, observed, sink_seen};
ghost use Rattle.cell_walks.specs.declared.status.Status.TheVariants.{Done};
ghost use Rattle.cell_texts.specs.Clauses.{MAX_CELL_BYTES, known};
ghost use Rattle.journal_texts.specs.Clauses.{to_read};
ghost use Rattle.printer.specs.Printing.{Prints};
ghost use Rattle.carry_commands.specs.CarryClauses.{CellFits, EndsAfter, HasCarriedAfter, IsPlacing, carry_outcome, place_line};
ghost use Rattle.carry_commands.specs.Carry.{carry};

use crate::carrying::{Carried, carry_parts};
use cell_base::{Cell, Request};
use cell_driver::{Command, drive};
use cell_texts::{Answered, CellFile, CommandEnd, Made, read_cell};
use cell_walks::Status;
use journal_texts::read_journal;
use outside_io::{Disk, Files, Sink};
use printer::Printer;
use record_text::place_line;
use std::alloc::Global;

/// Runs `carry CELL1 JOURNAL CELL2`.
pub fn run_carry<F: Files, K: Sink, D: Disk>(
    alloc: Global,
    files: &mut F,
    out: &mut K,
    cell: &str,
    other: &str,
    disk: D,
) -> CommandEnd<D>
    ensures { Ends (observed (files_seen F.Files files.old files.new) (disk_seen D.Disk disk result.disk))
        (sink_seen K.Sink out.old out.new) (carry cell.now other.now) result.status }
{
    drive(&Carry { other }, alloc, files, out, cell, disk)
}

/// The command `carry`, with the name of the second cell's file.
#[derive(Drop)]
pub struct Carry<'a> {
    pub other: &'a str,
}

impl<'a> Command for Carry<'a> {
    ghost use Rattle.carry_commands.specs.Carry.{carry_to};

    type Answer = Carried;

    ghost onward = { λ carry. carry_to carry.other.now };

    ghost outcome = { carry_outcome };

    ghost is_whole = { λ carried. All (IsPlacing carried.core.cell) carried.requests };

    ghost has_no_journal = { λ _. ⊥ };

    fn answer<F: Files, D: Disk>(
        &self,
        alloc: Global,
        held: CellFile,
        files: &mut F,
        disk: D,
    ) -> Answered<Carried, D> {
        match read_cell(alloc, files, self.other) {
            Ok(new) => carried_of_journal(alloc, held, new.cell, disk),
            Err(end) => Made::ended(end, disk),
        }
    }

    fn print<K: Sink>(carried: Carried, out: &mut Printer<K>) -> Status
        requires { All (IsPlacing carried.core.cell) carried.requests }
        ensures printed { Prints K.Sink out.old out.new (carry_outcome carried).pieces }
        ensures status { result ≡ Done }
        ensures taken { IsTaken result }
    {
        print_places(out, carried.core.cell(), carried.requests.as_slice());
        Status::Done
    }
}

// The parts after the grants of the first cell's journal, carried to a second cell that was read; or the early end in their place.
fn carried_of_journal<D: Disk>(
    alloc: Global,
    held: CellFile,
    new: Cell,
    disk: D,
) -> Answered<Carried, D>
    requires fits { CellFits held.cell }
    requires short { length held.text.items ≤ MAX_CELL_BYTES }
    requires new { CellFits new }
    ensures carried { IfOk result.made (HasCarriedAfter (disk_seen D.Disk disk result.disk) (to_read (known held)) new) }
    ensures ended { IfErr result.made (EndsAfter (disk_seen D.Disk disk result.disk) (to_read (known held)) new) }
    ensures only_read { IsOnlyRead (disk_seen D.Disk disk result.disk) }
{
    let Made { made, disk } = read_journal(alloc, held, disk);
    match made {
        Ok(after) => Made {
            made: carry_parts(alloc, &after.core, new),
            disk,
        },
        Err(end) => Made::ended(end, disk),
    }
}

// Prints the line of each request.
fn print_places<K: Sink>(out: &mut Printer<K>, cell: &Cell, requests: &[Request])
    requires fits { CellFits cell.now }
    requires placing { All (IsPlacing cell.now) requests.now }
    ensures { Prints K.Sink out.old out.new (map (place_line cell.now) requests.now) }
{
    for request in requests {
        out.line(&place_line(cell, request));
    }
}
