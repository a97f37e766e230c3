//! A command from its cell file to its status.
ghost use Rattle.std.specs.Prelude.{◌≡◌, IfOk};
ghost use Rattle.cell_walks.specs.Clauses.{Ends, IsDelivered, disk_seen, files_seen, observed, or_early, sink_seen};
ghost use Rattle.cell_driver.specs.Driving.{on_cell};

use crate::Command;
use cell_texts::{CommandEnd, Made, read_cell};
use cell_walks::{EarlyEnd, Status, finish_early};
use outside_io::{Disk, Files, Sink};
use printer::Printer;
use std::alloc::Global;

/// Runs a command on the cell of this file. What it answers is whole before the first line is printed.
pub fn drive<C: Command, F: Files, K: Sink, D: Disk>(
    command: &C,
    alloc: Global,
    files: &mut F,
    out: &mut K,
    cell: &str,
    disk: D,
) -> CommandEnd<D>
    ensures ends { Ends (observed (files_seen F.Files files.old files.new) (disk_seen D.Disk disk result.disk))
        (sink_seen K.Sink out.old out.new) (on_cell cell.now (C.onward command.now)) result.status }
    ensures same { C.has_no_journal command.now → result.disk ≡ disk }
{
    let held = match read_cell(alloc, files, cell) {
        Ok(held) => held,
        Err(end) => {
            let status = finish_early(out, end);
            return CommandEnd { status, disk };
        }
    };
    let Made { made, disk } = command.answer(alloc, held, files, disk);
    let status = print_made::<C, K>(made, out);
    CommandEnd { status, disk }
}

// Prints an answer, or the early end in its place, and gives the status.
fn print_made<C: Command, K: Sink>(made: Result<C::Answer, EarlyEnd>, out: &mut K) -> Status
    requires { IfOk made C.is_whole }
    ensures { IsDelivered (sink_seen K.Sink out.old out.new) (or_early C.outcome made) result }
{
    match made {
        Ok(answer) => print_answer::<C, K>(answer, out),
        Err(end) => finish_early(out, end),
    }
}

// Prints an answer, and gives its status, or the sink's fault.
fn print_answer<C: Command, K: Sink>(answer: C::Answer, out: &mut K) -> Status
    requires { C.is_whole answer }
    ensures { IsDelivered (sink_seen K.Sink out.old out.new) (C.outcome answer) result }
{
    let mut printer = Printer::new(out);
    let status = C::print(answer, &mut printer);
    printer.status(status)
}
