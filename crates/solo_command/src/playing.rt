//! The record of a shift on one thread, printed as its sessions ask.
ghost use Rattle.cell_walks.specs.Clauses.{sink_seen};
ghost use Rattle.solo_command.specs.Clauses.{ArePrinted, IsAtStart, IsSoloDelivered};

use admission_core::Core;
use cell_base::Shift;
use cell_walks::Status;
use outside_io::Sink;
use printer::Printer;
use record_printer::records::print_left;
use record_text::{Line, head_line, write_entry};
use solo_rounds::Rounds;

/// Runs a shift on an empty core and prints its record, each line as it comes. After a line that the sink doesn't take the sessions ask
/// on to their ends, so that the lines before it are those of one whole history; and nothing more is put.
pub fn play<K: Sink>(out: &mut K, core: Core, shift: &Shift) -> Status
    requires { IsAtStart core shift.now }
    ensures { IsSoloDelivered core.cell shift.now (sink_seen K.Sink out.old out.new) result }
{
    let mut core = core;
    let mut printer = Printer::new(out);
    print_rounds(&mut printer, &mut core, shift);
    print_left(&mut printer, core);
    printer.status(Status::Done)
}

// Prints the head and the line of each entry. The sessions ask to their ends, also where the sink has failed.
fn print_rounds<K: Sink>(out: &mut Printer<K>, core: &mut Core, shift: &Shift)
    requires { IsAtStart core.old shift.now }
    ensures { ArePrinted K.Sink core.old.cell shift.now core.new out.old out.new }
{
    out.line(&head_line(shift.number, 0));
    let mut rounds = Rounds::begin();
    let mut line = Line::new();
    while let Some(entry) = rounds.ask(core, shift) {
        write_entry(&mut line, core.cell(), &entry);
        out.line(&line);
    }
}
