//! Records printed, each line by itself. It takes no memory.
ghost use Rattle.std.specs.Prelude.{map};
ghost use Rattle.std.specs.List.{All};
ghost use Rattle.cell_base.specs.Plans.{plan_of};
ghost use Rattle.record_text.specs.Fitting.{EntryFits};
ghost use Rattle.printer.specs.Printing.{Prints};
ghost use Rattle.record_printer.specs.Blocks.{block_of, entry_line, left_in_core, step_line, history_lines, plan_lines};

use admission_core::Core;
use cell_base::{Cell, Entry};
use drain_planner::Drainer;
use outside_io::Sink;
use printer::Printer;
use record_text::{Line, head_line, left_line, plan_line, write_entry, write_step};

/// Prints the head of a block and the line of each entry.
pub fn print_history<K: Sink>(
    out: &mut Printer<K>,
    cell: &Cell,
    shift: u32,
    grants: u64,
    entries: &[Entry],
)
    requires { All (EntryFits cell.now) entries.now }
    ensures { Prints K.Sink out.old out.new (history_lines cell.now shift grants entries.now) }
{
    out.line(&head_line(shift, grants));
    print_entries(out, cell, entries);
}

// Prints the line of each entry.
fn print_entries<K: Sink>(out: &mut Printer<K>, cell: &Cell, entries: &[Entry])
    requires { All (EntryFits cell.now) entries.now }
    ensures { Prints K.Sink out.old out.new (map (entry_line cell.now) entries.now) }
{
    let mut line = Line::new();
    for entry in entries {
        write_entry(&mut line, cell, entry);
        out.line(&line);
    }
}

/// Prints a block with a plan: the history of a shift after so many grants, the parts that it left in a core, and their plan.
pub fn print_block<K: Sink>(
    out: &mut Printer<K>,
    core: Core,
    shift: u32,
    grants: u64,
    entries: &[Entry],
)
    requires { All (EntryFits core.cell) entries.now }
    ensures { Prints K.Sink out.old out.new (block_of core shift grants entries.now) }
{
    print_history(out, core.cell(), shift, grants, entries);
    print_left(out, core);
}

/// Prints how many parts are left in a core, and the plan that empties it.
pub fn print_left<K: Sink>(out: &mut Printer<K>, core: Core)
    ensures { Prints K.Sink out.old out.new (left_in_core core) }
{
    out.line(&left_line(core.parts_left()));
    print_plan(out, &mut Drainer::new(core));
}

// Prints how many steps the plan has, and the line of each.
fn print_plan<K: Sink>(out: &mut Printer<K>, drainer: &mut Drainer)
    ensures { Prints K.Sink out.old out.new (plan_lines drainer.old.cell (plan_of drainer.old.cell drainer.old.parts)) }
{
    out.line(&plan_line(drainer.length()));
    print_steps(out, drainer);
}

// Prints the line of each step.
fn print_steps<K: Sink>(out: &mut Printer<K>, drainer: &mut Drainer)
    ensures { Prints K.Sink out.old out.new (map (step_line drainer.old.cell) (plan_of drainer.old.cell drainer.old.parts)) }
{
    let mut line = Line::new();
    while let Some(step) = drainer.next() {
        write_step(&mut line, drainer.cell(), &step);
        out.line(&line);
    }
}
